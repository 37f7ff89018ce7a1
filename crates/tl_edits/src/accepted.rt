//! What accepted edits make of what stands.

ghost use Rattle.std.specs.Prelude.{◌≡◌, None, OnOk, OnErr};
ghost use Rattle.std.specs.Arc.{arc_value};
ghost use Rattle.tl_definitions.specs.Watching.{retuned};
ghost use Rattle.tl_edits.specs.Edits.{plain, plain_change, add, replace, withdraw, clear_link, set_region, remove_region, retune};
ghost use Rattle.tl_edits.specs.Inputs.{cause, changed, with_monitor};

use crate::edit::{Change, Edit};
use crate::inputs::Inputs;
use std::alloc::AllocError;
use std::sync::Arc;
use tl_beats::{Fragment, Watch};
use tl_topology::{Name, Region};

/// The watch with another limit; an After has none.
fn retuned(watch: Watch, limit: u32) -> Watch
    ensures { result ≡ retuned watch limit }
{
    match watch {
        Watch::Budget { link, class, .. } => Watch::Budget { link, class, limit },
        after => after,
    }
}

impl Inputs {
    /// Makes an edit that no cause refuses. AllocError where memory is refused: then nothing has changed.
    pub(crate) fn apply(&mut self, edit: &Edit) -> Result<(), AllocError>
        requires { cause self.old (plain edit.now) ≡ None }
        ensures ok { OnOk result (self.new ≡ changed self.old (plain edit.now)) }
        ensures err { OnErr result (self.new ≡ self.old) }
    {
        match edit {
            Edit::Change(change) => self.change(change),
            Edit::Attach(monitor, watch) => self.set_monitor(*monitor, Some(*watch)),
        }
    }

    fn change(&mut self, change: &Change) -> Result<(), AllocError>
        requires { cause self.old (plain_change change.now) ≡ None }
        ensures ok { OnOk result (self.new ≡ changed self.old (plain_change change.now)) }
        ensures err { OnErr result (self.new ≡ self.old) }
    {
        match change {
            Change::Add(fragment) => self.add(fragment),
            Change::Replace(fragment) => self.replace(fragment),
            Change::Withdraw(link, number) => {
                self.withdraw(link, *number);
                Ok(())
            }
            Change::ClearLink(link) => {
                self.clear_link(link);
                Ok(())
            }
            Change::SetRegion(manager, number, region) => {
                self.set_region(manager, *number, *region)
            }
            Change::RemoveRegion(manager, number) => {
                self.remove_region(manager, *number);
                Ok(())
            }
            Change::Retune(monitor, limit) => self.retune(*monitor, *limit),
            Change::Detach(monitor) => self.set_monitor(*monitor, None),
        }
    }

    fn add(&mut self, fragment: &Arc<Fragment>) -> Result<(), AllocError>
        requires { cause self.old (add (arc_value fragment.now)) ≡ None }
        ensures ok { OnOk result (self.new ≡ changed self.old (add (arc_value fragment.now))) }
        ensures err { OnErr result (self.new ≡ self.old) }
    {
        let shared = Arc::try_clone(fragment)?;
        let Some(link) = self.topo.link_of(&fragment.link()) else {
            return Ok(());
        };
        self.present.put(link, shared)
    }

    fn replace(&mut self, fragment: &Arc<Fragment>) -> Result<(), AllocError>
        requires { cause self.old (replace (arc_value fragment.now)) ≡ None }
        ensures ok { OnOk result (self.new ≡ changed self.old (replace (arc_value fragment.now))) }
        ensures err { OnErr result (self.new ≡ self.old) }
    {
        let shared = Arc::try_clone(fragment)?;
        let Some(link) = self.topo.link_of(&fragment.link()) else {
            return Ok(());
        };
        self.present.replace(link, shared)
    }

    fn withdraw(&mut self, link: &Name, number: u32)
        ensures { self.new ≡ changed self.old (withdraw link.now number) }
    {
        if let Some(link) = self.topo.link_of(link) {
            self.present.take(link, number);
        }
    }

    fn clear_link(&mut self, link: &Name)
        ensures { self.new ≡ changed self.old (clear_link link.now) }
    {
        if let Some(link) = self.topo.link_of(link) {
            self.present.clear(link);
        }
    }

    fn set_region(&mut self, manager: &Name, number: u8, region: Region) -> Result<(), AllocError>
        requires { cause self.old (set_region manager.now number region) ≡ None }
        ensures ok { OnOk result (self.new ≡ changed self.old (set_region manager.now number region)) }
        ensures err { OnErr result (self.new ≡ self.old) }
    {
        let Some(manager) = self.topo.manager_of(manager) else {
            return Ok(());
        };
        let place = manager as usize;
        self.regions[place]
            .set(number, region)
            .map_err(|_| AllocError)
    }

    fn remove_region(&mut self, manager: &Name, number: u8)
        ensures { self.new ≡ changed self.old (remove_region manager.now number) }
    {
        if let Some(manager) = self.topo.manager_of(manager) {
            let _ = self.regions[manager as usize].remove(number);
        }
    }

    fn retune(&mut self, monitor: u32, limit: u32) -> Result<(), AllocError>
        ensures ok { OnOk result (self.new ≡ changed self.old (retune monitor limit)) }
        ensures err { OnErr result (self.new ≡ self.old) }
    {
        let watch = self.watch(monitor).map(|watch| retuned(watch, limit));
        self.set_monitor(monitor, watch)
    }

    /// Gives a monitor a watch, or takes it off.
    fn set_monitor(&mut self, monitor: u32, watch: Option<Watch>) -> Result<(), AllocError>
        ensures ok { OnOk result (self.new ≡ with_monitor self.old monitor watch) }
        ensures err { OnErr result (self.new ≡ self.old) }
    {
        self.monitors.insert(monitor, watch)?;
        Ok(())
    }
}
