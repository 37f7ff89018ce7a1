//! Which edits are refused.

ghost use Rattle.std.specs.Prelude.{◌≡◌, Some};
ghost use Rattle.std.specs.Option.{option_map_or};
ghost use Rattle.tl_edits.specs.Edits.{plain, plain_change, add, replace, withdraw, clear_link, set_region, remove_region, attach, detach};
ghost use Rattle.tl_edits.specs.Inputs.{cause, limit_refusal, refusal, watch_at};

use crate::edit::{Change, Edit};
use crate::fault::EditFault;
use crate::inputs::Inputs;
use tl_beats::{Fragment, Watch};
use tl_topology::{Name, Region};

/// The most edits that are accepted.
const MOST_EDITS: usize = 65_536;

impl Inputs {
    /// Why an edit after so many others is refused, if it is: the first cause.
    pub(crate) fn refusal(&self, edits: usize, edit: &Edit) -> Option<EditFault>
        ensures { result ≡ refusal edits self.now (plain edit.now) }
    {
        let cause = match edit {
            Edit::Change(change) => self.cause(change),
            Edit::Attach(monitor, watch) => self.attach_cause(*monitor, watch),
        };
        if cause.is_some() {
            return cause;
        }
        if edits >= MOST_EDITS {
            return Some(EditFault::LogFull);
        }
        None
    }

    /// Why a change is refused by what stands, if it is.
    fn cause(&self, change: &Change) -> Option<EditFault>
        ensures { result ≡ cause self.now (plain_change change.now) }
    {
        match change {
            Change::Add(fragment) => self.add_cause(fragment),
            Change::Replace(fragment) => self.replace_cause(fragment),
            Change::Withdraw(link, number) => self.withdraw_cause(link, *number),
            Change::ClearLink(link) => self.link_cause(link),
            Change::SetRegion(manager, number, region) => {
                self.set_region_cause(manager, *number, region)
            }
            Change::RemoveRegion(manager, number) => self.remove_region_cause(manager, *number),
            Change::Retune(monitor, _) => self.retune_cause(*monitor),
            Change::Detach(monitor) => self.detach_cause(*monitor),
        }
    }

    fn add_cause(&self, fragment: &Fragment) -> Option<EditFault>
        ensures { result ≡ cause self.now (add fragment.now) }
    {
        let Some(link) = self.topo.link_of(&fragment.link()) else {
            return Some(EditFault::UnknownLink);
        };
        if self.present.get(link, fragment.number()).is_some() {
            return Some(EditFault::FragmentExists);
        }
        let other = self.present.overlapped(link, fragment)?;
        Some(EditFault::RangeOverlap(other))
    }

    fn replace_cause(&self, fragment: &Fragment) -> Option<EditFault>
        ensures { result ≡ cause self.now (replace fragment.now) }
    {
        let Some(link) = self.topo.link_of(&fragment.link()) else {
            return Some(EditFault::UnknownLink);
        };
        if self.present.get(link, fragment.number()).is_none() {
            return Some(EditFault::NoFragment);
        }
        let other = self.present.overlapped(link, fragment)?;
        Some(EditFault::RangeOverlap(other))
    }

    fn withdraw_cause(&self, link: &Name, number: u32) -> Option<EditFault>
        ensures { result ≡ cause self.now (withdraw link.now number) }
    {
        let Some(link) = self.topo.link_of(link) else {
            return Some(EditFault::UnknownLink);
        };
        if self.present.get(link, number).is_none() {
            return Some(EditFault::NoFragment);
        }
        None
    }

    fn link_cause(&self, link: &Name) -> Option<EditFault>
        ensures { result ≡ cause self.now (clear_link link.now) }
    {
        if self.topo.link_of(link).is_none() {
            return Some(EditFault::UnknownLink);
        }
        None
    }

    fn set_region_cause(&self, manager: &Name, number: u8, region: &Region) -> Option<EditFault>
        ensures { result ≡ cause self.now (set_region manager.now number region.now) }
    {
        let Some(manager) = self.topo.manager_of(manager) else {
            return Some(EditFault::UnknownManager);
        };
        let regions = self.regions.get(manager as usize)?;
        let other = regions.overlapping(number, region)?;
        Some(EditFault::RegionOverlap(other))
    }

    fn remove_region_cause(&self, manager: &Name, number: u8) -> Option<EditFault>
        ensures { result ≡ cause self.now (remove_region manager.now number) }
    {
        let Some(manager) = self.topo.manager_of(manager) else {
            return Some(EditFault::UnknownManager);
        };
        let regions = self.regions.get(manager as usize)?;
        if regions.get(number).is_none() {
            return Some(EditFault::NoRegion);
        }
        None
    }

    fn attach_cause(&self, monitor: u32, watch: &Watch) -> Option<EditFault>
        ensures { result ≡ cause self.now (attach monitor watch.now) }
    {
        if self.topo.link_of(&watch.link()).is_none() {
            return Some(EditFault::UnknownLink);
        }
        if self.was_attached(monitor) {
            return Some(EditFault::MonitorExists);
        }
        None
    }

    fn retune_cause(&self, monitor: u32) -> Option<EditFault>
        ensures { result ≡ option_map_or limit_refusal (watch_at monitor self.now.monitors) (Some EditFault.NoMonitor) }
    {
        match self.watch(monitor) {
            None => Some(EditFault::NoMonitor),
            Some(Watch::After { .. }) => Some(EditFault::WrongKind),
            Some(Watch::Budget { .. }) => None,
        }
    }

    fn detach_cause(&self, monitor: u32) -> Option<EditFault>
        ensures { result ≡ cause self.now (detach monitor) }
    {
        if self.watch(monitor).is_none() {
            return Some(EditFault::NoMonitor);
        }
        None
    }
}
