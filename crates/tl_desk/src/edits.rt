//! Edits of captures, regions and monitors.

ghost use Rattle.std.specs.Prelude.{◌≡◌, ℕ, IfOk, IfErr, OnOk, OnErr, None, Some, length};
ghost use Rattle.std.specs.Result.{IsErrOf};
ghost use Rattle.tl_edits.specs.Edits.{plain_change, attach};
ghost use Rattle.tl_edits.specs.Inputs.{refusal};
ghost use Rattle.tl_monitor.specs.Boxes.{BoxesData, IsBoxes};
ghost use Rattle.tl_desk.specs.Core.{log_of, standing, IsSound};
ghost use Rattle.tl_desk.specs.Steps.{boxes_after, boxes_changed, Step};
ghost use Rattle.tl_desk.specs.declared.call.Call.TheVariants as call;

use crate::desk::Desk;
use std::alloc::Global;
use tl_edits::{Change, Edit, EditFault};
use tl_monitor::{Boxes, Monitor, Watched};

/// What a change does to monitors.
#[derive(Clone, Copy, Drop)]
pub(crate) enum BoxChange {
    /// Nothing.
    Nothing,
    /// The monitor gets this limit.
    Retune(u32, u32),
    /// The monitor ends.
    Detach(u32),
}

impl BoxChange {
    /// What a change does to monitors.
    fn of(change: &Change) -> BoxChange
        ensures { (number : ℕ) (boxes : BoxesData) → boxes_after (plain_change change.now) number boxes ≡ boxes_changed result number boxes }
    {
        match change {
            Change::Retune(monitor, limit) => BoxChange::Retune(*monitor, *limit),
            Change::Detach(monitor) => BoxChange::Detach(*monitor),
            Change::Add(_)
            | Change::Replace(_)
            | Change::Withdraw(_, _)
            | Change::ClearLink(_)
            | Change::SetRegion(_, _, _)
            | Change::RemoveRegion(_, _) => BoxChange::Nothing,
        }
    }

    /// Does it, for an edit of this number.
    fn apply<M: Monitor>(self, boxes: &mut Boxes<M>, number: u64)
        ensures made { boxes.new ≡ boxes_changed self number boxes.old }
        ensures kept { IsBoxes boxes.old }
    {
        // The numbers of monitors rise.
        let _ = boxes.settlements();
        match self {
            BoxChange::Nothing => {}
            BoxChange::Retune(monitor, limit) => boxes.retune(monitor, limit),
            BoxChange::Detach(monitor) => boxes.detach(monitor, number),
        }
    }
}

impl<M: Monitor> Desk<M> {
    /// Accepts a change and answers its number as an edit, or refuses it: the first cause of `EditFault`, which stands then, or
    /// Memory where no cause stands and memory is refused. The windows that it touches lose their results, and no other does; a
    /// retune reaches its monitor, and a detach ends its own, each of which waits for one that is out until it comes back. A refused
    /// change is dropped, and nothing has changed.
    pub fn edit(&mut self, alloc: Global, change: Change) -> Result<u64, EditFault>
        ensures step { IfOk result (λ number. Step self.old (call.Edit change number) self.new) }
        // The numbers of monitors rise.
        ensures boxes { OnOk result (IsBoxes self.old.boxes) }
        ensures refused { IfErr result (λ fault. (fault ≡ EditFault.Memory → ⊥) → refusal (length (log_of self.old).edits) (standing self.old) (plain_change change) ≡ Some fault) }
        ensures memory { IsErrOf result EditFault.Memory → refusal (length (log_of self.old).edits) (standing self.old) (plain_change change) ≡ None }
        ensures err { OnErr result (self.new ≡ self.old) }
    {
        let of_boxes = BoxChange::of(&change);
        let number = self.windows.edit(alloc, Edit::Change(change))?;
        of_boxes.apply(&mut self.boxes, number);
        Ok(number)
    }

    /// Attaches a monitor under a number and answers the number of the edit, or refuses it: the first cause of `EditFault`, which
    /// stands then, or Memory where no cause stands and memory is refused. A monitor that is refused comes back as it was, and
    /// nothing has changed.
    pub fn attach(&mut self, alloc: Global, number: u32, monitor: M) -> Result<u64, (EditFault, M)>
        ensures step { IfOk result (λ edit. Step self.old (call.Attach number (M.held monitor).watch edit) self.new) }
        ensures kept { IsSound self.old }
        ensures refused { IfErr result (λ e. (e.0 ≡ EditFault.Memory → ⊥) → refusal (length (log_of self.old).edits) (standing self.old) (attach number (M.held monitor).watch) ≡ Some e.0) }
        ensures memory { IfErr result (λ e. e.0 ≡ EditFault.Memory → refusal (length (log_of self.old).edits) (standing self.old) (attach number (M.held monitor).watch) ≡ None) }
        ensures back { IfErr result (λ e. M.held e.1 ≡ M.held monitor) }
        ensures err { OnErr result (self.new ≡ self.old) }
    {
        let watched = Watched::new(monitor);
        let edit = Edit::Attach(number, watched.watch());
        if let Some(fault) = self.windows.spans().log().refusal(&edit) {
            return Err((fault, watched.into_inner()));
        }
        match self.attach_watched(alloc, number, watched) {
            Ok(edit) => Ok(edit),
            Err(watched) => Err((EditFault::Memory, watched.into_inner())),
        }
    }

    /// Attaches a monitor that no cause refuses and answers the number of the edit. Where memory is refused the same monitor comes
    /// back, and nothing has changed.
    fn attach_watched(
        &mut self,
        alloc: Global,
        number: u32,
        watched: Watched<M>,
    ) -> Result<u64, Watched<M>>
        requires { refusal (length (log_of self.old).edits) (standing self.old) (attach number watched.watch) ≡ None }
        ensures step { IfOk result (λ edit. Step self.old (call.Attach number watched.watch edit) self.new) }
        ensures back { IfErr result (λ back. back ≡ watched) }
        ensures err { OnErr result (self.new ≡ self.old) }
    {
        let edit = Edit::Attach(number, watched.watch());
        self.boxes.attach(number, watched)?;
        match self.windows.accept(alloc, edit) {
            Ok(number) => Ok(number),
            Err(_) => Err(self.boxes.give_back(number).unwrap()),
        }
    }
}
