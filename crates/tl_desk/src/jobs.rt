//! Windows that go out to be checked, and come back: those of managers, and those of monitors with their monitors.

ghost use Rattle.std.specs.Prelude.{◌≡◌, ◌<◌, IfOk, IfErr, OnOk, OnErr, true, false};
ghost use Rattle.std.specs.Bool.{Decides};
ghost use Rattle.std.specs.Result.{IsErrOf};
ghost use Rattle.tl_desk.specs.Works.{ticket_of, window_of};
ghost use Rattle.tl_desk.specs.Core.{IsSound};
ghost use Rattle.tl_desk.specs.TicketData.{most_tickets};
ghost use Rattle.tl_desk.specs.Jobs.{IsLive, Gives, HasFree, HandsBack, TakesBack, IsOutHere};
ghost use Rattle.tl_desk.specs.Steps.{Step, HandInStep};
ghost use Rattle.tl_desk.specs.declared.call.Call.TheVariants as call;

use crate::desk::Desk;
use crate::{Done, HandIn, Job, Piece, TakeFault};
use std::alloc::Global;
use tl_monitor::Monitor;

impl<M: Monitor> Desk<M> {
    /// Gives the first window that is wanted and has no live ticket, with all that its check asks, under the next ticket: windows of
    /// managers first, in the order of managers and windows, then those of monitors that are here, in the order of their numbers and
    /// of windows. A window of a monitor takes its monitor along, which is out until its job comes back. None exactly where there is
    /// no such window. TicketsSpent where there is one and the last ticket was given; Memory where a ticket is left and memory is
    /// refused. A refusal changes nothing.
    pub fn take(&mut self, alloc: Global) -> Result<Option<Job<M>>, TakeFault>
        ensures step { IfOk result (λ job. Gives self.old job self.new) }
        ensures kept { IsSound self.old }
        ensures spent { IsErrOf result TakeFault.TicketsSpent → HasFree self.old × (self.old.tickets.last ≡ most_tickets) }
        ensures memory { IsErrOf result TakeFault.Memory → HasFree self.old × (self.old.tickets.last < most_tickets) }
        ensures err { OnErr result (self.new ≡ self.old) }
    {
        if let Some(key) = self.first_free_manager() {
            let job = self.take_manager(alloc, key)?;
            return Ok(Some(Job::Manager(job)));
        }
        let Some(key) = self.first_free_monitor() else {
            return Ok(None);
        };
        let job = self.take_monitor(alloc, key)?;
        Ok(Some(Job::Monitor(job)))
    }

    /// Takes a checked window in: where its ticket is out and the window's live one, and what was checked is what stands, a window
    /// that is wanted gets the result. A job whose ticket isn't out for its window, or whose monitor hasn't the watch with which that
    /// of its number left, as that of another desk, comes back, and nothing has changed; any other ticket ends, and a monitor that
    /// was out with it is here again, with the last limit, or is closed with the number of the edit that detached it meanwhile, and
    /// dropped. It takes no memory.
    pub fn hand_in(&mut self, done: Done<M>) -> HandIn<M>
        ensures back { HandsBack self.old done result self.new }
        ensures step { HandInStep self.old done result self.new }
    {
        match done {
            Done::Manager(done) => self.hand_in_manager(done),
            Done::Monitor(done) => self.hand_in_monitor(done),
        }
    }

    /// Takes a window back that wasn't checked: its ticket ends, nothing is stored, and a monitor that was out with it is here again
    /// or ends, as where it is handed in. A job whose ticket isn't out for its window, or whose monitor hasn't the watch with which
    /// that of its number left, comes back, and nothing has changed. It takes no memory.
    pub fn abandon(&mut self, job: Job<M>) -> Result<(), Job<M>>
        ensures step { OnOk result (Step self.old (call.Abandon (ticket_of job) (window_of job)) self.new) }
        ensures ended { OnOk result (TakesBack self.old job self.new) }
        ensures stranger { OnErr result (IsOutHere self.old job → ⊥) }
        ensures back { IfErr result (λ same. same ≡ job) }
        ensures err { OnErr result (self.new ≡ self.old) }
    {
        match job {
            Job::Manager(job) => match self.abandon_manager(job) {
                Ok(()) => Ok(()),
                Err(job) => Err(Job::Manager(job)),
            },
            Job::Monitor(job) => match self.abandon_monitor(job) {
                Ok(()) => Ok(()),
                Err(job) => Err(Job::Monitor(job)),
            },
        }
    }

    /// Calls a live ticket back, and answers whether it was live: its window is wanted for a job again. The ticket stays out, and so
    /// does the monitor that is out with it; its job comes to nothing.
    pub fn recall(&mut self, ticket: u64) -> bool
        ensures live { Decides result (IsLive self.old ticket) }
        ensures step { result ≡ true → Step self.old (call.Recall ticket) self.new }
        ensures rest { result ≡ false → self.new ≡ self.old }
    {
        let Some(taken) = self.tickets.taken(ticket) else {
            return false;
        };
        match taken.piece {
            Piece::Manager(owner, window) => self.recall_manager(owner, window, ticket),
            Piece::Monitor(number, window) => self.recall_monitor(number, window, ticket),
        }
    }
}
