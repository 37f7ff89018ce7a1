//! Windows of managers that go out to be checked, and come back.

ghost use Rattle.std.specs.Prelude.{◌≡◌, ◌<◌, IfOk, IfErr, IfSome, OnOk, OnErr, Some, true, false, is_some};
ghost use Rattle.std.specs.Bool.{Decides};
ghost use Rattle.std.specs.Result.{IsErrOf};
ghost use Rattle.tl_desk.specs.JobData.{piece_of};
ghost use Rattle.tl_desk.specs.declared.job.Done.TheVariants as a_done;
ghost use Rattle.tl_pieces.specs.Pieces.{piece_at, IsFirstFree};
ghost use Rattle.tl_check.specs.States.{SameSpan};
ghost use Rattle.tl_board.specs.Tickets.{IsTaskFor};
ghost use Rattle.tl_board.specs.Windows.{key_of};
ghost use Rattle.tl_desk.specs.declared.piece.Piece.TheVariants as piece;
ghost use Rattle.tl_desk.specs.Core.{IsSound};
ghost use Rattle.tl_desk.specs.TicketData.{IsOutFor, most_tickets};
ghost use Rattle.tl_desk.specs.Jobs.{IsLiveAt, IsFresh, Unmarks, Takes, Accepts, Ends, Recalls, HandsBack, key_for};

use crate::desk::Desk;
use crate::tickets::Taken;
use crate::{Done, HandIn, ManagerDone, ManagerJob, Piece, TakeFault};
use std::alloc::Global;
use tl_board::{Watches, window_key};
use tl_monitor::Monitor;
use tl_pieces::PieceKey;

/// If a ticket is a window's live one, the window has none any more. Answers whether it was.
fn unmark(windows: &mut Watches, key: PieceKey, ticket: u64) -> bool
    ensures live { Decides result (IsLiveAt windows.old.spans key ticket) }
    ensures made { Unmarks windows.old.spans key ticket windows.new.spans }
    ensures rest { windows.new.board ≡ windows.old.board }
{
    let Some(live) = windows.live_span(key) else {
        return false;
    };
    if live != ticket {
        return false;
    }
    windows.set_live_span(key, None);
    true
}

impl<M: Monitor> Desk<M> {
    /// The first window of a manager that is wanted and has no live ticket.
    pub(crate) fn first_free_manager(&mut self) -> Option<PieceKey>
        ensures first { IsFirstFree SameSpan self.old.windows.spans.board result }
        ensures there { IfSome result (λ key. is_some (piece_at key self.old.windows.spans.board) ≡ true) }
        ensures kept { IsSound self.old }
        ensures same { self.new ≡ self.old }
    {
        self.windows.first_free_span()
    }

    /// Gives this window, which is the first one, under the next ticket.
    pub(crate) fn take_manager(
        &mut self,
        alloc: Global,
        key: PieceKey,
    ) -> Result<ManagerJob, TakeFault>
        requires first { IsFirstFree SameSpan self.old.windows.spans.board (Some key) }
        requires there { is_some (piece_at key self.old.windows.spans.board) ≡ true }
        ensures step { IfOk result (λ job. Takes self.old job.ticket (key_for job) self.new × IsTaskFor self.old.windows.spans (key_for job) job.task) }
        ensures spent { IsErrOf result TakeFault.TicketsSpent → self.old.tickets.last ≡ most_tickets }
        ensures memory { IsErrOf result TakeFault.Memory → self.old.tickets.last < most_tickets }
        ensures err { OnErr result (self.new ≡ self.old) }
    {
        if self.tickets.are_spent() {
            return Err(TakeFault::TicketsSpent);
        }
        let task = self.windows.span_task(alloc, key)?;
        let piece = Piece::Manager(task.manager(), task.window());
        let edits = self.windows.spans().log().len();
        let ticket = self.tickets.give(Taken { piece, edits })?;
        self.windows.set_live_span(key, Some(ticket));
        Ok(ManagerJob::new(ticket, task))
    }

    /// Takes a checked window of a manager in.
    pub(crate) fn hand_in_manager(&mut self, done: ManagerDone) -> HandIn<M>
        ensures { HandsBack self.old (a_done.Manager done) result self.new }
    {
        if !self.tickets.is_out(done.ticket(), &done.piece()) {
            return HandIn::Stranger(Done::Manager(done));
        }
        if self.is_fresh(done.job()) {
            self.accept(done);
            HandIn::Taken
        } else {
            self.end(done.back());
            HandIn::Void
        }
    }

    /// Takes a window of a manager back that wasn't checked.
    pub(crate) fn abandon_manager(&mut self, job: ManagerJob) -> Result<(), ManagerJob>
        ensures step { OnOk result (Ends self.old job self.new) }
        ensures stranger { OnErr result (IsOutFor job.ticket (piece_of job) self.old.tickets.out → ⊥) }
        ensures back { IfErr result (λ same. same ≡ job) }
        ensures err { OnErr result (self.new ≡ self.old) }
    {
        if !self.tickets.is_out(job.ticket(), &job.piece()) {
            return Err(job);
        }
        self.end(job);
        Ok(())
    }

    /// Calls the ticket of a window of a manager back, if it is live.
    pub(crate) fn recall_manager(&mut self, owner: u16, window: u64, ticket: u64) -> bool
        requires { IsOutFor ticket (piece.Manager owner window) self.old.tickets.out }
        ensures live { Decides result (IsLiveAt self.old.windows.spans (key_of owner window) ticket) }
        ensures step { result ≡ true → Recalls self.old ticket self.new }
        ensures rest { result ≡ false → self.new ≡ self.old }
    {
        let owner = u32::from(owner);
        unmark(&mut self.windows, PieceKey { owner, window }, ticket)
    }

    /// Whether a job's ticket is the live one of its window, and what the job was made of is what stands.
    fn is_fresh(&self, job: &ManagerJob) -> bool
        ensures { Decides result (IsFresh self.now job.now) }
    {
        let Some(live) = self.windows.live_span(window_key(job.task())) else {
            return false;
        };
        if live != job.ticket() {
            return false;
        }
        self.windows.is_current(job.task())
    }

    /// Takes the result of a window whose ticket is live.
    fn accept(&mut self, done: ManagerDone)
        requires out { IsOutFor done.job.ticket (piece_of done.job) self.old.tickets.out }
        requires fresh { IsFresh self.old done.job }
        ensures { Accepts self.old done self.new }
    {
        let (ticket, task, stored) = done.into_parts();
        self.windows.hand_in_span(&task, stored);
        self.tickets.end(ticket);
    }

    /// Ends the ticket of a job.
    fn end(&mut self, job: ManagerJob)
        requires { IsOutFor job.ticket (piece_of job) self.old.tickets.out }
        ensures { Ends self.old job self.new }
    {
        let ticket = job.ticket();
        unmark(&mut self.windows, window_key(job.task()), ticket);
        self.tickets.end(ticket);
        job.forfeit();
    }
}
