//! Windows of monitors that go out to be checked with their monitors, and come back.

ghost use Rattle.std.specs.Prelude.{◌≡◌, ◌<◌, IfOk, IfErr, IfSome, OnOk, OnErr, Some, None, true, false, is_some};
ghost use Rattle.std.specs.Bool.{Decides};
ghost use Rattle.std.specs.Option.{option_map, IsSomeAnd};
ghost use Rattle.std.specs.Result.{IsErrOf};
ghost use Rattle.tl_desk.specs.declared.job.Done.TheVariants as a_done;
ghost use Rattle.tl_pieces.specs.Pieces.{piece_at, IsFirstFree};
ghost use Rattle.tl_check.specs.States.{SameSpan};
ghost use Rattle.tl_board.specs.Windows.{key_of};
ghost use Rattle.tl_desk.specs.declared.piece.Piece.TheVariants as piece;
ghost use Rattle.tl_desk.specs.TicketData.{IsOutFor, most_tickets};
ghost use Rattle.tl_board.specs.Tally.{SameTally};
ghost use Rattle.tl_monitor.specs.Boxes.{away_at, brought_back, IsBoxes};
ghost use Rattle.tl_desk.specs.Core.{HaveNumbers};
ghost use Rattle.tl_desk.specs.Jobs.{IsLiveAtWatch, IsFreshWatch, IsHere, IsFirstFreeHere, IsFirstFreeWatch, IsOwn, UnmarksWatch, TakesJob, AcceptsWatch, EndsWatch, RecallsWatch, HandsBack};

use crate::desk::Desk;
use crate::tickets::Taken;
use crate::{Done, HandIn, MonitorDone, MonitorJob, Piece, TakeFault};
use std::alloc::Global;
use tl_board::{WatchTask, Watches, is_watch, watch_key};
use tl_monitor::{Boxes, Monitor};
use tl_pieces::PieceKey;

/// If a ticket is a window's live one, the window has none any more. Answers whether it was.
fn unmark(windows: &mut Watches, key: PieceKey, ticket: u64) -> bool
    ensures live { Decides result (IsLiveAtWatch windows.old key ticket) }
    ensures made { UnmarksWatch windows.old key ticket windows.new }
{
    let Some(live) = windows.live_watch(key) else {
        return false;
    };
    if live != ticket {
        return false;
    }
    windows.set_live_watch(key, None);
    true
}

/// Takes the monitor of a window back.
fn bring_back<M: Monitor>(boxes: &mut Boxes<M>, task: WatchTask<M>)
    requires { IsSomeAnd (away_at task.number boxes.old.slots) (λ away. away.taken ≡ task.held.watch) }
    ensures exact { boxes.new ≡ brought_back task.number task.held boxes.old }
    ensures kept { IsBoxes boxes.old }
{
    // The numbers of monitors rise.
    let _ = boxes.settlements();
    let number = task.number();
    let monitor = task.into_monitor();
    boxes.bring_back(number, monitor);
}

/// The first window of a monitor that is here, which is wanted and has no live ticket. It begins with the first such one of any
/// monitor, and passes the numbers of those that are out over.
fn first_here<M: Monitor>(
    windows: &Watches,
    boxes: &Boxes<M>,
    first: Option<PieceKey>,
) -> Option<PieceKey>
    requires numbers { HaveNumbers boxes.now }
    requires first { IsFirstFree SameTally windows.now.board first }
    requires there { IfSome first (λ key. is_some (piece_at key windows.now.board) ≡ true) }
    ensures first { IsFirstFreeHere boxes.now windows.now.board result }
    ensures there { IfSome result (λ key. is_some (piece_at key windows.now.board) ≡ true) }
    ensures here { IfSome result (λ key. IsHere boxes.now key.owner) }
{
    // The keys rise.
    let _ = windows.spans();
    let mut found = first;
    while let Some(key) = found {
        if boxes.is_here(key.owner) {
            return Some(key);
        }
        let owner = key.owner.checked_add(1)?;
        found = windows.next_free_watch(PieceKey { owner, window: 0 });
    }
    None
}

impl<M: Monitor> Desk<M> {
    /// The first window of a monitor that is here, which is wanted and has no live ticket.
    pub(crate) fn first_free_monitor(&mut self) -> Option<PieceKey>
        ensures first { IsFirstFreeWatch self.old result }
        ensures there { IfSome result (λ key. is_some (piece_at key self.old.windows.board) ≡ true) }
        ensures here { IfSome result (λ key. IsHere self.old.boxes key.owner) }
        ensures same { self.new ≡ self.old }
    {
        let first = self.windows.first_free_watch();
        first_here(&self.windows, &self.boxes, first)
    }

    /// Gives this window, which is the first one, with its monitor, under the next ticket.
    pub(crate) fn take_monitor(
        &mut self,
        alloc: Global,
        key: PieceKey,
    ) -> Result<MonitorJob<M>, TakeFault>
        requires none { IsFirstFree SameSpan self.old.windows.spans.board None }
        requires first { IsFirstFreeWatch self.old (Some key) }
        requires there { is_some (piece_at key self.old.windows.board) ≡ true }
        requires here { IsHere self.old.boxes key.owner }
        ensures step { IfOk result (λ job. TakesJob self.old job self.new) }
        ensures spent { IsErrOf result TakeFault.TicketsSpent → self.old.tickets.last ≡ most_tickets }
        ensures memory { IsErrOf result TakeFault.Memory → self.old.tickets.last < most_tickets }
        ensures err { OnErr result (self.new ≡ self.old) }
    {
        if self.tickets.are_spent() {
            return Err(TakeFault::TicketsSpent);
        }
        let window = self.windows.watch_window(alloc, key)?;
        let piece = Piece::Monitor(key.owner, key.window);
        let edits = self.windows.spans().log().len();
        let ticket = self.tickets.give(Taken { piece, edits })?;
        let monitor = self.boxes.take_box(key.owner, ticket).unwrap();
        self.windows.set_live_watch(key, Some(ticket));
        Ok(MonitorJob::new(ticket, window.for_monitor(monitor)))
    }

    /// Takes a checked window of a monitor in.
    pub(crate) fn hand_in_monitor(&mut self, done: MonitorDone<M>) -> HandIn<M>
        ensures { HandsBack self.old (a_done.Monitor done) result self.new }
    {
        if !self.is_own(done.job()) {
            return HandIn::Stranger(Done::Monitor(done));
        }
        if self.is_fresh_watch(done.job()) {
            self.accept_watch(done);
            HandIn::Taken
        } else {
            self.end_watch(done.back());
            HandIn::Void
        }
    }

    /// Takes a window of a monitor back that wasn't checked.
    pub(crate) fn abandon_monitor(&mut self, job: MonitorJob<M>) -> Result<(), MonitorJob<M>>
        ensures step { OnOk result (EndsWatch self.old job self.new) }
        ensures stranger { OnErr result (IsOwn self.old job → ⊥) }
        ensures back { IfErr result (λ same. same ≡ job) }
        ensures err { OnErr result (self.new ≡ self.old) }
    {
        if !self.is_own(&job) {
            return Err(job);
        }
        self.end_watch(job);
        Ok(())
    }

    /// Calls the ticket of a window of a monitor back, if it is live.
    pub(crate) fn recall_monitor(&mut self, number: u32, window: u64, ticket: u64) -> bool
        requires { IsOutFor ticket (piece.Monitor number window) self.old.tickets.out }
        ensures live { Decides result (IsLiveAtWatch self.old.windows (key_of number window) ticket) }
        ensures step { result ≡ true → RecallsWatch self.old ticket self.new }
        ensures rest { result ≡ false → self.new ≡ self.old }
    {
        let owner = number;
        unmark(&mut self.windows, PieceKey { owner, window }, ticket)
    }

    /// Whether a job's ticket is out for its window, and its monitor has the watch with which that of its number left.
    fn is_own(&self, job: &MonitorJob<M>) -> bool
        ensures { Decides result (IsOwn self.now job.now) }
    {
        if !self.tickets.is_out(job.ticket(), &job.piece()) {
            return false;
        }
        match self.boxes.away(job.task().number()) {
            Some(away) => is_watch(&away.taken, &job.task().watch()),
            None => false,
        }
    }

    /// Whether a job's ticket is the live one of its window, and what the job was made of is what stands.
    fn is_fresh_watch(&self, job: &MonitorJob<M>) -> bool
        ensures { Decides result (IsFreshWatch self.now job.now) }
    {
        let Some(live) = self.windows.live_watch(watch_key(job.task())) else {
            return false;
        };
        if live != job.ticket() {
            return false;
        }
        self.windows.is_current_watch(job.task())
    }

    /// Takes the result of a window whose ticket is live, and its monitor back.
    fn accept_watch(&mut self, done: MonitorDone<M>)
        requires own { IsOwn self.old done.job }
        requires fresh { IsFreshWatch self.old done.job }
        ensures { AcceptsWatch self.old done self.new }
    {
        let (ticket, task, stored) = done.into_parts();
        self.windows.hand_in_watch(&task, stored);
        self.tickets.end(ticket);
        bring_back(&mut self.boxes, task);
    }

    /// Ends the ticket of a job, and takes its monitor back.
    fn end_watch(&mut self, job: MonitorJob<M>)
        requires { IsOwn self.old job }
        ensures { EndsWatch self.old job self.new }
    {
        let (ticket, own) = job.into_parts();
        unmark(&mut self.windows, watch_key(&own), ticket);
        self.tickets.end(ticket);
        bring_back(&mut self.boxes, own);
    }
}
