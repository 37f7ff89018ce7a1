//! The check of all windows that are wanted.

ghost use Rattle.std.specs.Prelude.{◌≡◌, ◌⊎◌, IfOk, IfErr, IfSome, OnOk, OnErr, None, Some, is_some, true};
ghost use Rattle.std.specs.Result.{IsErrOf};
ghost use Rattle.tl_monitor.specs.Boxes.{away_at};
ghost use Rattle.tl_edits.specs.Inputs.{watch_at};
ghost use Rattle.tl_pieces.specs.Pieces.{piece_at, IsSettled, IsFirstWanted};
ghost use Rattle.tl_check.specs.States.{SameSpan};
ghost use Rattle.tl_board.specs.Recheck.{Rechecks, ChecksSome};
ghost use Rattle.tl_board.specs.Spans.{standing};
ghost use Rattle.tl_board.specs.Tally.{SameTally};
ghost use Rattle.tl_board.specs.Watches.{ChecksWatch, IsAmidWindow};
ghost use Rattle.tl_desk.specs.Core.{AreAttached, HaveNumbers};
ghost use Rattle.tl_desk.specs.Steps.{KeepsBoxes, LeavesOne, LeavesTallies, RechecksSome, NoneIsOut, IsFirstOut, IsFirstOutOf, RefusesRecheck, Step};
ghost use Rattle.tl_desk.specs.declared.call.Call.TheVariants as call;

use crate::desk::Desk;
use crate::fault::RecheckFault;
use std::alloc::{AllocError, Global};
use tl_board::Watches;
use tl_monitor::{Boxes, Monitor};
use tl_pieces::PieceKey;

/// Checks a window of a monitor that is here. AllocError where memory is refused: then no window has changed.
fn check_here<M: Monitor>(
    alloc: Global,
    windows: &mut Watches,
    boxes: &mut Boxes<M>,
    key: PieceKey,
) -> Result<(), AllocError>
    requires attached { AreAttached (standing windows.old.spans) boxes.old }
    requires there { is_some (piece_at key windows.old.board) ≡ true }
    requires owner { is_some (watch_at key.owner (standing windows.old.spans).monitors) ≡ true }
    requires here { is_some (away_at key.owner boxes.old.slots) ≡ true → ⊥ }
    ensures kept { KeepsBoxes boxes.old boxes.new }
    ensures tally { OnOk result (LeavesOne key.owner (λ held. IsAmidWindow windows.old key held.watch) boxes.old boxes.new) }
    ensures left { OnErr result (LeavesOne key.owner (λ held tally. (tally ≡ held.tally) ⊎ IsAmidWindow windows.old key held.watch tally) boxes.old boxes.new) }
    ensures ok { OnOk result (ChecksWatch windows.old key windows.new) }
    ensures err { OnErr result (windows.new ≡ windows.old) }
{
    let mut monitor = boxes.take_here(key.owner).unwrap();
    let checked = windows.check_watch(alloc, key, &mut monitor);
    boxes.put_here(key.owner, monitor);
    checked
}

/// Checks every window of a monitor that is wanted, each once, with its monitor and from what its windows before it leave, until
/// all of monitors are settled, and answers how many those were. The tickets of these windows end. AllocError where memory is
/// refused: then some of these windows have their results, and no tickets.
fn check_watches<M: Monitor>(
    alloc: Global,
    windows: &mut Watches,
    boxes: &mut Boxes<M>,
) -> Result<u64, AllocError>
    requires attached { AreAttached (standing windows.old.spans) boxes.old }
    requires settled { IsSettled SameSpan windows.old.spans.board }
    requires here { NoneIsOut boxes.old windows.old.board }
    ensures spans { windows.new.spans ≡ windows.old.spans }
    ensures boxes { KeepsBoxes boxes.old boxes.new }
    ensures ok { IfOk result (λ count. Rechecks SameTally windows.old.board windows.new.board count) }
    ensures err { OnErr result (ChecksSome SameTally windows.old.board windows.new.board) }
    ensures left { OnErr result (LeavesTallies windows.new boxes.old boxes.new) }
{
    // The keys rise, and they are fewer than 2^64.
    let _ = windows.spans();
    let mut count = 0;
    while !windows.settled() {
        let key = windows.next_watch().unwrap();
        check_here(alloc, windows, boxes, key)?;
        count += 1;
    }
    Ok(count)
}

/// The first window that is wanted of a monitor that is out. It begins with the first that is wanted of any monitor, and passes the
/// numbers of those that are here over.
fn first_waiting<M: Monitor>(
    windows: &Watches,
    boxes: &Boxes<M>,
    first: Option<PieceKey>,
) -> Option<PieceKey>
    requires numbers { HaveNumbers boxes.now }
    requires first { IsFirstWanted SameTally windows.now.board first }
    ensures { IsFirstOutOf boxes.now windows.now.board result }
{
    // The keys rise.
    let _ = windows.spans();
    let mut found = first;
    while let Some(key) = found {
        if boxes.away(key.owner).is_some() {
            return Some(key);
        }
        let owner = key.owner.checked_add(1)?;
        found = windows.next_wanted_watch(PieceKey { owner, window: 0 });
    }
    None
}

impl<M: Monitor> Desk<M> {
    /// Checks every window that is wanted, each once and from what stands before it, until all are settled, and answers how many
    /// those were, up to the greatest 64-bit number: the windows that had no result, or one that did not begin with what is left
    /// by the beats before them. The tickets of these windows end; every other result and ticket stays. BoxOut with the lowest
    /// number of a monitor that isn't settled and is out, where there is one: then nothing has changed. Memory where there is none
    /// and memory is refused: then some of these windows have their results, and no tickets, and all else is as it was, but for the
    /// tallies of monitors, each of which is as it was, or that after some first beats of one of the monitor's windows.
    pub fn recheck_now(&mut self, alloc: Global) -> Result<u64, RecheckFault>
        ensures step { IfOk result (λ count. Step self.old (call.Recheck count) self.new) }
        ensures here { OnOk result (IsFirstOut self.old None) }
        ensures out { IfErr result (λ fault. RefusesRecheck self.old fault self.new) }
    {
        if let Some(key) = self.first_out() {
            return Err(RecheckFault::BoxOut(key.owner));
        }
        let count = self.check_all(alloc)?;
        Ok(count)
    }

    /// The first window that is wanted of a monitor that is out.
    fn first_out(&mut self) -> Option<PieceKey>
        ensures first { IsFirstOut self.old result }
        ensures same { self.new ≡ self.old }
    {
        let first = self.windows.next_watch();
        first_waiting(&self.windows, &self.boxes, first)
    }

    /// Checks every window that is wanted, where no monitor of one is out.
    fn check_all(&mut self, alloc: Global) -> Result<u64, AllocError>
        requires { IsFirstOut self.old None }
        ensures step { IfOk result (λ count. Step self.old (call.Recheck count) self.new) }
        ensures err { OnErr result (RechecksSome self.old self.new) }
    {
        let of_managers = self.windows.recheck_spans(alloc)?;
        let of_monitors = check_watches(alloc, &mut self.windows, &mut self.boxes)?;
        Ok(of_managers.saturating_add(of_monitors))
    }
}
