//! The check of a window.

ghost use Rattle.std.specs.Prelude.{◌≡◌, IfOk, IfSome, OnErr, Some, is_some, true};
ghost use Rattle.std.specs.Arc.{arc_value};
ghost use Rattle.tl_pieces.specs.Marks.{pass_of};
ghost use Rattle.tl_pieces.specs.Pieces.{piece_at, entry_for, IsFirstWanted, HasTrueEntry};
ghost use Rattle.tl_check.specs.States.{SameSpan};
ghost use Rattle.tl_check.specs.declared.state.SpanState.{SpanState as AnyState};
ghost use Rattle.tl_board.specs.Live.{IsLive, window_of};
ghost use Rattle.tl_board.specs.Spans.{standing, IsSpanOf, ChecksFirst};

use crate::Rows;
use crate::spans::Spans;
use crate::windows::keep_following;
use std::alloc::{AllocError, Global};
use tl_check::SpanState;
use tl_pieces::{PieceKey, Stored};

/// For how many windows a state goes on. Then the next is checked from a copy of what was kept, which takes no more memory than it shows.
const MOST_WINDOWS: u32 = 16;

/// A state that goes on after a window: it shows what the window left.
#[derive(Drop)]
pub(crate) struct Live {
    /// The window.
    pub(crate) key: PieceKey,
    pub(crate) state: SpanState,
    /// For how many windows more it may go on.
    pub(crate) more: u32,
}

impl Spans {
    /// Checks the first window that is wanted, from what the windows of its manager before it leave, and answers the state that goes on after
    /// it; its ticket ends. It is given the one that goes on after an earlier window, if there is one, so that none is copied where that was
    /// the window before. None where no window is wanted, and then nothing has changed. AllocError where memory is refused: then nothing has
    /// changed.
    pub(crate) fn check_first(
        &mut self,
        alloc: Global,
        live: Option<Live>,
    ) -> Result<Option<Live>, AllocError>
        requires live { IfSome live (IsLive self.old.board) }
        ensures first { IfOk result (λ left. IsFirstWanted SameSpan self.old.board (window_of left)) }
        ensures entry { IfOk result (λ left. IfSome (window_of left) (HasTrueEntry SameSpan self.old.board)) }
        ensures checked { IfOk result (λ left. ChecksFirst self.old (window_of left) self.new) }
        ensures live { IfOk result (λ left. IfSome left (IsLive self.new.board)) }
        ensures err { OnErr result (self.new ≡ self.old) }
    {
        let Some(key) = self.pieces.first_wanted() else {
            return Ok(None);
        };
        let (stored, left) = self.checked(alloc, key, live)?;
        keep_following(&mut self.pieces, key, stored);
        Ok(Some(left))
    }

    /// The result of a window from what it is to start from: the nearest exit before it, or what no beats leave; and the state that goes on
    /// after it. What the window leaves is settled, so that the states of windows share what is held.
    fn checked(
        &self,
        alloc: Global,
        key: PieceKey,
        live: Option<Live>,
    ) -> Result<(Stored<SpanState, Rows>, Live), AllocError>
        requires there { is_some (piece_at key self.now.board) ≡ true }
        requires live { IfSome live (IsLive self.now.board) }
        ensures span { IfOk result (λ x. IsSpanOf (standing self.now) key.owner key.window (pass_of x.0)) }
        ensures entry { IfOk result (λ x. entry_for key self.now.board ≡ Some (arc_value x.0.entry)) }
        ensures key { IfOk result (λ x. x.1.key ≡ key) }
        ensures left { IfOk result (λ x. SameSpan (arc_value x.0.exit) x.1.state) }
    {
        let task = self.task(alloc, key)?;
        let (mut state, more) = match self.going_on(key, live) {
            Some(found) => found,
            None => (task.begin(alloc)?, MOST_WINDOWS),
        };
        let stored = task.check_on(alloc, &mut state)?;
        let more = more.saturating_sub(1);
        Ok((stored, Live { key, state, more }))
    }

    /// The state that goes on after an earlier window, and for how many windows more it may, where this window is the next of its manager: it
    /// shows what the window is to start from.
    fn going_on(&self, key: PieceKey, live: Option<Live>) -> Option<(SpanState, u32)>
        requires { IfSome live (IsLive self.now.board) }
        ensures { IfSome result (λ x. (entry : AnyState) → entry_for key self.now.board ≡ Some entry → SameSpan entry x.0) }
    {
        let Live {
            key: last,
            state,
            more,
        } = live?;
        let next = self.pieces.next_of(last)?;
        if more > 0 && next == key {
            Some((state, more))
        } else {
            None
        }
    }
}
