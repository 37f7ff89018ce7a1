//! The check of all windows that are wanted.

ghost use Rattle.std.specs.Prelude.{◌≡◌, IfOk, OnErr};
ghost use Rattle.tl_check.specs.States.{SameSpan};
ghost use Rattle.tl_board.specs.Recheck.{Rechecks, ChecksSome};

use crate::spans::Spans;
use std::alloc::{AllocError, Global};

impl Spans {
    /// Checks every window that is wanted, each once and from what the windows of its manager before it leave, until all are
    /// settled. Answers how many those were: the windows that had no result, or one that did not begin with what is left by the
    /// beats of their manager before them. The tickets of these windows end; every other result and ticket stays. AllocError where
    /// memory is refused: then some of these windows have their results, and no tickets.
    pub fn recheck_now(&mut self, alloc: Global) -> Result<u64, AllocError>
        ensures log { self.new.log ≡ self.old.log }
        ensures ok { IfOk result (λ count. Rechecks SameSpan self.old.board self.new.board count) }
        ensures err { OnErr result (ChecksSome SameSpan self.old.board self.new.board) }
    {
        // The keys rise, and they are fewer than 2^64.
        let _ = self.pieces.len();
        let mut count = 0;
        let mut live = None;
        while !self.settled() {
            live = self.check_first(alloc, live)?;
            count += 1;
        }
        Ok(count)
    }
}
