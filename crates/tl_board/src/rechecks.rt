//! The check of all windows of managers, and the end.

ghost use Rattle.std.specs.Prelude.{◌≡◌, IfOk, OnErr};
ghost use Rattle.tl_check.specs.States.{SameSpan};
ghost use Rattle.tl_board.specs.Recheck.{Rechecks, ChecksSome};

use crate::watches::Watches;
use std::alloc::{AllocError, Global};
use tl_edits::Log;

impl Watches {
    /// Checks every window of a manager that is wanted, each once and from what the windows of its manager before it leave, until
    /// all of managers are settled, and answers how many those were. The tickets of these windows end; every other result and
    /// ticket stays. AllocError where memory is refused: then some of these windows have their results, and no tickets.
    pub fn recheck_spans(&mut self, alloc: Global) -> Result<u64, AllocError>
        ensures log { self.new.spans.log ≡ self.old.spans.log }
        ensures ok { IfOk result (λ count. Rechecks SameSpan self.old.spans.board self.new.spans.board count) }
        ensures err { OnErr result (ChecksSome SameSpan self.old.spans.board self.new.spans.board) }
        ensures rest { self.new.board ≡ self.old.board }
    {
        let count = self.spans.recheck_now(alloc)?;
        Ok(count)
    }

    /// The log alone.
    pub fn into_log(self) -> Log
        ensures { result ≡ self.spans.log }
    {
        let Watches { spans, pieces: _ } = self;
        spans.into_log()
    }
}
