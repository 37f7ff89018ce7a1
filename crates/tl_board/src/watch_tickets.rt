//! Windows of managers that go out to be checked, and come back. The windows of monitors stay as they are.

ghost use Rattle.std.specs.Prelude.{◌≡◌, IfOk, IfSome, is_some, true};
ghost use Rattle.std.specs.Bool.{Decides};
ghost use Rattle.tl_pieces.specs.Keys.{change};
ghost use Rattle.tl_pieces.specs.Marks.{pass_of};
ghost use Rattle.tl_pieces.specs.Pieces.{piece_at, live_of, with_live, with_pieces, IsFirstFree};
ghost use Rattle.tl_check.specs.States.{SameSpan};
ghost use Rattle.tl_board.specs.Spans.{standing};
ghost use Rattle.tl_board.specs.Tickets.{IsTaskFor, StandsIn, HandsIn};
ghost use Rattle.tl_board.specs.Windows.{key_of};
ghost use Rattle.tl_board.specs.Tasks.{IsPassOf};

use crate::watches::Watches;
use crate::{Rows, SpanTask};
use std::alloc::{AllocError, Global};
use tl_check::SpanState;
use tl_pieces::{PieceKey, Stored};

impl Watches {
    /// The first window of a manager that is wanted and has no live ticket.
    pub fn first_free_span(&mut self) -> Option<PieceKey>
        ensures first { IsFirstFree SameSpan self.old.spans.board result }
        ensures there { IfSome result (λ key. is_some (piece_at key self.old.spans.board) ≡ true) }
        ensures same { self.new ≡ self.old }
    {
        self.spans.first_free()
    }

    /// A window of a manager with all that its check asks: its present beats, the present regions of its manager, and what it is
    /// to start from. AllocError where memory is refused.
    pub fn span_task(&self, alloc: Global, key: PieceKey) -> Result<SpanTask, AllocError>
        requires { is_some (piece_at key self.now.spans.board) ≡ true }
        ensures { IfOk result (IsTaskFor self.now.spans key) }
    {
        self.spans.task(alloc, key)
    }

    /// The live ticket of a window of a manager.
    pub fn live_span(&self, key: PieceKey) -> Option<u64>
        ensures { result ≡ live_of (piece_at key self.now.spans.board) }
    {
        self.spans.live(key)
    }

    /// A window of a manager gets a live ticket, or loses the one that it has.
    pub fn set_live_span(&mut self, key: PieceKey, live: Option<u64>)
        ensures { self.new ≡ record self.old {
          spans = record self.old.spans {
            board = with_pieces self.old.spans.board (change key (with_live live) self.old.spans.board.pieces);
          };
        } }
    {
        self.spans.set_live(key, live);
    }

    /// Whether what a window's task was made of is what stands: the links and the block, the regions of its manager, and the beats
    /// of the window. It takes no memory.
    pub fn is_current(&self, task: &SpanTask) -> bool
        requires { is_some (piece_at (key_of task.now.owner task.now.window) self.now.spans.board) ≡ true }
        ensures { Decides result (StandsIn (standing self.now.spans) task.now) }
    {
        self.spans.is_current(task)
    }

    /// A window of a manager that was out comes back with the pass of its task, and what that was made of stands: where the window
    /// is wanted it gets the result. Its live ticket ends. It takes no memory.
    pub fn hand_in_span(&mut self, task: &SpanTask, stored: Stored<SpanState, Rows>)
        requires there { is_some (piece_at (key_of task.now.owner task.now.window) self.old.spans.board) ≡ true }
        requires current { StandsIn (standing self.old.spans) task.now }
        requires pass { IsPassOf task.now (pass_of stored) }
        ensures spans { HandsIn self.old.spans (key_of task.now.owner task.now.window) (pass_of stored) self.new.spans }
        ensures rest { self.new.board ≡ self.old.board }
    {
        self.spans.hand_in(task, stored);
    }
}
