//! Windows that go out to be checked, and come back.

ghost use Rattle.std.specs.Prelude.{◌≡◌, IfOk, IfSome, is_some, true};
ghost use Rattle.std.specs.Bool.{Decides};
ghost use Rattle.tl_pieces.specs.Keys.{change};
ghost use Rattle.tl_pieces.specs.Marks.{pass_of};
ghost use Rattle.tl_pieces.specs.Pieces.{piece_at, live_of, with_live, with_pieces, IsFirstFree};
ghost use Rattle.tl_check.specs.States.{SameSpan};
ghost use Rattle.tl_board.specs.Spans.{standing};
ghost use Rattle.tl_board.specs.Tickets.{IsTaskFor, StandsIn, HandsIn};
ghost use Rattle.tl_board.specs.Windows.{key_of};
ghost use Rattle.tl_board.specs.Tasks.{IsPassOf};

use crate::spans::Spans;
use crate::windows::keep;
use crate::{Rows, SpanTask};
use std::alloc::{AllocError, Global};
use tl_check::SpanState;
use tl_pieces::{PieceKey, Stored};

impl Spans {
    /// The first window that is wanted and has no live ticket.
    pub fn first_free(&mut self) -> Option<PieceKey>
        ensures first { IsFirstFree SameSpan self.old.board result }
        ensures there { IfSome result (λ key. is_some (piece_at key self.old.board) ≡ true) }
        ensures same { self.new ≡ self.old }
    {
        self.pieces.first_free()
    }

    /// A window with all that its check asks: its present beats, the present regions of its manager, and what it is to start from,
    /// the nearest exit before it, or what no beats leave. AllocError where memory is refused.
    pub fn task(&self, alloc: Global, key: PieceKey) -> Result<SpanTask, AllocError>
        requires { is_some (piece_at key self.now.board) ≡ true }
        ensures { IfOk result (IsTaskFor self.now key) }
    {
        let inputs = self.log().inputs();
        let topo = inputs.shared_topo();
        // So many that the number of one has 16 bits.
        let _ = topo.manager_count();
        let manager = key.owner as u16;
        let regions = &inputs.regions()[usize::from(manager)];
        let entry = self.pieces.entry_for(key).unwrap();
        let present = inputs.present();
        SpanTask::new(alloc, topo, manager, regions, present, key.window, entry)
    }

    /// The live ticket of a window.
    pub fn live(&self, key: PieceKey) -> Option<u64>
        ensures { result ≡ live_of (piece_at key self.now.board) }
    {
        self.pieces.live(key)
    }

    /// A window gets a live ticket, or loses the one that it has.
    pub fn set_live(&mut self, key: PieceKey, live: Option<u64>)
        ensures { self.new ≡ record self.old { board = with_pieces self.old.board (change key (with_live live) self.old.board.pieces) } }
    {
        self.pieces.set_live(key, live);
    }

    /// Whether what a window's task was made of is what stands: the links and the block, the regions of its manager, and the beats
    /// of the window. It takes no memory.
    pub fn is_current(&self, task: &SpanTask) -> bool
        requires { is_some (piece_at (key_of task.now.owner task.now.window) self.now.board) ≡ true }
        ensures { Decides result (StandsIn (standing self.now) task.now) }
    {
        let inputs = self.log().inputs();
        let regions = &inputs.regions()[usize::from(task.manager())];
        task.is_current(inputs.topo(), regions, inputs.present())
    }

    /// A window that was out comes back with the pass of its task, and what that was made of stands: where the window is wanted it
    /// gets the result. Its live ticket ends. It takes no memory.
    pub fn hand_in(&mut self, task: &SpanTask, stored: Stored<SpanState, Rows>)
        requires there { is_some (piece_at (key_of task.now.owner task.now.window) self.old.board) ≡ true }
        requires current { StandsIn (standing self.old) task.now }
        requires pass { IsPassOf task.now (pass_of stored) }
        ensures { HandsIn self.old (key_of task.now.owner task.now.window) (pass_of stored) self.new }
    {
        let key = window_key(task);
        if self.pieces.is_wanted(key) {
            keep(&mut self.pieces, key, stored);
        } else {
            self.pieces.set_live(key, None);
        }
    }
}

/// The key of a task's window.
pub fn window_key(task: &SpanTask) -> PieceKey
    ensures { result ≡ key_of task.now.owner task.now.window }
{
    PieceKey {
        owner: u32::from(task.manager()),
        window: task.window(),
    }
}
