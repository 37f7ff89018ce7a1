//! Windows of monitors that go out with their monitor to be checked, and come back.

ghost use Rattle.std.specs.Prelude.{◌≡◌, IfOk, IfSome, is_some, true};
ghost use Rattle.std.specs.Bool.{Decides};
ghost use Rattle.tl_edits.specs.Inputs.{watch_at};
ghost use Rattle.tl_pieces.specs.Keys.{change};
ghost use Rattle.tl_pieces.specs.Marks.{pass_of};
ghost use Rattle.tl_pieces.specs.Pieces.{piece_at, live_of, with_live, with_pieces, IsFirstFree, IsNextFree, IsNextWanted};
ghost use Rattle.tl_board.specs.Spans.{standing};
ghost use Rattle.tl_board.specs.Windows.{key_of};
ghost use Rattle.tl_board.specs.Outside.{IsWatchTaskFor, StandsInWatch, HandsInWatch};
ghost use Rattle.tl_board.specs.Tally.{SameTally};
ghost use Rattle.tl_board.specs.WatchTasks.{IsWatchPassOf};

use crate::tally::Tally;
use crate::watch_task::{WatchTask, WatchWindow};
use crate::watches::Watches;
use crate::{Rows, keep};
use std::alloc::{AllocError, Global};
use tl_monitor::Monitor;
use tl_pieces::{PieceKey, Stored};

impl Watches {
    /// The first window of a monitor that is wanted and has no live ticket.
    pub fn first_free_watch(&mut self) -> Option<PieceKey>
        ensures first { IsFirstFree SameTally self.old.board result }
        ensures there { IfSome result (λ key. is_some (piece_at key self.old.board) ≡ true) }
        ensures attached { IfSome result (λ key. is_some (watch_at key.owner (standing self.old.spans).monitors) ≡ true) }
        ensures same { self.new ≡ self.old }
    {
        // The keys rise, and each is of a monitor that is attached.
        let _ = self.pieces.len();
        self.pieces.first_free()
    }

    /// The first window of a monitor from a key on that is wanted and has no live ticket.
    pub fn next_free_watch(&self, from: PieceKey) -> Option<PieceKey>
        ensures next { IsNextFree SameTally self.now.board from result }
        ensures there { IfSome result (λ key. is_some (piece_at key self.now.board) ≡ true) }
        ensures attached { IfSome result (λ key. is_some (watch_at key.owner (standing self.now.spans).monitors) ≡ true) }
    {
        self.pieces().next_free(from)
    }

    /// The first window of a monitor from a key on that is wanted.
    pub fn next_wanted_watch(&self, from: PieceKey) -> Option<PieceKey>
        ensures next { IsNextWanted SameTally self.now.board from result }
        ensures there { IfSome result (λ key. is_some (piece_at key self.now.board) ≡ true) }
        ensures attached { IfSome result (λ key. is_some (watch_at key.owner (standing self.now.spans).monitors) ≡ true) }
    {
        self.pieces().next_wanted(from)
    }

    /// A window of a monitor with all that its check asks but the monitor: the monitor's watch, its present beats, and what it is
    /// to start from, the nearest exit before it, or the tally 0. AllocError where memory is refused.
    pub fn watch_window(&self, alloc: Global, key: PieceKey) -> Result<WatchWindow, AllocError>
        requires { is_some (piece_at key self.now.board) ≡ true }
        ensures { IfOk result (IsWatchTaskFor self.now key) }
    {
        let inputs = self.spans().log().inputs();
        let watch = inputs.watch(key.owner).unwrap();
        let entry = self.pieces.entry_for(key).unwrap();
        let present = inputs.present();
        WatchWindow::new(
            alloc,
            key.owner,
            key.window,
            watch,
            inputs.topo(),
            present,
            entry,
        )
    }

    /// The live ticket of a window of a monitor.
    pub fn live_watch(&self, key: PieceKey) -> Option<u64>
        ensures { result ≡ live_of (piece_at key self.now.board) }
    {
        self.pieces.live(key)
    }

    /// A window of a monitor gets a live ticket, or loses the one that it has.
    pub fn set_live_watch(&mut self, key: PieceKey, live: Option<u64>)
        ensures { self.new ≡ record self.old { board = with_pieces self.old.board (change key (with_live live) self.old.board.pieces) } }
    {
        self.pieces.set_live(key, live);
    }

    /// Whether what a window's task was made of is what stands: the monitor of its number has the watch that its own holds, and its
    /// beats are those that lie in its window on the link that this names. It takes no memory.
    pub fn is_current_watch<M: Monitor>(&self, task: &WatchTask<M>) -> bool
        ensures { Decides result (StandsInWatch (standing self.now.spans) task.now) }
    {
        let inputs = self.spans.log().inputs();
        match inputs.watch(task.number()) {
            Some(watch) => task.is_current(inputs.topo(), inputs.present(), &watch),
            None => false,
        }
    }

    /// A window of a monitor that was out comes back with the pass of its task, and what that was made of stands: where the window
    /// is wanted it gets the result, else the one that it has stays. Its live ticket ends. It takes no memory.
    pub fn hand_in_watch<M: Monitor>(&mut self, task: &WatchTask<M>, stored: Stored<Tally, Rows>)
        requires there { is_some (piece_at (key_of task.now.number task.now.window) self.old.board) ≡ true }
        requires current { StandsInWatch (standing self.old.spans) task.now }
        requires pass { IsWatchPassOf task.now (pass_of stored) }
        ensures { HandsInWatch self.old (key_of task.now.number task.now.window) (pass_of stored) self.new }
    {
        let key = watch_key(task);
        if self.pieces.is_wanted(key) {
            keep(&mut self.pieces, key, stored);
        } else {
            self.pieces.set_live(key, None);
        }
    }
}

/// The key of a task's window.
pub fn watch_key<M: Monitor>(task: &WatchTask<M>) -> PieceKey
    ensures { result ≡ key_of task.now.number task.now.window }
{
    PieceKey {
        owner: task.number(),
        window: task.window(),
    }
}
