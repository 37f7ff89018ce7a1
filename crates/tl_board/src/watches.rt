//! The windows of managers and of monitors after a log of edits.

ghost use Rattle.std.specs.Prelude.{◌≡◌, ◌<◌, [], length, IfOk, IfSome, is_some, true};
ghost use Rattle.std.specs.Bool.{Decides};
ghost use Rattle.tl_edits.specs.Inputs.{watch_at};
ghost use Rattle.tl_pieces.specs.Pieces.{piece_at, IsBoard, IsSettled, IsFirstWanted, HasTrueEntry};
ghost use Rattle.tl_check.specs.States.{SameSpan};
ghost use Rattle.tl_board.specs.Tally.{SameTally};
ghost use Rattle.tl_board.specs.Watches.{AreWatches};
ghost use Rattle.tl_board.specs.Spans.{standing};
ghost use Rattle.tl_capture.specs.Present.{IsPresent};

use crate::tally::Tally;
use crate::windows::known;
use crate::{Rows, Spans};
use std::alloc::{AllocError, Global};
use std::marker::Model;
use tl_capture::Present;
use tl_pieces::{PieceKey, PieceMap};
use tl_topology::Topo;

/// A log of edits with the windows of all managers, and the windows of the monitors that are attached: of each window in which a
/// monitor's link has a beat its result, from when it was checked until an edit touches it. The owner of a monitor's windows is
/// its number.
#[derive(Drop)]
pub struct Watches {
    pub(crate) spans: Spans,
    pub(crate) pieces: PieceMap<Tally, Rows>,
}

impl Model for Watches {
    ghost use Rattle.std.specs.Coded.{codes};
    ghost use Rattle.tl_check.specs.contracts.state.SpanState as state;
    ghost use Rattle.tl_board.specs.Spans.{standing};
    ghost use Rattle.tl_board.specs.Watches.{WatchesData, AreWatches};

    ghost Value = { WatchesData };

    ghost coded = { Prim.hlevel (codes, state.the_row.coded) };

    ghost view = { λ w. record { spans = w.spans; board = w.pieces } };

    ghost invariant = { λ w. AreWatches (standing w.spans) w.pieces };
}

impl Watches {
    /// A log without edits, and so neither windows nor monitors. AllocError where memory is refused.
    pub fn new(alloc: Global, topo: Topo) -> Result<Watches, AllocError>
        ensures log { IfOk result (λ watches. watches.spans.log ≡ record { topo = topo; edits = [] }) }
        ensures spans { IfOk result (λ watches. watches.spans.board.pieces ≡ []) }
        ensures board { IfOk result (λ watches. watches.board ≡ record { openings = []; pieces = [] }) }
    {
        Ok(Watches {
            spans: Spans::new(alloc, topo)?,
            pieces: PieceMap::new(alloc),
        })
    }

    /// The log with the windows of managers.
    pub fn spans(&self) -> &Spans
        ensures exact { result.now ≡ self.now.spans }
        ensures kept { AreWatches (standing self.now.spans) self.now.board }
        // The keys rise, and each is of an owner; so do the owners.
        ensures board { IsBoard self.now.board }
        ensures few { length self.now.board.pieces < 18446744073709551616 }
    {
        // The keys rise.
        let _ = self.pieces.len();
        &self.spans
    }

    /// The windows of monitors. Their keys rise, and each is of a monitor that is attached.
    pub(crate) fn pieces(&self) -> &PieceMap<Tally, Rows>
        ensures exact { result.now ≡ self.now.board }
        ensures kept { AreWatches (standing self.now.spans) self.now.board }
        ensures board { IsBoard self.now.board }
    {
        known(&self.pieces)
    }

    /// The fragments that stand. They are such as may stand beside each other.
    pub fn present(&self) -> &Present
        ensures exact { result.now ≡ (standing self.now.spans).fragments }
        ensures kept { IsPresent (standing self.now.spans).fragments }
    {
        self.spans().present()
    }

    /// Whether every window, of managers and of monitors, has a result, and each begins with what the one before it ended with.
    /// It walks nothing.
    pub fn settled(&self) -> bool
        ensures { Decides result (IsSettled SameSpan self.now.spans.board × IsSettled SameTally self.now.board) }
    {
        self.spans.settled() && self.pieces.settled()
    }

    /// The first window of a monitor that is wanted.
    pub fn next_watch(&mut self) -> Option<PieceKey>
        ensures first { IsFirstWanted SameTally self.old.board result }
        ensures there { IfSome result (λ key. is_some (piece_at key self.old.board) ≡ true) }
        ensures attached { IfSome result (λ key. is_some (watch_at key.owner (standing self.old.spans).monitors) ≡ true) }
        ensures entry { IfSome result (HasTrueEntry SameTally self.old.board) }
        ensures same { self.new ≡ self.old }
    {
        // The keys rise, and each is of a monitor that is attached.
        let _ = self.pieces.len();
        self.pieces.first_wanted()
    }
}
