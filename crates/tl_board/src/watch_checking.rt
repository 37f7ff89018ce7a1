//! The checks of windows, and the rows of all.

ghost use Rattle.std.specs.Prelude.{◌≡◌, ◌<◌, ◌⊎◌, IfOk, OnOk, OnErr, Some, is_some, length, true};
ghost use Rattle.std.specs.Arc.{arc_value};
ghost use Rattle.std.specs.List.{All};
ghost use Rattle.tl_definitions.specs.Report.{IsReport};
ghost use Rattle.tl_edits.specs.Inputs.{watch_at};
ghost use Rattle.tl_pieces.specs.Marks.{pass_of};
ghost use Rattle.tl_pieces.specs.Pieces.{piece_at, entry_for, IsSettled};
ghost use Rattle.tl_check.specs.Captured.{captures_after};
ghost use Rattle.tl_check.specs.States.{SameSpan};
ghost use Rattle.tl_board.specs.Spans.{standing};
ghost use Rattle.tl_board.specs.Tally.{SameTally};
ghost use Rattle.tl_board.specs.Watches.{IsOfWatch, IsAmidWindow, ChecksWatch};

use crate::tally::Tally;
use crate::watches::Watches;
use crate::windows::known;
use crate::{Rows, gathered, keep};
use std::alloc::{AllocError, Global};
use tl_beats::Row;
use tl_check::sort_rows;
use tl_monitor::{Monitor, Watched};
use tl_pieces::{PieceKey, Stored};

impl Watches {
    /// Checks a window of a monitor, which is given, from what the windows of the monitor before it leave; the window's ticket
    /// ends. AllocError where memory is refused: then no window has changed. The monitor keeps its watch, and its tally is that
    /// after the window's beats, or, where memory is refused, after some first of them, or was not touched.
    pub fn check_watch<M: Monitor>(
        &mut self,
        alloc: Global,
        key: PieceKey,
        monitor: &mut Watched<M>,
    ) -> Result<(), AllocError>
        requires there { is_some (piece_at key self.old.board) ≡ true }
        requires watch { watch_at key.owner (standing self.old.spans).monitors ≡ Some monitor.old.watch }
        ensures ok { OnOk result (ChecksWatch self.old key self.new) }
        ensures watch { monitor.new.watch ≡ monitor.old.watch }
        ensures closed_at { monitor.new.closed_at ≡ monitor.old.closed_at }
        ensures tally { OnOk result (IsAmidWindow self.old key monitor.old.watch monitor.new.tally) }
        ensures left { OnErr result ((monitor.new.tally ≡ monitor.old.tally) ⊎ IsAmidWindow self.old key monitor.old.watch monitor.new.tally) }
        ensures err { OnErr result (self.new ≡ self.old) }
    {
        let stored = self.judged(alloc, key, monitor)?;
        keep(&mut self.pieces, key, stored);
        Ok(())
    }

    /// The result of a window of a monitor from what it is to start from.
    fn judged<M: Monitor>(
        &self,
        alloc: Global,
        key: PieceKey,
        monitor: &mut Watched<M>,
    ) -> Result<Stored<Tally, Rows>, AllocError>
        requires there { is_some (piece_at key self.now.board) ≡ true }
        requires watch { watch_at key.owner (standing self.now.spans).monitors ≡ Some monitor.old.watch }
        ensures of_window { IfOk result (λ stored. IsOfWatch (standing self.now.spans) key.owner key.window (pass_of stored)) }
        ensures entry { IfOk result (λ stored. entry_for key self.now.board ≡ Some (arc_value stored.entry)) }
        ensures watch { monitor.new.watch ≡ monitor.old.watch }
        ensures closed_at { monitor.new.closed_at ≡ monitor.old.closed_at }
        ensures tally { OnOk result (IsAmidWindow self.now key monitor.old.watch monitor.new.tally) }
        ensures left { OnErr result ((monitor.new.tally ≡ monitor.old.tally) ⊎ IsAmidWindow self.now key monitor.old.watch monitor.new.tally) }
    {
        let window = self.watch_window(alloc, key)?;
        let stored = window.check(alloc, monitor)?;
        Ok(stored)
    }

    /// The report of what stands: the rows of all windows, of managers and of monitors. AllocError where memory is refused.
    pub fn rows(&self, alloc: Global) -> Result<Vec<Row>, AllocError>
        requires spans { IsSettled SameSpan self.now.spans.board }
        requires board { IsSettled SameTally self.now.board }
        ensures report { IfOk result (λ rows. IsReport (captures_after (standing self.now.spans)) rows.items) }
        ensures links { IfOk result (λ rows. All (λ row. row.link < length self.now.spans.log.topo.links) rows.items) }
    {
        let mut rows = self.spans.rows(alloc)?;
        let flagged = gathered(alloc, known(&self.pieces))?;
        rows.extend_from_slice(&flagged)?;
        Ok(sort_rows(rows))
    }
}
