//! The windows of all managers after a log of edits.

ghost use Rattle.std.specs.Prelude.{◌≡◌, ◌<◌, [], length, IfOk, IfSome, OnErr, Some, is_some, true};
ghost use Rattle.std.specs.Bool.{Decides};
ghost use Rattle.tl_pieces.specs.Keys.{change};
ghost use Rattle.tl_pieces.specs.Marks.{pass_of};
ghost use Rattle.tl_pieces.specs.Pieces.{piece_at, entry_for, with_pieces, with_result, IsBoard, IsSettled, IsFirstWanted, HasTrueEntry};
ghost use Rattle.tl_capture.specs.Present.{IsPresent};
ghost use Rattle.tl_check.specs.Captured.{areas_at};
ghost use Rattle.tl_check.specs.Found.{AreFound};
ghost use Rattle.tl_definitions.specs.Captures.{captures_of};
ghost use Rattle.tl_check.specs.States.{SameSpan};
ghost use Rattle.tl_board.specs.Rows.{all_rows};
ghost use Rattle.tl_board.specs.Spans.{standing, HasManagers, IsSound};

use crate::Rows;
use crate::present::present_after;
use crate::windows::known;
use std::alloc::{AllocError, Global};
use std::marker::Model;
use std::sync::Arc;
use tl_beats::Row;
use tl_capture::Present;
use tl_check::SpanState;
use tl_edits::Log;
use tl_pieces::PieceMap;
use tl_same::Same;
use tl_topology::Topo;

/// A log of edits, and the windows of all managers: of each window in which a manager has a beat its result, from when it was
/// checked until an edit touches it.
#[derive(Drop)]
pub struct Spans {
    pub(crate) log: Log,
    pub(crate) pieces: PieceMap<SpanState, Rows>,
}

impl Model for Spans {
    ghost use Rattle.std.specs.Coded.{codes};
    ghost use Rattle.tl_check.specs.contracts.state.SpanState as state;
    ghost use Rattle.tl_board.specs.Spans.{SpansData, IsSound};

    ghost Value = { SpansData };

    ghost coded = { Prim.hlevel (codes, state.the_row.coded) };

    ghost view = { λ s. record { log = s.log; board = s.pieces } };

    ghost invariant = { λ s. IsSound (record { log = s.log; board = s.pieces }) };
}

/// The managers of a topology, each with the state of no beats.
fn opened(alloc: Global, topo: &Topo) -> Result<PieceMap<SpanState, Rows>, AllocError>
    ensures pieces { IfOk result (λ map. map.pieces ≡ []) }
    ensures managers { IfOk result (HasManagers topo.now (length topo.now.managers)) }
{
    let mut map = PieceMap::new(alloc);
    for manager in 0..topo.manager_count() {
        let state = SpanState::opening(alloc, topo, manager as u16)?;
        map.add_owner(manager as u32, Arc::new(alloc, state)?)?;
    }
    Ok(map)
}

impl Spans {
    /// A log without edits, and so no windows. AllocError where memory is refused.
    pub fn new(alloc: Global, topo: Topo) -> Result<Spans, AllocError>
        ensures log { IfOk result (λ spans. spans.log ≡ record { topo = topo; edits = [] }) }
        ensures pieces { IfOk result (λ spans. spans.board.pieces ≡ []) }
    {
        let pieces = opened(alloc, &topo)?;
        Ok(Spans {
            log: Log::new(alloc, topo)?,
            pieces,
        })
    }

    /// The log.
    pub fn log(&self) -> &Log
        ensures exact { result.now ≡ self.now.log }
        ensures kept { IsSound self.now }
        // The keys of windows rise, and each is of a manager; so do the managers.
        ensures board { IsBoard self.now.board }
    {
        // The keys rise.
        let _ = self.pieces.len();
        &self.log
    }

    /// The fragments that stand. They are such as may stand beside each other.
    pub(crate) fn present(&self) -> &Present
        ensures exact { result.now ≡ (standing self.now).fragments }
        ensures kept { IsPresent (standing self.now).fragments }
        ensures topo { (standing self.now).topo ≡ self.now.log.topo }
        ensures sound { IsSound self.now }
        ensures board { IsBoard self.now.board }
    {
        present_after(self.log())
    }

    /// The log alone.
    pub fn into_log(self) -> Log
        ensures { result ≡ self.log }
    {
        let Spans { log, pieces: _ } = self;
        log
    }

    /// Whether every window has a result, and each begins with what the one before it ended with. It walks nothing.
    pub fn settled(&self) -> bool
        ensures { Decides result (IsSettled SameSpan self.now.board) }
    {
        self.pieces.settled()
    }

    /// The rows of all windows: those that the rules of managers find in what stands. AllocError where memory is refused.
    pub fn rows(&self, alloc: Global) -> Result<Vec<Row>, AllocError>
        requires { IsSettled SameSpan self.now.board }
        ensures found { IfOk result (λ rows. AreFound (captures_of self.now.log.topo (areas_at (standing self.now).regions) (standing self.now).fragments) rows.items) }
        ensures present { IsPresent (standing self.now).fragments }
        ensures topo { (standing self.now).topo ≡ self.now.log.topo }
    {
        // The fragments may stand beside each other.
        let _ = self.present();
        let rows = gathered(alloc, known(&self.pieces))?;
        Ok(rows)
    }
}

/// The rows of all pieces, one piece after the other. AllocError where memory is refused.
pub fn gathered<S: Same + Drop>(
    alloc: Global,
    pieces: &PieceMap<S, Rows>,
) -> Result<Vec<Row>, AllocError>
    ensures { IfOk result (λ rows. rows.items ≡ all_rows pieces.now.pieces) }
{
    let mut rows = Vec::new(alloc);
    for piece in pieces.iter() {
        // Most have none.
        if let Some(stored) = piece.result
            && !stored.rows.is_empty()
        {
            rows.extend_from_slice(stored.rows.as_slice())?;
        }
    }
    Ok(rows)
}
