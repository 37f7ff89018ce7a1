//! How the rows of a stream are written.

ghost use Rattle.std.specs.Prelude.{◌<◌, Bool, [], false, IfOk, length, string_bytes};
ghost use Rattle.std.specs.List.{All, flat_map};
ghost use Rattle.tl_check.specs.Notes.{Tells};
ghost use Rattle.tl_check.specs.Output.{row_text};

use crate::report::listed;
use std::alloc::{AllocError, Global};
use tl_beats::{FragmentFault, Row};
use tl_capture::Present;
use tl_topology::Topo;

/// Beats of a manager that became complete.
#[derive(Clone, Copy)]
pub struct Completed<'a> {
    /// The topology.
    pub topo: &'a Topo,
    /// The fragments that have them, and perhaps others.
    pub kept: &'a Present,
    /// The number of the manager.
    pub manager: u16,
    /// The last cycle that is complete on its links.
    pub to: u64,
}

/// How the rows of a stream are written: their lines alone, or with notes.
pub trait RowForm {
    /// Whether there are notes.
    ghost noted: { Bool };

    /// Whether notes tell of the beats of rows, whose fragments are then kept until their rows are written.
    fn has_beats(&self) -> bool;

    /// Takes note of beats that became complete, of which some break rules by these rows. Their text is asked for next. AllocError
    /// where memory is refused.
    fn pass(
        &mut self,
        alloc: Global,
        completed: &Completed<'_>,
        rows: &[Row],
    ) -> Result<(), AllocError>;

    /// The text of rows of a topology that has their links. AllocError where memory is refused.
    fn rows(
        &mut self,
        alloc: Global,
        topo: &Topo,
        kept: &Present,
        rows: &[Row],
    ) -> Result<String, AllocError>
        requires { All (λ row. row.link < length topo.now.links) rows.now }
        ensures { IfOk result (λ text. Tells noted (flat_map (row_text topo.now) rows.now) (string_bytes text)) };

    /// Notes after the line of a stop, at which the text of an input begins with no fragment; none where memory is refused.
    fn stop_notes(&self, alloc: Global, fault: FragmentFault, text: &[u8]) -> String
        ensures { Tells noted [] (string_bytes result) };
}

/// The lines of rows alone.
#[derive(Clone, Copy)]
pub struct PlainRows;

impl RowForm for PlainRows {
    ghost noted = { false };

    fn has_beats(&self) -> bool {
        false
    }

    fn pass(
        &mut self,
        _alloc: Global,
        _completed: &Completed<'_>,
        _rows: &[Row],
    ) -> Result<(), AllocError> {
        Ok(())
    }

    fn rows(
        &mut self,
        alloc: Global,
        topo: &Topo,
        _kept: &Present,
        rows: &[Row],
    ) -> Result<String, AllocError> {
        listed(alloc, topo, String::new(alloc), rows)
    }

    fn stop_notes(&self, alloc: Global, _fault: FragmentFault, _text: &[u8]) -> String {
        String::new(alloc)
    }
}
