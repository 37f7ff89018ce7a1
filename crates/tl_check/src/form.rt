//! How reports are written.

ghost use Rattle.std.specs.Prelude.{◌<◌, Bool, false, IfOk, length, string_bytes};
ghost use Rattle.std.specs.List.{All};
ghost use Rattle.tl_check.specs.Notes.{Tells};
ghost use Rattle.tl_check.specs.Output.{report_bytes, audit_bytes};

use crate::report::{Report, audit_text, report_text};
use std::alloc::{AllocError, Global};
use tl_beats::Row;
use tl_edits::Inputs;

/// How reports are written: their lines alone, or with notes.
pub trait Form {
    /// Whether there are notes.
    ghost noted: { Bool };

    /// The text of a report of these inputs, whose topology has the links of its rows. AllocError where memory is refused.
    fn report(&self, alloc: Global, inputs: &Inputs, report: &Report) -> Result<String, AllocError>
        requires { All (λ row. row.link < length inputs.now.topo.links) report.now.rows }
        ensures { IfOk result (λ text. Tells noted (report_bytes inputs.now.topo report.now) (string_bytes text)) };

    /// The text of what checking these inputs anew finds, which are those of so many edits. AllocError where memory is refused.
    fn audit(
        &self,
        alloc: Global,
        inputs: &Inputs,
        edit: u64,
        rows: &[Row],
    ) -> Result<String, AllocError>
        requires { All (λ row. row.link < length inputs.now.topo.links) rows.now }
        ensures { IfOk result (λ text. Tells noted (audit_bytes inputs.now.topo edit rows.now) (string_bytes text)) };
}

/// The lines of a report alone.
pub struct Plain;

impl Form for Plain {
    ghost noted = { false };

    fn report(
        &self,
        alloc: Global,
        inputs: &Inputs,
        report: &Report,
    ) -> Result<String, AllocError> {
        report_text(alloc, inputs.topo(), report)
    }

    fn audit(
        &self,
        alloc: Global,
        inputs: &Inputs,
        edit: u64,
        rows: &[Row],
    ) -> Result<String, AllocError> {
        audit_text(alloc, inputs.topo(), edit, rows)
    }
}
