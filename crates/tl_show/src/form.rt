//! Reports that are shown, and notes.

ghost use Rattle.std.specs.Prelude.{◌≡◌, [], true, IfOk, string_bytes};
ghost use Rattle.tl_check.specs.Notes.{is_unbroken, IsNoted};

use crate::shown::{shown_audit, shown_report};
use std::alloc::{AllocError, Global};
use tl_beats::Row;
use tl_check::{Form, Report};
use tl_edits::Inputs;

/// Rows with what makes them so, between the lines of a report.
pub struct Shown;

impl Form for Shown {
    ghost noted = { true };

    fn report(
        &self,
        alloc: Global,
        inputs: &Inputs,
        report: &Report,
    ) -> Result<String, AllocError> {
        shown_report(alloc, inputs.topo(), inputs.present(), report)
    }

    fn audit(
        &self,
        alloc: Global,
        inputs: &Inputs,
        edit: u64,
        rows: &[Row],
    ) -> Result<String, AllocError> {
        shown_audit(alloc, inputs.topo(), inputs.present(), edit, rows)
    }
}

/// A note with this text.
pub fn note(alloc: Global, text: &str) -> Result<String, AllocError>
    requires { is_unbroken text.now ≡ true }
    ensures { IfOk result (λ note. IsNoted [] (string_bytes note)) }
{
    format!(in alloc; "  {text}\n")
}
