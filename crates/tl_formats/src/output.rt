//! The rows that are left, in the format that is wanted.

ghost use Rattle.std.specs.Prelude.{◌≡◌, ◌<◌, filter, length, IfOk, string_bytes};
ghost use Rattle.std.specs.List.{All};
ghost use Rattle.tl_formats.specs.Picks.{is_left};
ghost use Rattle.tl_formats.specs.Printed.{text_under, IsPrinted};

use crate::Pick;
use crate::html::html_text;
use crate::json::json_text;
use crate::junit::junit_text;
use std::alloc::{AllocError, Global};
use tl_beats::Row;
use tl_capture::Present;
use tl_check::{Report, audit_text, report_text};
use tl_edits::Inputs;
use tl_rows::Format;
use tl_show::{shown_audit, shown_report};
use tl_topology::Topo;

/// The first line of a text of rows.
#[derive(Clone, Copy, Debug, PartialEq, Eq)]
pub enum Title {
    /// That of a report.
    Report {
        /// The version of the report, from 1.
        version: u64,
        /// How many edits it speaks of.
        edit: u64,
    },
    /// That of an audit.
    Audit {
        /// How many edits it speaks of.
        edit: u64,
    },
}

/// Rows that are written.
#[derive(Drop)]
pub struct Printed {
    /// Their text.
    pub text: String,
    /// How many they are.
    pub rows: u64,
}

/// Rows as text.
fn plain_text(
    alloc: Global,
    title: Title,
    topo: &Topo,
    rows: Vec<Row>,
) -> Result<String, AllocError>
    requires { All (λ row. row.link < length topo.now.links) rows.items }
    ensures { IfOk result (λ text. string_bytes text ≡ text_under topo.now title rows.items) }
{
    match title {
        Title::Report { version, edit } => {
            let report = Report::new(alloc, version, edit, rows)?;
            report_text(alloc, topo, &report)
        }
        Title::Audit { edit } => audit_text(alloc, topo, edit, &rows),
    }
}

/// Rows as text, each with its lines.
fn shown_text(
    alloc: Global,
    title: Title,
    topo: &Topo,
    present: &Present,
    rows: Vec<Row>,
) -> Result<String, AllocError>
    requires { All (λ row. row.link < length topo.now.links) rows.items }
{
    match title {
        Title::Report { version, edit } => {
            let report = Report::new(alloc, version, edit, rows)?;
            shown_report(alloc, topo, present, &report)
        }
        Title::Audit { edit } => shown_audit(alloc, topo, present, edit, &rows),
    }
}

/// Rows in a format.
fn text_of(
    alloc: Global,
    format: Format,
    title: Title,
    pick: &Pick,
    inputs: &Inputs,
    rows: Vec<Row>,
) -> Result<String, AllocError>
    requires { All (λ row. row.link < length inputs.now.topo.links) rows.items }
    ensures { IfOk result (λ text. IsPrinted format inputs.now.topo title rows.items (string_bytes text)) }
{
    let topo = inputs.topo();
    match format {
        Format::Text => plain_text(alloc, title, topo, rows),
        Format::Shown => shown_text(alloc, title, topo, inputs.present(), rows),
        Format::Json => json_text(alloc, topo, inputs.present(), &rows),
        Format::Junit => junit_text(alloc, topo, inputs.present(), &rows, pick),
        Format::Html => html_text(alloc, title, topo, inputs.present(), &rows),
    }
}

/// Those of the rows that a pick leaves, in a format, under their first line where they are text; the rows are of what stands.
/// AllocError where memory is refused.
pub fn print_rows(
    alloc: Global,
    format: Format,
    title: Title,
    pick: &Pick,
    inputs: &Inputs,
    rows: &[Row],
) -> Result<Printed, AllocError>
    requires { All (λ row. row.link < length inputs.now.topo.links) rows.now }
    ensures text { IfOk result (λ printed. IsPrinted format inputs.now.topo title (filter (is_left pick.now) rows.now) (string_bytes printed.text)) }
    ensures rows { IfOk result (λ printed. printed.rows ≡ length (filter (is_left pick.now) rows.now)) }
{
    let left = pick.left(alloc, rows)?;
    let count = left.len() as u64;
    let text = text_of(alloc, format, title, pick, inputs, left)?;
    Ok(Printed { text, rows: count })
}
