//! Reports in JSON, read from their lines.

ghost use Rattle.std.specs.Prelude.{◌≡◌, IfOk};
ghost use Rattle.std.specs.List.{All};
ghost use Rattle.tl_text.specs.Words.{lines_of};
ghost use Rattle.tl_formats.specs.JsonReports.{pieces, lines_text, IsOfItsLine};

use crate::json_row::{JsonRow, read_row};
use crate::report_fault::ReportFault;
use crate::report_line::{HasRows, push_after};
use std::alloc::{AllocError, Global};
use tl_text::line;
use tl_topology::Topo;

/// A report as its lines of JSON tell it.
#[derive(Drop)]
pub struct JsonReport<'a> {
    /// Its rows, in their order.
    pub rows: Vec<JsonRow<'a>>,
}

impl<'a> HasRows for JsonReport<'a> {
    type Row = JsonRow<'a>;

    ghost lines = { λ report. report.rows.items };

    fn rows(&self) -> &[JsonRow<'a>] {
        &self.rows
    }
}

/// The report that a whole text is: what `once --format json` writes of some managers. The first fault in the order of each line in turn,
/// its members, its link and its place after the row before, and of what stands after the last newline; Memory where memory is refused.
pub(crate) fn read_json_report<'a>(
    alloc: Global,
    topo: &Topo,
    text: &'a [u8],
) -> Result<JsonReport<'a>, ReportFault>
    ensures lines { IfOk result (λ report. lines_of text.now ≡ pieces report.rows.items) }
    ensures told { IfOk result (λ report. All (IsOfItsLine topo.now) report.rows.items) }
{
    let mut rows = Vec::new(alloc);
    let mut rest = text;
    let mut number = 1u64;
    while let Some((next, after)) = line(rest) {
        let row = read_row(alloc, topo, next, number)?;
        push_after(&mut rows, row, number)?;
        rest = after;
        number = number.saturating_add(1);
    }
    if !rest.is_empty() {
        return Err(ReportFault::CutShort(number));
    }
    Ok(JsonReport { rows })
}

/// The lines of rows, as they stood. AllocError where memory is refused.
pub(crate) fn lines_of_rows(alloc: Global, rows: &[JsonRow<'_>]) -> Result<Vec<u8>, AllocError>
    ensures { IfOk result (λ text. text.items ≡ lines_text rows.now) }
{
    let mut text = Vec::new(alloc);
    for row in rows {
        text.extend_from_slice(row.text)?;
        text.push(b'\n')?;
    }
    Ok(text)
}
