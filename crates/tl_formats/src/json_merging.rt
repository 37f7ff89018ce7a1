//! One report of reports in JSON of different managers.

ghost use Rattle.std.specs.Prelude.{◌≡◌, List, IfOk};
ghost use Rattle.std.specs.List.{flat_map};
ghost use Rattle.tl_formats.specs.JsonReports.{json_link, json_rows, lines_text, AreJson, AreOfTheirLines, MergesJson};
ghost use Rattle.tl_formats.specs.Merging.{IsByLink};
ghost use Rattle.tl_formats.specs.declared.json_row.JsonRow.{JsonRow as AnyRow};

use crate::by_link::{all_rows, check_apart, sorted_by_link};
use crate::json_report::{JsonReport, lines_of_rows, read_json_report};
use crate::merged_text::{MergedText, at_place};
use crate::report_fault::{MergeFault, TextsFault};
use std::alloc::Global;
use tl_topology::Topo;

/// The reports that texts are.
fn read_all<'a>(
    alloc: Global,
    topo: &Topo,
    texts: &'a [Vec<u8>],
) -> Result<Vec<JsonReport<'a>>, TextsFault>
    ensures read { IfOk result (λ reports. AreJson texts.now reports.items) }
    ensures told { IfOk result (λ reports. AreOfTheirLines topo.now reports.items) }
{
    let mut reports = Vec::new(alloc);
    for place in 0..texts.len() {
        let report = at_place(place, read_json_report(alloc, topo, &texts[place]))?;
        reports.push(report)?;
    }
    Ok(reports)
}

/// The merge of reports.
fn merged(alloc: Global, topo: &Topo, reports: &[JsonReport<'_>]) -> Result<MergedText, MergeFault>
    ensures { IfOk result (λ made. (merged : List AnyRow)
        × IsByLink json_link (flat_map json_rows reports.now) merged × (made.text.items ≡ lines_text merged)) }
{
    check_apart(alloc, topo, reports)?;
    let rows = sorted_by_link(all_rows(alloc, reports)?)?;
    Ok(MergedText {
        text: lines_of_rows(alloc, &rows)?,
        rows: rows.len() as u64,
    })
}

/// The merge of reports that are JSON.
pub(crate) fn merge_json(
    alloc: Global,
    topo: &Topo,
    texts: &[Vec<u8>],
) -> Result<MergedText, TextsFault>
    ensures { IfOk result (λ made. MergesJson topo.now texts.now made.text.items) }
{
    let reports = read_all(alloc, topo, texts)?;
    let made = merged(alloc, topo, &reports)?;
    Ok(made)
}
