//! One report of the reports of different managers.

ghost use Rattle.std.specs.Prelude.{◌≡◌, ◌<◌, IfOk, IfSome, length};
ghost use Rattle.std.specs.List.{All, sum_by};
ghost use Rattle.tl_formats.specs.JsonReports.{is_json, has_json, AreMerged};
ghost use Rattle.tl_formats.specs.Merging.{edits_in, text_of, IsMerge, AreOnLinks, AreRead, Merges};
ghost use Rattle.tl_formats.specs.declared.report_reading.ReportText.{ReportText as AnyReport};

use crate::by_link::{all_rows, check_apart, sorted_by_link};
use crate::json_merging::merge_json;
use crate::merged_text::{MergedText, at_place};
use crate::report_fault::{MergeFault, TextsFault};
use crate::report_reading::{ReportText, read_report, text_of_report};
use std::alloc::Global;
use tl_topology::Topo;

/// How many edits all reports speak of; None where they are more than a number holds.
fn all_edits(reports: &[ReportText]) -> Option<u64>
    ensures { IfSome result (λ edits. edits ≡ sum_by edits_in reports.now) }
{
    let mut edits = 0u64;
    for report in reports {
        edits = edits.checked_add(report.edits)?;
    }
    Some(edits)
}

/// The report of all managers, of reports of different ones: their rows in the order of links, and as many edits as they have together.
fn merged(alloc: Global, topo: &Topo, reports: &[ReportText]) -> Result<ReportText, MergeFault>
    ensures merge { IfOk result (λ merged. IsMerge reports.now merged) }
    ensures links { AreOnLinks topo.now reports.now → IfOk result (λ merged. All (λ row. row.link < length topo.now.links) merged.rows.items) }
{
    check_apart(alloc, topo, reports)?;
    let Some(edits) = all_edits(reports) else {
        return Err(MergeFault::ManyEdits);
    };
    let rows = sorted_by_link(all_rows(alloc, reports)?)?;
    Ok(ReportText { edits, rows })
}

/// The reports that texts are.
fn read_all(alloc: Global, topo: &Topo, texts: &[Vec<u8>]) -> Result<Vec<ReportText>, TextsFault>
    ensures read { IfOk result (λ reports. AreRead topo.now texts.now reports.items) }
    ensures links { IfOk result (λ reports. AreOnLinks topo.now reports.items) }
{
    let mut reports = Vec::new(alloc);
    for place in 0..texts.len() {
        reports.push(at_place(place, read_report(alloc, topo, &texts[place]))?)?;
    }
    Ok(reports)
}

/// The merge of reports, as text.
fn text_of_merge(
    alloc: Global,
    topo: &Topo,
    reports: &[ReportText],
) -> Result<MergedText, MergeFault>
    requires { AreOnLinks topo.now reports.now }
    ensures { IfOk result (λ made. (merged : AnyReport) × IsMerge reports.now merged × (made.text.items ≡ text_of topo.now merged)) }
{
    let merged = merged(alloc, topo, reports)?;
    let text = text_of_report(alloc, topo, &merged)?;
    Ok(MergedText {
        text: text.into_bytes(),
        rows: merged.rows.len() as u64,
    })
}

/// The merge of reports that are text.
fn merge_plain(alloc: Global, topo: &Topo, texts: &[Vec<u8>]) -> Result<MergedText, TextsFault>
    ensures { IfOk result (λ made. Merges topo.now texts.now made.text.items) }
{
    let reports = read_all(alloc, topo, texts)?;
    let made = text_of_merge(alloc, topo, &reports)?;
    Ok(made)
}

/// Whether a report is JSON, by its first byte; one without a byte is JSON without rows.
fn is_json(text: &[u8]) -> bool
    ensures { result ≡ is_json text.now }
{
    match text {
        [] => true,
        [first, ..] => *first == b'{',
    }
}

/// Whether reports are JSON; refused where some are and others are not.
fn are_json(texts: &[Vec<u8>]) -> Result<bool, TextsFault>
    ensures { IfOk result (λ json. json ≡ has_json texts.now) }
{
    let json = texts.iter().position(|text| is_json(text));
    let plain = texts.iter().position(|text| !is_json(text));
    match (json, plain) {
        (Some(json), Some(plain)) => Err(TextsFault::Mixed { json, plain }),
        _ => Ok(texts.iter().any(|text| is_json(text))),
    }
}

/// The report of all managers, of reports of different ones, as it is written: of reports that are text, the text of their rows in the
/// order of links, and of as many edits as they have together; of reports in JSON, their lines in the order of links. Mixed where some are
/// JSON and others text, Report with the first text that is no report, ManagerTwice where two of them have rows of one manager, ManyEdits
/// where a number can't hold the edits, Memory where memory is refused.
pub fn merge_texts(alloc: Global, topo: &Topo, texts: &[Vec<u8>]) -> Result<MergedText, TextsFault>
    ensures { IfOk result (λ made. AreMerged topo.now texts.now made.text.items) }
{
    if are_json(texts)? {
        merge_json(alloc, topo, texts)
    } else {
        merge_plain(alloc, topo, texts)
    }
}
