//! Rows, each with its lines after it.

ghost use Rattle.std.specs.Prelude.{◌≡◌, ◌<◌, ◌≤◌, ◌++◌, find, IfOk, OnOk, length, string_bytes};
ghost use Rattle.std.specs.List.{All, flat_map};
ghost use Rattle.std.specs.Option.{option_copied};
ghost use Rattle.tl_check.specs.Notes.{IsNoted};
ghost use Rattle.tl_check.specs.Output.{row_text, head_text, report_bytes, audit_head, audit_bytes};
ghost use Rattle.tl_show.specs.Lines.{IsSoundTold};
ghost use Rattle.tl_show.specs.Shown.{same_monitor, is_of_beat, is_of_rule, is_row, lines_for, shown_row, rest_line_of, checked_text_of, asked_text_of, given_text_of, counts_line_of, shown_count, shown_rows, shown_bytes, IsShown};

use crate::lines::told_lines;
use crate::survey::{Counts, Survey, survey_beats};
use std::alloc::{AllocError, Global};
use tl_beats::Row;
use tl_capture::Present;
use tl_check::{Report, audit_head, head_text, row_text};
use tl_rows::Told;
use tl_tables::rule_number;
use tl_topology::Topo;

/// How many rows are shown at most.
const MOST_SHOWN: usize = 1_000;

/// Whether both are no monitor's, or the same one's.
fn same_monitor(one: Option<u32>, other: Option<u32>) -> bool
    ensures { result ≡ same_monitor one other }
{
    match (one, other) {
        (None, None) => true,
        (Some(one), Some(other)) => one == other,
        _ => false,
    }
}

/// Whether it tells of the row's beat.
fn is_of_beat(row: &Row, told: &Told) -> bool
    ensures { result ≡ is_of_beat row.now told.now }
{
    told.row.link == row.link && told.row.cycle == row.cycle && told.row.chan == row.chan
}

/// Whether it tells of the row's rule.
fn is_of_rule(row: &Row, told: &Told) -> bool
    ensures { result ≡ is_of_rule row.now told.now }
{
    rule_number(told.row.rule) == rule_number(row.rule)
        && same_monitor(told.row.monitor, row.monitor)
}

/// Whether it tells of the row.
fn is_row(row: &Row, told: &Told) -> bool
    ensures { result ≡ is_row row.now told.now }
{
    is_of_beat(row, told) && is_of_rule(row, told)
}

/// The first that tells of the row.
fn told_of<'a>(told: &'a [Told], row: &Row) -> Option<&'a Told>
    ensures { option_copied result ≡ find (is_row row.now) told.now }
{
    for each in told {
        if is_row(row, each) {
            return Some(each);
        }
    }
    None
}

/// The lines of a row, if it is told.
fn lines(alloc: Global, topo: &Topo, told: &[Told], row: &Row) -> Result<String, AllocError>
    requires { All (IsSoundTold topo.now) told.now }
    ensures { IfOk result (λ text. string_bytes text ≡ lines_for topo.now told.now row.now) }
{
    match told_of(told, row) {
        Some(own) => told_lines(alloc, topo, own),
        None => Ok(String::new(alloc)),
    }
}

/// A row with its lines, where it is one of those that are told. AllocError where memory is refused.
pub fn shown_row(alloc: Global, topo: &Topo, told: &[Told], row: &Row) -> Result<String, AllocError>
    requires link { row.now.link < length topo.now.links }
    requires told { All (IsSoundTold topo.now) told.now }
    ensures { IfOk result (λ text. string_bytes text ≡ shown_row topo.now told.now row.now) }
{
    let mut text = row_text(alloc, topo, row)?;
    let own = lines(alloc, topo, told, row)?;
    text.push_str(own.as_str())?;
    Ok(text)
}

/// Adds rows with their lines.
fn push_shown(
    alloc: Global,
    topo: &Topo,
    told: &[Told],
    rows: &[Row],
    text: &mut String,
) -> Result<(), AllocError>
    requires links { All (λ row. row.link < length topo.now.links) rows.now }
    requires told { All (IsSoundTold topo.now) told.now }
    ensures { OnOk result (string_bytes text.new ≡ string_bytes text.old ++ flat_map (shown_row topo.now told.now) rows.now) }
{
    for row in rows {
        let line = shown_row(alloc, topo, told, row)?;
        text.push_str(line.as_str())?;
    }
    Ok(())
}

/// Adds rows without lines.
fn push_rows(alloc: Global, topo: &Topo, rows: &[Row], text: &mut String) -> Result<(), AllocError>
    requires { All (λ row. row.link < length topo.now.links) rows.now }
    ensures { OnOk result (string_bytes text.new ≡ string_bytes text.old ++ flat_map (row_text topo.now) rows.now) }
{
    for row in rows {
        let line = row_text(alloc, topo, row)?;
        text.push_str(line.as_str())?;
    }
    Ok(())
}

/// How many rows are shown.
fn shown_count(rows: &[Row]) -> usize
    ensures exact { result ≡ shown_count rows.now }
    ensures within { result ≤ length rows.now }
{
    rows.len().min(MOST_SHOWN)
}

/// The first rows with their lines, the others without.
#[tactic(auto, unfolding(crate::specs::Shown::shown_rows))]
fn shown_rows(alloc: Global, topo: &Topo, told: &[Told], rows: &[Row]) -> Result<String, AllocError>
    requires links { All (λ row. row.link < length topo.now.links) rows.now }
    requires told { All (IsSoundTold topo.now) told.now }
    ensures { IfOk result (λ text. string_bytes text ≡ shown_rows topo.now told.now rows.now) }
{
    let count = shown_count(rows);
    let mut text = String::new(alloc);
    push_shown(alloc, topo, told, &rows[..count], &mut text)?;
    push_rows(alloc, topo, &rows[count..], &mut text)?;
    Ok(text)
}

/// How many rows are not shown, if any.
#[tactic(auto, unfolding(crate::specs::Shown::rest_line_of))]
fn rest_line(alloc: Global, count: usize) -> Result<String, AllocError>
    ensures { IfOk result (λ text. string_bytes text ≡ rest_line_of count) }
{
    if count == 0 {
        return Ok(String::new(alloc));
    }
    format!(in alloc; "  rows that are not shown: {count}\n")
}

/// How much was checked.
#[tactic(auto, unfolding(crate::specs::Shown::checked_text_of))]
fn checked_text(alloc: Global, counts: &Counts) -> Result<String, AllocError>
    ensures { IfOk result (λ text. string_bytes text ≡ checked_text_of counts.now) }
{
    let beats = counts.beats;
    let heads = counts.heads;
    let windows = counts.windows;
    format!(in alloc; "  checked: beats {beats}, heads {heads}, windows {windows}")
}

/// How many requests, Releases and Probes are open.
#[tactic(auto, unfolding(crate::specs::Shown::asked_text_of))]
fn asked_text(alloc: Global, counts: &Counts) -> Result<String, AllocError>
    ensures { IfOk result (λ text. string_bytes text ≡ asked_text_of counts.now) }
{
    let requests = counts.still_open.requests;
    let releases = counts.still_open.releases;
    let probes = counts.still_open.probes;
    format!(in alloc; "; open: requests {requests}, Releases {releases}, Probes {probes}")
}

/// How many Grants and bursts are.
#[tactic(auto, unfolding(crate::specs::Shown::given_text_of))]
fn given_text(alloc: Global, counts: &Counts) -> Result<String, AllocError>
    ensures { IfOk result (λ text. string_bytes text ≡ given_text_of counts.now) }
{
    let grants = counts.still_open.grants;
    let bursts = counts.still_open.bursts;
    format!(in alloc; ", Grants {grants}, bursts {bursts}\n")
}

/// The line of what was checked.
#[tactic(auto, unfolding(crate::specs::Shown::counts_line_of))]
fn counts_line(alloc: Global, counts: &Counts) -> Result<String, AllocError>
    ensures { IfOk result (λ text. string_bytes text ≡ counts_line_of counts.now) }
{
    let checked = checked_text(alloc, counts)?;
    let asked = asked_text(alloc, counts)?;
    let given = given_text(alloc, counts)?;
    format!(in alloc; "{checked}{asked}{given}")
}

/// Rows after a first line, where the beats tell of these rows.
#[tactic(auto, unfolding(crate::specs::Shown::shown_bytes))]
fn shown_text(
    alloc: Global,
    topo: &Topo,
    head: &str,
    rows: &[Row],
    survey: &Survey,
) -> Result<String, AllocError>
    requires links { All (λ row. row.link < length topo.now.links) rows.now }
    requires told { All (IsSoundTold topo.now) survey.now.told.items }
    ensures { IfOk result (λ text. string_bytes text ≡ shown_bytes topo.now head.now survey.now.told.items survey.now.counts rows.now) }
{
    let shown = shown_rows(alloc, topo, &survey.told, rows)?;
    let rest = rest_line(alloc, rows.len() - shown_count(rows))?;
    let counts = counts_line(alloc, &survey.counts)?;
    format!(in alloc; "{head}{shown}{rest}{counts}")
}

/// Rows after a first line: each of the first 1,000 with its lines after it, then the others without, how many these are, and
/// how much was checked.
fn with_lines(
    alloc: Global,
    topo: &Topo,
    present: &Present,
    head: &str,
    rows: &[Row],
) -> Result<String, AllocError>
    requires links { All (λ row. row.link < length topo.now.links) rows.now }
    requires head { IsNoted head.now head.now }
    ensures shown { IfOk result (λ text. IsShown topo.now present.now head.now rows.now (string_bytes text)) }
    ensures noted { IfOk result (λ text. IsNoted (head.now ++ flat_map (row_text topo.now) rows.now) (string_bytes text)) }
{
    // Each link has a name.
    let _ = topo.link_count();
    let count = shown_count(rows);
    let survey = survey_beats(alloc, topo, present, &rows[..count])?;
    shown_text(alloc, topo, head, rows, &survey)
}

/// The text of a report whose rows are shown, with notes alone between the lines of the report: each of the first 1,000 with its lines after it, which are its beat in words, its
/// rule, the earlier beat that makes it so, and what was expected; then the others without, how many these are, and how much was
/// checked. The fragments that are present are those that the report is of, and the topology has the links of its rows.
/// AllocError where memory is refused.
#[tactic(auto, unfolding(tl_check::specs::Output::report_bytes))]
pub fn shown_report(
    alloc: Global,
    topo: &Topo,
    present: &Present,
    report: &Report,
) -> Result<String, AllocError>
    requires { All (λ row. row.link < length topo.now.links) report.now.rows }
    ensures shown { IfOk result (λ text. IsShown topo.now present.now (head_text report.now) report.now.rows (string_bytes text)) }
    ensures noted { IfOk result (λ text. IsNoted (report_bytes topo.now report.now) (string_bytes text)) }
{
    let head = head_text(alloc, report)?;
    with_lines(alloc, topo, present, head.as_str(), report.rows())
}

/// The same of what an audit after so many edits finds.
#[tactic(auto, unfolding(tl_check::specs::Output::audit_bytes))]
pub fn shown_audit(
    alloc: Global,
    topo: &Topo,
    present: &Present,
    edit: u64,
    rows: &[Row],
) -> Result<String, AllocError>
    requires { All (λ row. row.link < length topo.now.links) rows.now }
    ensures shown { IfOk result (λ text. IsShown topo.now present.now (audit_head edit (length rows.now)) rows.now (string_bytes text)) }
    ensures noted { IfOk result (λ text. IsNoted (audit_bytes topo.now edit rows.now) (string_bytes text)) }
{
    let head = audit_head(alloc, edit, rows.len())?;
    with_lines(alloc, topo, present, head.as_str(), rows)
}
