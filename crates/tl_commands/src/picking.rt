//! Runs of which the words choose the rows that are written.

ghost use Rattle.std.specs.Prelude.{◌<◌, ◌≤◌, ◌^◌, IfOk, length};
ghost use Rattle.std.specs.List.{All};

use crate::midway::{heads_text, push_midway};
use crate::pasts::inputs_left;
use std::alloc::{AllocError, AllocFailed, Global};
use std::fs;
use std::rt::Files;
use std::sync::Arc;
use std::thread::Threads;
use tl_advice::report_summary;
use tl_beats::{Fragment, Row};
use tl_check::{Judges, all_added};
use tl_edits::Inputs;
use tl_files::Fault;
use tl_formats::{Pick, Title, Waiver, WaiverFault, print_rows, read_waivers};
use tl_midway::{Counts, Midway, counted_report};
use tl_options::{How, View};
use tl_rows::Format;
use tl_text::{ByteOut, CountedReader, TextFault, read_text, write_all};
use tl_topology::{Name, Topo};

/// The most bytes of a text of waivers.
const MOST_WAIVERS: u64 = 1_048_576;

/// Why what the words want of rows can't be had.
#[derive(Drop)]
pub(crate) enum Trouble {
    /// A fault.
    Fault(Fault),
    /// What is wrong, in a sentence.
    Objection(String),
}

impl From<AllocError> for Trouble {
    fn from(_error: AllocError) -> Trouble {
        Trouble::Fault(Fault::MEMORY)
    }
}

impl<T: Drop> From<AllocFailed<T>> for Trouble {
    fn from(_error: AllocFailed<T>) -> Trouble {
        Trouble::Fault(Fault::MEMORY)
    }
}

/// What is to be written.
#[derive(Drop)]
pub(crate) struct Order<'a> {
    /// In this format.
    format: Format,
    /// Which rows.
    pick: Pick,
    /// The path of the text of waivers.
    waive: Option<&'a str>,
    /// Whether their summary is told.
    summary: bool,
    /// Whether beats that rules leave unjudged are counted.
    unjudged: bool,
    /// By which law they stand, where the capture is from the middle of a run.
    midway: Option<Midway>,
}

/// The rows of what stands, and of a capture from the middle of a run what is counted of its beats.
#[derive(Drop)]
struct Found {
    rows: Vec<Row>,
    counts: Option<Counts>,
}

/// What was written.
#[derive(Drop)]
pub struct Written {
    /// How many rows.
    pub rows: u64,
    /// What is told of waivers, and of the law by which rows stand.
    pub notes: String,
    /// Their summary, if it is told.
    pub summary: Option<String>,
}

/// The number of the link with this name, if there is one.
fn number_of(topo: &Topo, name: &str) -> Option<u16> {
    let name = Name::new(name.as_bytes())?;
    topo.link_of(&name)
}

/// The number of the link with this name.
pub(crate) fn link_of(alloc: Global, topo: &Topo, name: &str) -> Result<u16, Trouble> {
    match number_of(topo, name) {
        Some(number) => Ok(number),
        None => Err(Trouble::Objection(format!(in alloc;
            "tlcheck: no link of the topology is called '{name}'\n"
        )?)),
    }
}

/// The numbers of the links with these names.
fn links_of(alloc: Global, topo: &Topo, names: &[&str]) -> Result<Vec<u16>, Trouble> {
    let mut links = Vec::new(alloc);
    for name in names {
        links.push(link_of(alloc, topo, *name)?)?;
    }
    Ok(links)
}

/// The text of a file with at most so many bytes.
pub(crate) fn file_text<R: Files + AllocGlobal>(
    rt: &R,
    path: &str,
    most: u64,
) -> Result<Vec<u8>, TextFault>
    requires { most ≤ 2 ^ 32 }
{
    let Ok(file) = fs::open(rt, path) else {
        return Err(TextFault::ReadFault);
    };
    read_text(rt.alloc(), &mut CountedReader::new(file), most)
}

/// Why the text of a file with at most so many bytes can't be had.
pub(crate) fn text_trouble(
    alloc: Global,
    path: &str,
    most: &str,
    fault: TextFault,
) -> Result<Trouble, AllocError> {
    let text = match fault {
        TextFault::Memory => return Ok(Trouble::Fault(Fault::MEMORY)),
        TextFault::ReadFault => format!(in alloc; "tlcheck: {path} can't be read\n")?,
        TextFault::TooLong => format!(in alloc; "tlcheck: {path} has more than {most} bytes\n")?,
    };
    Ok(Trouble::Objection(text))
}

/// A text with a newline after it.
fn with_newline(mut text: Vec<u8>) -> Result<Vec<u8>, AllocError> {
    text.push(b'\n')?;
    Ok(text)
}

/// The text of a file of waivers, with a newline after it, which its last line may lack.
fn waiver_text<R: Files + AllocGlobal>(rt: &R, path: &str) -> Result<Vec<u8>, Trouble> {
    match file_text(rt, path, MOST_WAIVERS) {
        Ok(text) => Ok(with_newline(text)?),
        Err(fault) => Err(text_trouble(rt.alloc(), path, "1,048,576", fault)?),
    }
}

/// The waivers of a text.
fn text_waivers(
    alloc: Global,
    topo: &Topo,
    path: &str,
    text: &[u8],
) -> Result<Vec<Waiver>, Trouble> {
    match read_waivers(alloc, topo, text) {
        Ok(waivers) => Ok(waivers),
        Err(WaiverFault::Memory) => Err(Trouble::Fault(Fault::MEMORY)),
        Err(fault) => Err(Trouble::Objection(format!(in alloc; "tlcheck: {path}: {fault}\n")?)),
    }
}

/// The waivers of a file, if one is named.
fn waivers_of<R: Files + AllocGlobal>(
    rt: &R,
    topo: &Topo,
    path: Option<&str>,
) -> Result<Vec<Waiver>, Trouble> {
    let Some(path) = path else {
        return Ok(Vec::new(rt.alloc()));
    };
    let text = waiver_text(rt, path)?;
    text_waivers(rt.alloc(), topo, path, &text)
}

/// What the words want to be written of rows of this topology.
pub(crate) fn order_of<'a, R: Files + AllocGlobal>(
    rt: &R,
    topo: &Topo,
    how: How,
    view: &View<'a>,
) -> Result<Order<'a>, Trouble> {
    let pick = Pick {
        links: links_of(rt.alloc(), topo, &view.links)?,
        waivers: waivers_of(rt, topo, view.waive)?,
        rules: Vec::from_slice(rt.alloc(), &view.rules)?,
        cycles: view.cycles,
    };
    Ok(Order {
        format: view.format,
        pick,
        waive: view.waive,
        summary: how.summary,
        unjudged: how.unjudged,
        midway: how.midway,
    })
}

/// Puts the line of a waiver that accepts no row after a text.
fn push_line(alloc: Global, path: &str, number: u64, notes: &mut String) -> Result<(), AllocError> {
    let line = format!(in alloc; "tlcheck: {path} line {number} fits no row\n")?;
    notes.push_str(line.as_str())
}

/// Puts a line for each waiver that accepts none of the rows after a text.
fn push_unused(
    alloc: Global,
    path: &str,
    unused: &[Waiver],
    notes: &mut String,
) -> Result<(), AllocError> {
    for waiver in unused {
        push_line(alloc, path, waiver.line, notes)?;
    }
    Ok(())
}

/// How many rows are waived, in a line.
fn waived_line(alloc: Global, path: &str, pick: &Pick, rows: &[Row]) -> Result<String, AllocError> {
    let waived = pick.waived(alloc, rows)?.len();
    let found = rows.len();
    format!(in alloc; "tlcheck: {path} waives {waived} of {found} rows\n")
}

/// Puts a line for each waiver of a pick that accepts none of the rows after a text.
fn push_idle(
    alloc: Global,
    path: &str,
    pick: &Pick,
    rows: &[Row],
    notes: &mut String,
) -> Result<(), AllocError> {
    let unused = pick.unused(alloc, rows)?;
    push_unused(alloc, path, &unused, notes)
}

/// How many rows are waived, and which waivers accept none.
fn waiver_notes(
    alloc: Global,
    path: Option<&str>,
    pick: &Pick,
    rows: &[Row],
) -> Result<String, AllocError> {
    let Some(path) = path else {
        return Ok(String::new(alloc));
    };
    let mut notes = waived_line(alloc, path, pick, rows)?;
    push_idle(alloc, path, pick, rows, &mut notes)?;
    Ok(notes)
}

/// What is told of the rows of what stands: of waivers, and of what rows rest on where nobody recorded the past.
fn notes_of(alloc: Global, order: &Order<'_>, found: &Found) -> Result<String, AllocError> {
    let mut notes = waiver_notes(alloc, order.waive, &order.pick, &found.rows)?;
    push_midway(alloc, found.counts.as_ref(), &mut notes)?;
    Ok(notes)
}

/// Writes those of these rows that are wanted, and answers how many they are.
fn write_left<O: ByteOut>(
    alloc: Global,
    title: Title,
    inputs: &Inputs,
    order: &Order<'_>,
    rows: &[Row],
    out: &mut O,
) -> Result<u64, Fault>
    requires out { O.failure_count out.old < 2 ^ 63 }
    requires links { All (λ row. row.link < length inputs.now.topo.links) rows.now }
{
    let printed = print_rows(alloc, order.format, title, &order.pick, inputs, rows)?;
    write_all(out, printed.text.as_bytes())?;
    Ok(printed.rows)
}

/// The summary of those of these rows that a pick leaves.
fn summary_left(
    alloc: Global,
    inputs: &Inputs,
    pick: &Pick,
    rows: &[Row],
) -> Result<String, AllocError> {
    let left = pick.left(alloc, rows)?;
    report_summary(alloc, inputs, &left)
}

/// The summary of those of these rows that are wanted; of a capture from the middle of a run it tells where heads are known, too.
fn summed(
    alloc: Global,
    inputs: &Inputs,
    order: &Order<'_>,
    rows: &[Row],
) -> Result<String, AllocError> {
    let mut summary = summary_left(alloc, inputs, &order.pick, rows)?;
    summary.push_str(&heads_text(alloc, inputs, order.midway)?)?;
    Ok(summary)
}

/// The summary of those of these rows that are wanted, if it is told; None where memory is refused.
fn summary_of(alloc: Global, inputs: &Inputs, order: &Order<'_>, rows: &[Row]) -> Option<String> {
    if !order.summary {
        return None;
    }
    match summed(alloc, inputs, order, rows) {
        Ok(summary) => Some(summary),
        Err(_) => None,
    }
}

/// Writes those of the rows of what stands that are wanted.
fn write_rows<O: ByteOut>(
    alloc: Global,
    title: Title,
    inputs: &Inputs,
    order: &Order<'_>,
    found: &Found,
    out: &mut O,
) -> Result<Written, Fault>
    requires out { O.failure_count out.old < 2 ^ 63 }
    requires links { All (λ row. row.link < length inputs.now.topo.links) found.now.rows.items }
{
    let notes = notes_of(alloc, order, found)?;
    let count = write_left(alloc, title, inputs, order, &found.rows, out)?;
    Ok(Written {
        rows: count,
        notes,
        summary: summary_of(alloc, inputs, order, &found.rows),
    })
}

/// The rows of a capture from the middle of a run that stand by a law, and what is counted of its beats, by rule too or not.
fn midway_found(
    alloc: Global,
    inputs: &Inputs,
    law: Midway,
    by_rule: bool,
) -> Result<Found, AllocError>
    ensures { IfOk result (λ found. All (λ row. row.link < length inputs.now.topo.links) found.rows.items) }
{
    let report = counted_report(alloc, inputs, law, by_rule)?;
    Ok(Found {
        rows: report.rows,
        counts: Some(report.counts),
    })
}

/// All rows of what stands.
fn all_found<R: Threads + Sync + AllocGlobal>(
    judges: &Judges<'_, R>,
    inputs: &Inputs,
) -> Result<Found, AllocError>
    ensures { IfOk result (λ found. All (λ row. row.link < length inputs.now.topo.links) found.rows.items) }
{
    let rows = judges.scratch(inputs)?;
    Ok(Found { rows, counts: None })
}

/// The rows of what stands: all, or of a capture from the middle of a run those that stand by a law.
fn rows_found<R: Threads + Sync + AllocGlobal>(
    judges: &Judges<'_, R>,
    inputs: &Inputs,
    order: &Order<'_>,
) -> Result<Found, AllocError>
    ensures { IfOk result (λ found. All (λ row. row.link < length inputs.now.topo.links) found.rows.items) }
{
    match order.midway {
        Some(law) => midway_found(judges.alloc(), inputs, law, order.unjudged),
        None => all_found(judges, inputs),
    }
}

/// Writes those rows of what stands that are wanted.
fn write_found<R: Threads + Sync + AllocGlobal, O: ByteOut>(
    judges: &Judges<'_, R>,
    title: Title,
    inputs: &Inputs,
    order: &Order<'_>,
    out: &mut O,
) -> Result<Written, Fault>
    requires { O.failure_count out.old < 2 ^ 63 }
{
    let found = rows_found(judges, inputs, order)?;
    write_rows(judges.alloc(), title, inputs, order, &found, out)
}

/// Writes those rows of the report of fragments that are wanted.
pub(crate) fn write_once<R: Threads + Sync + AllocGlobal, O: ByteOut>(
    judges: &Judges<'_, R>,
    topo: &Topo,
    fragments: &[Arc<Fragment>],
    order: &Order<'_>,
    out: &mut O,
) -> Result<Written, Fault>
    requires { O.failure_count out.old < 2 ^ 63 }
{
    let log = all_added(judges.alloc(), topo, fragments)?;
    let title = Title::Report {
        version: 1,
        edit: fragments.len() as u64,
    };
    write_found(judges, title, log.inputs(), order, out)
}

/// Writes those rows that are wanted of what checking everything anew after so many accepted edits of a script finds.
pub(crate) fn write_audit<R: Threads + Sync + AllocGlobal, O: ByteOut>(
    judges: &Judges<'_, R>,
    topo: &Topo,
    script: &[u8],
    edit: u64,
    order: &Order<'_>,
    out: &mut O,
) -> Result<Written, Fault>
    requires { O.failure_count out.old < 2 ^ 63 }
{
    let inputs = inputs_left(judges.alloc(), topo, script, Some(edit))?;
    write_found(judges, Title::Audit { edit }, &inputs, order, out)
}
