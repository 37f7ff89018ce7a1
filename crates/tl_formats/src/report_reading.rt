//! Reports that are read from their text.

ghost use Rattle.std.specs.Prelude.{◌≡◌, ◌<◌, IfOk, IfSome, length, string_bytes};
ghost use Rattle.std.specs.List.{All};
ghost use Rattle.tl_formats.specs.JsonReports.{link_called};
ghost use Rattle.tl_formats.specs.Merging.{text_of};

use crate::report_fault::ReportFault;
use crate::report_line::{HasRows, push_after};
use crate::report_row::{ReportRow, as_rows};
use std::alloc::{AllocError, Global};
use tl_check::{Report, report_text};
use tl_rows::rule_named;
use tl_tables::Rule;
use tl_text::{decimal, line, word};
use tl_topology::{Name, Topo};

/// The version of a report that stands alone.
const VERSION: u64 = 1;

/// A report as its text tells it.
#[derive(Drop)]
pub struct ReportText {
    /// How many edits it speaks of.
    pub edits: u64,
    /// Its rows, in their order.
    pub rows: Vec<ReportRow>,
}

impl HasRows for ReportText {
    type Row = ReportRow;

    ghost lines = { λ report. report.rows.items };

    fn rows(&self) -> &[ReportRow] {
        &self.rows
    }
}

/// The words of a row's line; the last has its rule, and the monitor of an X1.
#[derive(Clone, Copy)]
struct Columns<'a> {
    link: &'a [u8],
    fragment: &'a [u8],
    line: &'a [u8],
    broken: &'a [u8],
}

/// What a report's first line counts: edits, and rows.
#[derive(Clone, Copy)]
struct Counts {
    edits: u64,
    rows: u64,
}

/// A word that is this one, and what follows it.
fn after_word<'a>(line: &'a [u8], wanted: &[u8]) -> Option<&'a [u8]> {
    let (found, rest) = word(line)?;
    if found == wanted { Some(rest) } else { None }
}

/// What the first line of a report counts.
fn counts_of(line: &[u8]) -> Option<Counts> {
    let words = after_word(line, b"report")?;
    let words = after_word(words, b"1")?;
    let words = after_word(words, b"edit")?;
    let (edits, words) = word(words)?;
    let rows = after_word(words, b"rows")?;
    Some(Counts {
        edits: decimal(edits, u64::MAX)?,
        rows: decimal(rows, u64::MAX)?,
    })
}

/// The words of a row's line.
fn columns_of(line: &[u8]) -> Option<Columns<'_>> {
    let (link, words) = word(line)?;
    let (fragment, words) = word(words)?;
    let (line, broken) = word(words)?;
    Some(Columns {
        link,
        fragment,
        line,
        broken,
    })
}

/// The number that a word spells.
fn number_of(word: &[u8]) -> Option<u32> {
    let number = decimal(word, u64::from(u32::MAX))?;
    u32::try_from(number).ok()
}

/// A rule and the monitor of an X1, which other rules lack.
fn broken_by(words: &[u8]) -> Option<(Rule, Option<u32>)> {
    match word(words) {
        None => match rule_named(words)? {
            Rule::X1 => None,
            rule => Some((rule, None)),
        },
        Some((name, monitor)) => match rule_named(name)? {
            Rule::X1 => Some((Rule::X1, Some(number_of(monitor)?))),
            _ => None,
        },
    }
}

/// The row of a link with these words.
fn row_with(link: u16, columns: Columns<'_>) -> Option<ReportRow>
    ensures { IfSome result (λ row. row.link ≡ link) }
{
    let fragment = number_of(columns.fragment)?;
    let line = number_of(columns.line)?;
    let (rule, monitor) = broken_by(columns.broken)?;
    Some(ReportRow {
        link,
        fragment,
        line,
        rule,
        monitor,
    })
}

/// The number of the link that a word names.
pub(crate) fn link_called(topo: &Topo, word: &[u8]) -> Option<u16>
    ensures exact { result ≡ link_called topo.now word.now }
    ensures within { IfSome result (λ link. link < length topo.now.links) }
{
    let name = Name::new(word)?;
    topo.link_of(&name)
}

/// The row of a line with this number.
fn row_of(topo: &Topo, line: &[u8], number: u64) -> Result<ReportRow, ReportFault>
    ensures { IfOk result (λ row. row.link < length topo.now.links) }
{
    let Some(columns) = columns_of(line) else {
        return Err(ReportFault::BadRow(number));
    };
    let Some(link) = link_called(topo, columns.link) else {
        return Err(ReportFault::NoLink(number));
    };
    match row_with(link, columns) {
        Some(row) => Ok(row),
        None => Err(ReportFault::BadRow(number)),
    }
}

/// The rows of the lines of a text, of which the first has this number.
fn rows_of(
    alloc: Global,
    topo: &Topo,
    text: &[u8],
    first: u64,
) -> Result<Vec<ReportRow>, ReportFault>
    ensures { IfOk result (λ rows. All (λ row. row.link < length topo.now.links) rows.items) }
{
    let mut rows = Vec::new(alloc);
    let mut rest = text;
    let mut number = first;
    while let Some((next, after)) = line(rest) {
        let row = row_of(topo, next, number)?;
        push_after(&mut rows, row, number)?;
        rest = after;
        number = number.saturating_add(1);
    }
    Ok(rows)
}

/// The text of a report of a topology that has the links of its rows. AllocError where memory is refused.
pub(crate) fn text_of_report(
    alloc: Global,
    topo: &Topo,
    report: &ReportText,
) -> Result<String, AllocError>
    requires { All (λ row. row.link < length topo.now.links) report.now.rows.items }
    ensures { IfOk result (λ text. string_bytes text ≡ text_of topo.now report.now) }
{
    let rows = as_rows(alloc, &report.rows)?;
    let report = Report::new(alloc, VERSION, report.edits, rows)?;
    report_text(alloc, topo, &report)
}

/// The line in which a text is another than this one, from 1.
fn line_of_difference(text: &[u8], wanted: &[u8]) -> u64 {
    let same = text
        .iter()
        .zip(wanted.iter())
        .take_while(|(byte, other)| byte == other)
        .filter(|(byte, _)| **byte == b'\n')
        .count();
    same as u64 + 1
}

/// A report of which this is the text, in its one spelling.
fn spelled(
    alloc: Global,
    topo: &Topo,
    text: &[u8],
    report: ReportText,
) -> Result<ReportText, ReportFault>
    requires { All (λ row. row.link < length topo.now.links) report.rows.items }
    ensures text { IfOk result (λ report. text.now ≡ text_of topo.now report) }
    ensures links { IfOk result (λ report. All (λ row. row.link < length topo.now.links) report.rows.items) }
{
    let wanted = text_of_report(alloc, topo, &report)?;
    if wanted.as_bytes() == text {
        Ok(report)
    } else {
        let number = line_of_difference(text, wanted.as_bytes());
        Err(ReportFault::BadRow(number))
    }
}

/// The report with so many edits whose rows are the lines of a text, of which the first is line 2.
fn report_of(
    alloc: Global,
    topo: &Topo,
    counts: Counts,
    rest: &[u8],
) -> Result<ReportText, ReportFault>
    ensures { IfOk result (λ report. All (λ row. row.link < length topo.now.links) report.rows.items) }
{
    let rows = rows_of(alloc, topo, rest, 2)?;
    let found = rows.len() as u64;
    if found != counts.rows {
        return Err(ReportFault::WrongCount {
            counted: counts.rows,
            found,
        });
    }
    Ok(ReportText {
        edits: counts.edits,
        rows,
    })
}

/// The report that a whole text is: what `once` writes of some managers. The first fault in the order of the first line, of each row in
/// turn its words, its link and its place after the row before, the number of rows, and what stands after the last newline; Memory where
/// memory is refused.
pub fn read_report(alloc: Global, topo: &Topo, text: &[u8]) -> Result<ReportText, ReportFault>
    ensures text { IfOk result (λ report. text.now ≡ text_of topo.now report) }
    ensures links { IfOk result (λ report. All (λ row. row.link < length topo.now.links) report.rows.items) }
{
    let Some((head, rest)) = line(text) else {
        return Err(ReportFault::BadHead);
    };
    let Some(counts) = counts_of(head) else {
        return Err(ReportFault::BadHead);
    };
    let report = report_of(alloc, topo, counts, rest)?;
    spelled(alloc, topo, text, report)
}
