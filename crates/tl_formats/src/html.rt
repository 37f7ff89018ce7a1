//! Rows as a page for a browser, which needs nothing else: the rows stand in it as data, once, and its script draws what is seen.

ghost use Rattle.std.specs.Prelude.{◌<◌, length};
ghost use Rattle.std.specs.List.{All};
ghost use Rattle.tl_show.specs.Lines.{IsSoundTold};

use crate::json::reason_of;
use crate::output::Title;
use crate::page::BEFORE_DATA;
use crate::page_script::AFTER_DATA;
use std::alloc::{AllocError, Global};
use tl_beats::{Placed, Row};
use tl_capture::Present;
use tl_rows::{OpenCounts, Reason, Told};
use tl_show::{Counts, shown_row, survey_beats};
use tl_tables::{Level, RULES, Rule, rule_line, rule_text};
use tl_topology::Topo;

/// How many rows have their lines at most. Each is looked for among the rows that are told.
const MOST_TOLD: usize = 10_000;

/// Puts a character of a JSON string, which ends no script, after a text.
fn push_escaped(each: char, text: &mut String) -> Result<(), AllocError> {
    match each {
        '"' => text.push_str("\\\""),
        '\\' => text.push_str("\\\\"),
        '\n' => text.push_str("\\n"),
        '<' => text.push_str("\\u003c"),
        '\0'..='\x1f' => text.push_str("\\ufffd"),
        _ => text.push(each),
    }
}

/// A text as a JSON string.
fn quoted(alloc: Global, text: &str) -> Result<String, AllocError> {
    let mut string = String::from_str(alloc, "\"")?;
    for each in text.chars() {
        push_escaped(each, &mut string)?;
    }
    string.push_str("\"")?;
    Ok(string)
}

/// The line that the rows stand under as text.
fn title_text(alloc: Global, title: Title, rows: usize) -> Result<String, AllocError> {
    match title {
        Title::Report { version, edit } => {
            format!(in alloc; "report {version} edit {edit} rows {rows}")
        }
        Title::Audit { edit } => format!(in alloc; "audit {edit} rows {rows}"),
    }
}

/// How much is open, as an object.
fn open_object(alloc: Global, open: &OpenCounts) -> Result<String, AllocError> {
    let requests = open.requests;
    let releases = open.releases;
    let probes = open.probes;
    let grants = open.grants;
    let bursts = open.bursts;
    format!(in alloc;
        "{{\"requests\":{requests},\"Releases\":{releases},\"Probes\":{probes},\"Grants\":{grants},\"bursts\":{bursts}}}"
    )
}

/// How much was checked, as an object.
fn checked_object(alloc: Global, counts: &Counts) -> Result<String, AllocError> {
    let beats = counts.beats;
    let heads = counts.heads;
    let windows = counts.windows;
    format!(in alloc; "{{\"beats\":{beats},\"heads\":{heads},\"windows\":{windows}}}")
}

/// The word of a level in a topology.
fn level_word(level: Level) -> &'static str {
    match level {
        Level::Ul => "ul",
        Level::Uh => "uh",
        Level::C => "c",
    }
}

/// The cycles of the first and of the last of some beats.
fn ends_of(beats: &[Placed]) -> Option<(u64, u64)> {
    let first = beats.first()?;
    let last = beats.last()?;
    Some((first.beat.cycle, last.beat.cycle))
}

/// The cycles of the first and of the last beat, if there are some.
fn ends_members(alloc: Global, beats: &[Placed]) -> Result<String, AllocError> {
    match ends_of(beats) {
        Some((first, last)) => format!(in alloc; ",\"first\":\"{first}\",\"last\":\"{last}\""),
        None => Ok(String::new(alloc)),
    }
}

/// A link with its beats, as an object.
fn link_object(
    alloc: Global,
    topo: &Topo,
    present: &Present,
    link: u16,
) -> Result<String, AllocError>
    requires { link < length topo.now.links }
{
    let decl = topo.link(link).unwrap();
    let name = decl.name;
    let level = level_word(decl.level);
    let beats = present.link_beats(alloc, link)?;
    let count = beats.len();
    let ends = ends_members(alloc, &beats)?;
    format!(in alloc; "{{\"name\":\"{name}\",\"level\":\"{level}\",\"beats\":{count}{ends}}}")
}

/// Puts an item of a list after those before it.
fn push_item(item: &str, items: &mut String) -> Result<(), AllocError> {
    if !items.is_empty() {
        items.push_str(",\n")?;
    }
    items.push_str(item)
}

/// The links with their beats.
fn links_items(alloc: Global, topo: &Topo, present: &Present) -> Result<String, AllocError> {
    let mut items = String::new(alloc);
    for link in 0..topo.link_count() {
        let item = link_object(alloc, topo, present, link as u16)?;
        push_item(item.as_str(), &mut items)?;
    }
    Ok(items)
}

/// A rule with what is so where it is broken.
fn rule_member(alloc: Global, rule: Rule) -> Result<String, AllocError> {
    let name = rule_text(rule);
    let meaning = quoted(alloc, rule_line(rule))?;
    format!(in alloc; "\"{name}\":{meaning}")
}

/// The rules.
fn rules_members(alloc: Global) -> Result<String, AllocError> {
    let mut items = String::new(alloc);
    for rule in &RULES {
        let item = rule_member(alloc, *rule)?;
        push_item(item.as_str(), &mut items)?;
    }
    Ok(items)
}

/// The link and the cycle of the earlier beat that a reason names, if any.
fn earlier_item(alloc: Global, reason: &Option<Reason>) -> Result<String, AllocError> {
    match reason.as_ref().and_then(Reason::place) {
        Some(place) => {
            let link = place.link;
            let cycle = place.beat.cycle;
            format!(in alloc; "[{link},\"{cycle}\"]")
        }
        None => format!(in alloc; "null"),
    }
}

/// A row: the number of its link, its cycle and rule, the earlier beat that makes it so, and what `--show` writes of it.
fn row_item(alloc: Global, topo: &Topo, told: &[Told], row: &Row) -> Result<String, AllocError>
    requires link { row.now.link < length topo.now.links }
    requires told { All (IsSoundTold topo.now) told.now }
{
    let link = row.link;
    let cycle = row.cycle;
    let rule = rule_text(row.rule);
    let earlier = earlier_item(alloc, &reason_of(told, row))?;
    let lines = shown_row(alloc, topo, told, row)?;
    let text = quoted(alloc, lines.as_str())?;
    format!(in alloc; "[{link},\"{cycle}\",\"{rule}\",{earlier},{text}]")
}

/// The rows, in their order.
fn rows_items(alloc: Global, topo: &Topo, told: &[Told], rows: &[Row]) -> Result<String, AllocError>
    requires links { All (λ row. row.link < length topo.now.links) rows.now }
    requires told { All (IsSoundTold topo.now) told.now }
{
    let mut items = String::new(alloc);
    for row in rows {
        let item = row_item(alloc, topo, told, row)?;
        push_item(item.as_str(), &mut items)?;
    }
    Ok(items)
}

/// What the page is of, without its rows.
fn frame_members(
    alloc: Global,
    topo: &Topo,
    present: &Present,
    counts: &Counts,
) -> Result<String, AllocError> {
    let checked = checked_object(alloc, counts)?;
    let open = open_object(alloc, &counts.still_open)?;
    let links = links_items(alloc, topo, present)?;
    let rules = rules_members(alloc)?;
    format!(in alloc;
        "\"checked\":{checked},\n\"open\":{open},\n\"links\":[\n{links}],\n\"rules\":{{\n{rules}}},\n"
    )
}

/// The data of the page.
fn data_object(
    alloc: Global,
    title: Title,
    topo: &Topo,
    present: &Present,
    rows: &[Row],
) -> Result<String, AllocError>
    requires { All (λ row. row.link < length topo.now.links) rows.now }
{
    let count = rows.len().min(MOST_TOLD);
    let survey = survey_beats(alloc, topo, present, &rows[..count])?;
    let head = title_text(alloc, title, rows.len())?;
    let frame = frame_members(alloc, topo, present, &survey.counts)?;
    let items = rows_items(alloc, topo, &survey.told, rows)?;
    format!(in alloc; "{{\"title\":\"{head}\",\n{frame}\"rows\":[\n{items}]}}\n")
}

/// The page of some data.
fn page_with(alloc: Global, data: &str) -> Result<String, AllocError> {
    let mut page = String::from_str(alloc, BEFORE_DATA)?;
    page.push_str(data)?;
    page.push_str(AFTER_DATA)?;
    Ok(page)
}

/// Rows as one page of HTML, in which nothing is fetched: how many there are by rule and by link, where they stand over the cycles, and
/// a table that can be filtered, in which each row has what `--show` writes of it and a picture of it. The first 10,000 rows have their
/// lines. The fragments that are present are those that the rows are of. AllocError where memory is refused.
pub fn html_text(
    alloc: Global,
    title: Title,
    topo: &Topo,
    present: &Present,
    rows: &[Row],
) -> Result<String, AllocError>
    requires { All (λ row. row.link < length topo.now.links) rows.now }
{
    let data = data_object(alloc, title, topo, present, rows)?;
    page_with(alloc, data.as_str())
}
