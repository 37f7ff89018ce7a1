//! Rows as lines of JSON. All text in them is names of links, messages, params and rules, which JSON has as they are.

use crate::beat::beat_text;
use std::alloc::{AllocError, Global};
use tl_beats::{Beat, Placed, Row};
use tl_capture::Present;
use tl_rows::{Reason, Told};
use tl_show::survey_beats;
use tl_tables::{Level, rule_text};
use tl_topology::Topo;

/// How many rows have their reason at most, as with `--show`.
const MOST_TOLD: usize = 1_000;

/// The line of the first beat of a fragment, after its header.
const FIRST_LINE: u32 = 2;

/// What kind of reason it is, by the words of `--show`.
fn kind(reason: &Reason) -> &'static str {
    match reason {
        Reason::ByItself => "by_itself",
        Reason::NoneBefore => "none_before",
        Reason::Head(_) => "head",
        Reason::Request(_) => "open_request",
        Reason::Release(_) => "open_release",
        Reason::Probe(_) => "open_probe",
        Reason::Grant(_) => "open_grant",
        Reason::Setter(_) => "last_set_by",
        Reason::Rival(_) => "other_client_last_set_by",
    }
}

/// What makes the beat of a row break its rule, if it is told.
fn reason_word(reason: &Option<Reason>) -> &'static str {
    match reason {
        Some(reason) => kind(reason),
        None => "not_told",
    }
}

/// What a link is called.
fn link_name(topo: &Topo, link: u16) -> &str {
    match topo.link(link) {
        Some(decl) => decl.name.as_str(),
        None => "",
    }
}

/// A beat of a link, as an object.
fn beat_at(alloc: Global, topo: &Topo, link: u16, beat: &Beat) -> Result<String, AllocError> {
    let level = match topo.link(link) {
        Some(decl) => decl.level,
        None => Level::C,
    };
    beat_text(alloc, level, beat)
}

/// The beat of a row.
fn beat_of<'a>(present: &'a Present, row: &Row) -> Option<&'a Beat> {
    let fragment = present.get(row.link, row.fragment)?;
    let index = row.line.checked_sub(FIRST_LINE)?;
    fragment.beats().get(index as usize)
}

/// The beat of a row as an object, or null where there is none.
fn own_beat(
    alloc: Global,
    topo: &Topo,
    present: &Present,
    row: &Row,
) -> Result<String, AllocError> {
    match beat_of(present, row) {
        Some(beat) => beat_at(alloc, topo, row.link, beat),
        None => format!(in alloc; "null"),
    }
}

/// A beat with its place, as an object.
fn placed_text(alloc: Global, topo: &Topo, place: &Placed) -> Result<String, AllocError> {
    let cycle = place.beat.cycle;
    let link = link_name(topo, place.link);
    let fragment = place.fragment;
    let line = place.line;
    let beat = beat_at(alloc, topo, place.link, &place.beat)?;
    format!(in alloc;
        "{{\"cycle\":{cycle},\"link\":\"{link}\",\"fragment\":{fragment},\"line\":{line},\"beat\":{beat}}}"
    )
}

/// The earlier beat that a reason names, if any.
fn earlier_member(
    alloc: Global,
    topo: &Topo,
    reason: &Option<Reason>,
) -> Result<String, AllocError> {
    match reason.as_ref().and_then(Reason::place) {
        Some(place) => {
            let text = placed_text(alloc, topo, place)?;
            format!(in alloc; ",\"earlier\":{text}")
        }
        None => Ok(String::new(alloc)),
    }
}

/// The monitor of a row, if it is one's.
fn monitor_member(alloc: Global, row: &Row) -> Result<String, AllocError> {
    match row.monitor {
        Some(monitor) => format!(in alloc; ",\"monitor\":{monitor}"),
        None => Ok(String::new(alloc)),
    }
}

/// Where the beat of a row is, and its rule.
fn row_members(alloc: Global, topo: &Topo, row: &Row) -> Result<String, AllocError> {
    let cycle = row.cycle;
    let link = link_name(topo, row.link);
    let fragment = row.fragment;
    let line = row.line;
    let rule = rule_text(row.rule);
    let monitor = monitor_member(alloc, row)?;
    format!(in alloc;
        "\"cycle\":{cycle},\"link\":\"{link}\",\"fragment\":{fragment},\"line\":{line},\"rule\":\"{rule}\"{monitor}"
    )
}

/// The reason of a row, if it is told.
pub(crate) fn reason_of(told: &[Told], row: &Row) -> Option<Reason> {
    let own = told.iter().find(|told| told.row == *row)?;
    Some(own.reason)
}

/// A row as a line of JSON.
fn row_text(
    alloc: Global,
    topo: &Topo,
    present: &Present,
    told: &[Told],
    row: &Row,
) -> Result<String, AllocError> {
    let reason = reason_of(told, row);
    let kind = reason_word(&reason);
    let members = row_members(alloc, topo, row)?;
    let beat = own_beat(alloc, topo, present, row)?;
    let earlier = earlier_member(alloc, topo, &reason)?;
    format!(in alloc; "{{{members},\"beat\":{beat},\"reason\":\"{kind}\"{earlier}}}\n")
}

/// Rows as JSON, a line for each, in their order: its cycle, link, fragment, line and rule, the monitor of an X1, the fields of its
/// beat, and the earlier beat that makes it so. The first 1,000 rows have their reason, as with `--show`. The fragments that are
/// present are those that the rows are of. AllocError where memory is refused.
pub fn json_text(
    alloc: Global,
    topo: &Topo,
    present: &Present,
    rows: &[Row],
) -> Result<String, AllocError> {
    let count = rows.len().min(MOST_TOLD);
    let survey = survey_beats(alloc, topo, present, &rows[..count])?;
    let mut text = String::new(alloc);
    for row in rows {
        let line = row_text(alloc, topo, present, &survey.told, row)?;
        text.push_str(line.as_str())?;
    }
    Ok(text)
}
