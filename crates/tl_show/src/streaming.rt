//! Rows of streams that are shown.

ghost use Rattle.std.specs.Prelude.{◌≡◌, ◌<◌, [], true, IfOk, IfSome, length, string_bytes};
ghost use Rattle.std.specs.List.{All};
ghost use Rattle.tl_beats.specs.Beats.{IsWellFormed};
ghost use Rattle.tl_check.specs.Notes.{is_unbroken, IsNoted};
ghost use Rattle.tl_check.specs.Output.{row_text};
ghost use Rattle.tl_show.specs.Lines.{IsStanding, IsNaming, IsSoundTold};

use crate::form::note;
use crate::lines::{bare_lines, told_lines};
use crate::quote::{line_at, quoted};
use crate::trail::Trail;
use std::alloc::{AllocError, Global};
use tl_beats::{FragmentFault, Placed, Row};
use tl_capture::Present;
use tl_check::{Completed, RowForm, row_text};
use tl_rows::{Reason, Told};
use tl_topology::Topo;

/// The beat of a row among the fragments that are kept, if it is there.
fn beat_of(kept: &Present, row: &Row) -> Option<Placed>
    ensures { IfSome result (λ place. (place.link ≡ row.now.link) × IsWellFormed place.beat) }
{
    let fragment = kept.get(row.link, row.fragment)?;
    let index = (row.line as usize).checked_sub(2)?;
    let beat = *fragment.beats().get(index)?;
    Some(Placed {
        link: row.link,
        fragment: row.fragment,
        line: row.line,
        beat,
    })
}

/// The lines of a row without its reason, if its beat is kept.
fn bare_notes(alloc: Global, topo: &Topo, kept: &Present, row: &Row) -> Result<String, AllocError>
    requires { row.now.link < length topo.now.links }
    ensures { IfOk result (λ text. IsNoted [] (string_bytes text)) }
{
    // Each link has a name.
    let _ = topo.link_count();
    match beat_of(kept, row) {
        Some(place) => bare_lines(alloc, topo, &place, row.rule),
        None => Ok(String::new(alloc)),
    }
}

/// Whether a beat is well-formed and on a link of the topology.
fn stands(topo: &Topo, place: &Placed) -> bool
    ensures { result ≡ true → IsStanding topo.now place.now }
{
    if usize::from(place.link) >= topo.link_count() {
        return false;
    }
    place.beat.is_well_formed()
}

/// Whether the beat that a reason names, if any, is.
fn is_naming(topo: &Topo, reason: &Reason) -> bool
    ensures { result ≡ true → IsNaming topo.now reason.now }
{
    match reason {
        Reason::ByItself | Reason::NoneBefore => true,
        Reason::Head(place)
        | Reason::Request(place)
        | Reason::Release(place)
        | Reason::Probe(place)
        | Reason::Grant(place)
        | Reason::Setter(place)
        | Reason::Rival(place) => stands(topo, place),
    }
}

/// What is told of a row, if this tells of it. Its beats came from fragments, so all of them stand; a trail promises no such thing.
fn own_of<'a>(topo: &Topo, told: Option<&'a Told>, row: &Row) -> Option<&'a Told>
    ensures { IfSome result (λ own. IsSoundTold topo.now own.now) }
{
    let own = told?;
    if own.row != *row {
        return None;
    }
    if !stands(topo, &own.place) {
        return None;
    }
    if !is_naming(topo, &own.reason) {
        return None;
    }
    Some(own)
}

/// The lines of a told row.
fn told_notes(alloc: Global, topo: &Topo, told: &Told) -> Result<String, AllocError>
    requires { IsSoundTold topo.now told.now }
    ensures { IfOk result (λ text. IsNoted [] (string_bytes text)) }
{
    // Each link has a name.
    let _ = topo.link_count();
    told_lines(alloc, topo, told)
}

/// The lines of a row: with its reason where it is told.
fn notes_of(
    alloc: Global,
    topo: &Topo,
    kept: &Present,
    told: Option<&Told>,
    row: &Row,
) -> Result<String, AllocError>
    requires { row.now.link < length topo.now.links }
    ensures { IfOk result (λ text. IsNoted [] (string_bytes text)) }
{
    match own_of(topo, told, row) {
        Some(own) => told_notes(alloc, topo, own),
        None => bare_notes(alloc, topo, kept, row),
    }
}

/// A row with its lines.
fn row_with(
    alloc: Global,
    topo: &Topo,
    kept: &Present,
    told: Option<&Told>,
    row: &Row,
) -> Result<String, AllocError>
    requires { row.now.link < length topo.now.links }
    ensures { IfOk result (λ text. IsNoted (row_text topo.now row.now) (string_bytes text)) }
{
    // Each link has a name.
    let _ = topo.link_count();
    let line = row_text(alloc, topo, row)?;
    let notes = notes_of(alloc, topo, kept, told, row)?;
    format!(in alloc; "{line}{notes}")
}

/// What is wrong with the text of a fragment, without its line.
fn wrong_there(fault: FragmentFault) -> &'static str
    ensures { is_unbroken result.now ≡ true }
{
    match fault {
        FragmentFault::BadHeader => "this is no header: fragment LINK NUMBER FIRST LAST",
        FragmentFault::BadField(_) => "this is no beat: tlcheck explain 12 has the form of each",
        FragmentFault::NotRising(_) => "this does not come after the beat before it",
        FragmentFault::OutOfRange(_) => "this is outside the cycles of its fragment's header",
        FragmentFault::Truncated(_) => "the input ends inside this fragment",
        FragmentFault::TooManyBeats => "the fragment has more than 65,536 beats",
        FragmentFault::TooLong => "the fragment has more than 8,388,608 bytes",
        FragmentFault::ReadFault => "the input can't be read any further",
        FragmentFault::WriteFault => "a write failed",
        FragmentFault::Memory => "out of memory",
    }
}

/// A line as a note; none where it is empty.
fn line_note(alloc: Global, line: &[u8]) -> Result<String, AllocError>
    requires { is_unbroken line.now ≡ true }
    ensures { IfOk result (λ text. IsNoted [] (string_bytes text)) }
{
    if line.is_empty() {
        Ok(String::new(alloc))
    } else {
        note(alloc, quoted(line))
    }
}

/// The line that a stream stops at, and what is wrong there, as notes.
fn stop_text(alloc: Global, fault: FragmentFault, text: &[u8]) -> Result<String, AllocError>
    ensures { IfOk result (λ notes. IsNoted [] (string_bytes notes)) }
{
    let number = u64::from(fault.number().unwrap_or(1));
    let own = line_note(alloc, line_at(text, number))?;
    let last = note(alloc, wrong_there(fault))?;
    format!(in alloc; "{own}{last}")
}

/// The rows of a stream with what makes them so, between their lines. It remembers for that what the beats left that a reason can
/// name: all that is open, and for each block the last message that set what a client may hold of it.
#[derive(Drop)]
pub struct ShownStream {
    // One for each manager.
    trails: Vec<Trail>,
    // What is told of the first of the rows that are written next.
    told: Vec<Told>,
}

impl ShownStream {
    /// That of a stream of a topology of which no beat was seen. AllocError where memory is refused.
    pub fn new(alloc: Global, topo: &Topo) -> Result<ShownStream, AllocError> {
        let mut trails = Vec::new(alloc);
        for manager in 0..topo.manager_count() {
            trails.push(Trail::new(alloc, topo, manager as u16)?)?;
        }
        Ok(ShownStream {
            trails,
            told: Vec::new(alloc),
        })
    }
}

impl RowForm for ShownStream {
    ghost noted = { true };

    fn has_beats(&self) -> bool {
        true
    }

    fn pass(
        &mut self,
        alloc: Global,
        completed: &Completed<'_>,
        rows: &[Row],
    ) -> Result<(), AllocError> {
        match self.trails.get_mut(usize::from(completed.manager)) {
            Some(trail) => trail.follow(alloc, completed, rows, &mut self.told),
            None => Ok(()),
        }
    }

    fn rows(
        &mut self,
        alloc: Global,
        topo: &Topo,
        kept: &Present,
        rows: &[Row],
    ) -> Result<String, AllocError> {
        let mut text = String::new(alloc);
        for (index, row) in rows.iter().enumerate() {
            let own = row_with(alloc, topo, kept, self.told.get(index), row)?;
            text.push_str(own.as_str())?;
        }
        self.told.clear();
        Ok(text)
    }

    fn stop_notes(&self, alloc: Global, fault: FragmentFault, text: &[u8]) -> String {
        match stop_text(alloc, fault, text) {
            Ok(notes) => notes,
            Err(_) => String::new(alloc),
        }
    }
}
