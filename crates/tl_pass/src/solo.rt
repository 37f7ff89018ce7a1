//! One fragment whose beats come in pieces, each of which is judged and forgotten.

ghost use Rattle.std.specs.Prelude.{ℕ, List, ◌≡◌, ◌<◌, ◌++◌, ◌∷◌, [], None, true, false, length, map, IfOk, OnOk};
ghost use Rattle.std.specs.Arc.{arc_value};
ghost use Rattle.std.specs.List.{Contains};
ghost use Rattle.tl_beats.specs.Beats.{rises};
ghost use Rattle.tl_beats.specs.Fragments.{Frag};
ghost use Rattle.tl_definitions.specs.LinkPasses.{LinkSnapshot, link_judging};
ghost use Rattle.tl_definitions.specs.Positions.{placed_beats};
ghost use Rattle.tl_capture.specs.Present.{recorded};
ghost use Rattle.tl_check.specs.Apart.{Shows, AreFormed};
ghost use Rattle.tl_check.specs.Jobs.{GoesOn};
ghost use Rattle.tl_check.specs.Managers.{has_caches};
ghost use Rattle.tl_check.specs.States.{IsOf};
ghost use Rattle.tl_apart.specs.Told.{bare, clients};
ghost use Rattle.tl_pass.specs.Parts.{manager_of};
ghost use Rattle.tl_pass.specs.Solo.{last_or, later, lone, AreJudged, AreNext, HasAll, HasBegun, HasFound, HasLeft, IsNext, IsWholeOf, Leaves};

use crate::link_pass::has_no_caches;
use crate::pass::{Found, Hitch};
use crate::supply::{Supply, Taken};
use std::alloc::{AllocError, Global};
use std::sync::Arc;
use tl_beats::{Beat, Fragment, Placed, Row};
use tl_capture::Present;
use tl_check::{PlainLink, SpanState, go_on, sort_rows};
use tl_tables::chan_index;
use tl_topology::{RegionMap, Topo};

/// The most beats of a fragment.
const MOST_BEATS: usize = 65_536;

/// What the beats of a link leave for those that come, where no other link has beats.
#[derive(Drop)]
enum Left {
    /// They are judged as all beats of their manager.
    Manager(SpanState),
    /// They are judged by themselves, as no link of the topology has caches.
    Link(PlainLink),
}

/// A fragment of which the first beats came, and what was found of them.
#[derive(Drop)]
struct Solo<'a> {
    topo: &'a Topo,
    link: u16,
    /// The number of the link's manager.
    manager: u16,
    number: u32,
    first: u64,
    last: u64,
    /// How many beats came.
    count: usize,
    /// The last of them.
    newest: Option<Beat>,
    left: Left,
    rows: Vec<Row>,
}

/// Whether the first beat stands strictly before the second on their link.
fn rises(before: &Beat, after: &Beat) -> bool
    ensures { result ≡ rises before.now after.now }
{
    before.cycle < after.cycle
        || before.cycle == after.cycle && chan_index(before.chan) < chan_index(after.chan)
}

/// The last of beats, or what it was before where there are none.
fn last_or(before: Option<Beat>, beats: &[Beat]) -> Option<Beat>
    ensures { result ≡ last_or before beats.now }
{
    match beats.last() {
        Some(beat) => Some(*beat),
        None => before,
    }
}

/// Judges the beats of a piece, which is of this link of a manager, from a state that goes on after them; answers the rows of what they
/// break, with their lines in the piece. AllocError where memory is refused: then the state is for nothing more.
fn judge_piece(
    alloc: Global,
    topo: &Topo,
    manager: u16,
    link: u16,
    piece: Arc<Fragment>,
    state: &mut SpanState,
) -> Result<Vec<Row>, AllocError>
    requires manager { manager < length topo.now.managers }
    requires client { Contains (clients topo.now manager) link }
    requires state { IsOf (bare topo.now manager) state.old }
    ensures { IfOk result (λ rows. GoesOn (bare topo.now manager) state.old (placed_beats (recorded link (arc_value piece))) state.new rows.items) }
{
    let mut present = Present::new(alloc);
    present.put(link, piece)?;
    // It is a fragment.
    let _ = present.is_empty();
    let walk = present.walk(alloc, &[link])?;
    let none = RegionMap::new(alloc);
    let rows = go_on(alloc, topo, manager, &none, walk, state)?;
    Ok(rows)
}

/// The same of a link without caches, which is judged by itself.
fn judge_link(
    alloc: Global,
    topo: &Topo,
    link: u16,
    piece: &Fragment,
    state: &mut PlainLink,
) -> Result<Vec<Row>, Hitch>
    requires plain { has_caches topo.now link ≡ false }
    requires formed { AreFormed state.old }
    ensures formed { IfOk result (λ rows. AreFormed state.new) }
    ensures found { (s : LinkSnapshot) (k : ℕ) → manager_of topo.now link ≡ k → Shows state.old s
        → IfOk result (λ rows. (t : LinkSnapshot) × Shows state.new t
        × AreJudged (link_judging (lone topo.now k link)) s (placed_beats (recorded link piece.now)) t rows.items) }
{
    let Some(decl) = topo.link(link) else {
        return Err(Hitch::Fault);
    };
    let Some(exponent) = topo.block(decl.manager) else {
        return Err(Hitch::Fault);
    };
    let none = RegionMap::new(alloc);
    let mut rows = Vec::new(alloc);
    for (index, beat) in piece.beats().iter().enumerate() {
        let at = Placed {
            link,
            fragment: piece.number(),
            line: index as u32 + 2,
            beat: *beat,
        };
        state.step(alloc, decl, exponent, &none, &at, &mut rows)?;
    }
    Ok(rows)
}

/// Puts rows after others, each so many lines later. A hitch where memory is refused, or no line has that number.
fn push_later(lines: u32, found: &[Row], rows: &mut Vec<Row>) -> Result<(), Hitch>
    ensures { OnOk result (rows.new.items ≡ rows.old.items ++ map (later lines) found.now) }
{
    for row in found {
        let Some(line) = row.line.checked_add(lines) else {
            return Err(Hitch::Fault);
        };
        rows.push(Row {
            link: row.link,
            cycle: row.cycle,
            chan: row.chan,
            rule: row.rule,
            monitor: row.monitor,
            fragment: row.fragment,
            line,
        })?;
    }
    Ok(())
}

impl Left {
    /// Nothing, of a link of a manager without beats.
    fn nothing(alloc: Global, topo: &Topo, manager: u16) -> Result<Left, AllocError>
        requires { manager < length topo.now.managers }
        ensures { (link : ℕ) → IfOk result (λ left. HasFound topo.now manager link [] left []) }
    {
        if has_no_caches(topo) {
            Ok(Left::Link(PlainLink::new(alloc)))
        } else {
            Ok(Left::Manager(SpanState::opening(alloc, topo, manager)?))
        }
    }

    /// Judges the beats of the next piece, which is of this link of a manager; answers the rows of what they break, with their lines in the
    /// piece. A hitch where memory is refused: then it is for nothing more.
    fn judge(
        &mut self,
        alloc: Global,
        topo: &Topo,
        manager: u16,
        link: u16,
        piece: Arc<Fragment>,
    ) -> Result<Vec<Row>, Hitch>
        requires manager { manager < length topo.now.managers }
        requires client { Contains (clients topo.now manager) link }
        requires begun { HasLeft topo.now manager link self.old }
        ensures { IfOk result (λ rows. Leaves topo.now manager link (placed_beats (recorded link (arc_value piece))) self.old self.new rows.items) }
    {
        match self {
            Left::Manager(state) => {
                let rows = judge_piece(alloc, topo, manager, link, piece, state)?;
                Ok(rows)
            }
            Left::Link(state) => {
                let rows = judge_link(alloc, topo, link, &piece, state)?;
                Ok(rows)
            }
        }
    }
}

impl<'a> Solo<'a> {
    /// The fragment of a piece, before its beats. A hitch where memory is refused, or the topology lacks its link.
    fn new(alloc: Global, topo: &'a Topo, piece: &Fragment) -> Result<Solo<'a>, Hitch>
        ensures begun { IfOk result (HasAll []) }
        ensures topo { IfOk result (λ solo. solo.topo.now ≡ topo.now) }
    {
        let Some(link) = topo.link_of(&piece.link()) else {
            return Err(Hitch::Fault);
        };
        let Some(decl) = topo.link(link) else {
            return Err(Hitch::Fault);
        };
        // Its range does not end before it begins.
        let _ = piece.beats();
        let left = Left::nothing(alloc, topo, decl.manager)?;
        Ok(Solo {
            topo,
            link,
            manager: decl.manager,
            number: piece.number(),
            first: piece.first(),
            last: piece.last(),
            count: 0,
            newest: None,
            left,
            rows: Vec::new(alloc),
        })
    }

    /// Whether there is room for the beats of a piece, and they stand after those that came.
    fn is_before(&self, beats: &[Beat]) -> bool
        ensures { result ≡ true → AreNext self.now beats.now }
    {
        if self.count.saturating_add(beats.len()) > MOST_BEATS {
            return false;
        }
        match (&self.newest, beats.first()) {
            (Some(before), Some(next)) => rises(before, next),
            _ => true,
        }
    }

    /// Whether a piece is of the same fragment, and its beats stand after those that came.
    fn is_next(&self, piece: &Fragment) -> bool
        ensures { result ≡ true → IsNext self.now piece.now }
    {
        self.topo.link_of(&piece.link()) == Some(self.link)
            && piece.number() == self.number
            && piece.first() == self.first
            && piece.last() == self.last
            && self.is_before(piece.beats())
    }

    /// Judges the beats of the next piece. A hitch where memory is refused, and where they aren't the next of the fragment: then it is for
    /// nothing more.
    fn take(&mut self, alloc: Global, piece: Arc<Fragment>) -> Result<(), Hitch>
        requires { HasBegun self.old }
        ensures came { (ps : List Frag) → HasAll ps self.old → OnOk result (HasAll (ps ++ arc_value piece ∷ []) self.new) }
        ensures topo { OnOk result (self.new.topo ≡ self.old.topo) }
    {
        if !self.is_next(&piece) {
            return Err(Hitch::Fault);
        }
        let lines = self.count;
        let beats = piece.beats();
        self.count = lines + beats.len();
        self.newest = last_or(self.newest, beats);
        let found = self
            .left
            .judge(alloc, self.topo, self.manager, self.link, piece)?;
        push_later(lines as u32, &found, &mut self.rows)?;
        Ok(())
    }

    /// The report of the fragment, of which all beats came.
    fn report(self) -> Taken
        ensures { (ps : List Frag) → HasAll ps self.entry → IsWholeOf self.entry.topo.now ps result }
    {
        Taken {
            fragments: 1,
            found: Found {
                rows: sort_rows(self.rows),
                lead_ins: 0,
            },
        }
    }
}

/// The fragment whose first beats came, once those of the next pieces came too, up to the first None. A hitch as of `report_of_pieces`.
fn rest_taken<'a, S: Supply>(
    alloc: Global,
    first: Solo<'a>,
    pieces: &mut S,
) -> Result<Solo<'a>, Hitch>
    requires { HasBegun first }
    ensures came { (start : S) (ps : List Frag) → HasAll ps first.entry → S.has_given start pieces.old ps
        → IfOk result (λ solo. (all : List Frag) × HasAll all solo × S.has_given start pieces.new all) }
    ensures topo { IfOk result (λ solo. solo.topo.now ≡ first.entry.topo.now) }
{
    let mut solo = first;
    for _ in 0..MOST_BEATS {
        match pieces.next(alloc)? {
            Some(piece) => solo.take(alloc, piece)?,
            None => return Ok(solo),
        }
    }
    Err(Hitch::Fault)
}

/// The report of a fragment whose beats come in pieces, up to the first None. A hitch where memory is refused, a piece can't be had, none
/// comes, more come than a fragment has beats, or they aren't those of one fragment of the topology.
pub fn report_of_pieces<S: Supply>(
    alloc: Global,
    topo: &Topo,
    pieces: &mut S,
) -> Result<Taken, Hitch>
    requires { S.has_given pieces.old pieces.old [] }
    ensures { IfOk result (λ taken. (ps : List Frag) × S.has_given pieces.old pieces.new ps × IsWholeOf topo.now ps taken) }
{
    let Some(first) = pieces.next(alloc)? else {
        return Err(Hitch::Fault);
    };
    let mut solo = Solo::new(alloc, topo, &first)?;
    solo.take(alloc, first)?;
    let whole = rest_taken(alloc, solo, pieces)?;
    Ok(whole.report())
}
