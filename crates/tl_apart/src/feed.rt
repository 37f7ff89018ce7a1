//! One link that is judged apart, and what it told that its manager has not judged yet.

ghost use Rattle.std.specs.Prelude.{◌≡◌, ◌∷◌, ◌++◌, ◌+◌, [], Some, false, slice_get, IfSome, IsSome, MatchOption, OnOk};
ghost use Rattle.std.specs.Option.{option_map, option_map_or};
ghost use Rattle.tl_topology.specs.Topology.{IsSound};
ghost use Rattle.tl_definitions.specs.Events.{link_events};
ghost use Rattle.tl_definitions.specs.LinkPasses.{link_judging};
ghost use Rattle.tl_definitions.specs.Passes.{rows_judged, left_after};
ghost use Rattle.tl_definitions.specs.Positions.{placed_beats};
ghost use Rattle.tl_capture.specs.Present.{recorded, IsCapture};
ghost use Rattle.tl_check.specs.Apart.{opening};
ghost use Rattle.tl_apart.specs.Beside.{Takes};
ghost use Rattle.tl_apart.specs.Events.{said};
ghost use Rattle.tl_apart.specs.Feeds.{waiting_of, first_of, placed, comes_after, newest_with, AreOwn, AreSilent, IsDone, IsFirst, IsNew, IsNext, lies_by};
ghost use Rattle.tl_apart.specs.LinkJudge.{Shows, ForShown};

use crate::event::Event;
use crate::fault::ApartFault;
use crate::link_judge::{Findings, LinkJudge, Terms};
use crate::order::lies_before;
use std::alloc::Global;
use std::collections::VecDeque;
use std::marker::Model;
use tl_beats::{Fragment, Placed, Row};
use tl_topology::{RegionMap, Topo};

/// The fragment of a link that came last.
#[derive(Clone, Copy, Debug, PartialEq, Eq)]
pub(crate) struct Newest {
    /// Its number.
    pub(crate) number: u32,
    /// The last cycle of its range.
    pub(crate) last: u64,
}

/// A link that is judged apart.
#[derive(Drop)]
pub struct LinkFeed {
    judge: LinkJudge,
    /// The rows of its own rules, and what it told that its manager has not judged.
    found: Findings,
    newest: Option<Newest>,
    /// How many fragments came.
    count: u64,
    /// Why it is for nothing more, if it is.
    fault: Option<ApartFault>,
}

impl Model for LinkFeed {
    ghost use Rattle.std.specs.Coded.{codes};
    ghost use Rattle.std.specs.Prelude.{map};
    ghost use Rattle.tl_apart.specs.contracts.link_judge.LinkJudge as link_judge;
    ghost use Rattle.tl_apart.specs.Events.{said};
    ghost use Rattle.tl_apart.specs.FeedData.{FeedData};
    ghost use Rattle.tl_apart.specs.LinkJudge.{AreFormed};

    ghost Value = { FeedData };

    ghost coded = { Prim.hlevel (codes, link_judge.the_row.coded) };

    ghost view = { λ f. record { judge = f.judge; waiting = map said f.found.events.items; rows = f.found.rows.items; newest = f.newest; count = f.count; fault = f.fault } };

    ghost invariant = { λ f. AreFormed f.judge };
}

impl LinkFeed {
    /// No fragment of a link came. A block of its manager has 2 to the exponent bytes.
    pub(crate) fn new(alloc: Global, exponent: u8) -> LinkFeed
        ensures shows { Shows exponent result.judge (opening exponent) }
        ensures nothing { IsNew result }
    {
        LinkFeed {
            judge: LinkJudge::new(alloc, exponent),
            found: Findings {
                rows: Vec::new(alloc),
                events: VecDeque::new(alloc),
            },
            newest: None,
            count: 0,
            fault: None,
        }
    }

    /// The fragment that came last.
    pub(crate) fn newest(&self) -> Option<Newest>
        ensures { result ≡ self.now.newest }
    {
        self.newest
    }

    /// How many fragments came.
    pub(crate) fn count(&self) -> u64
        ensures { result ≡ self.now.count }
    {
        self.count
    }

    /// Why it is for nothing more, if it is.
    pub(crate) fn fault(&self) -> Option<ApartFault>
        ensures { result ≡ self.now.fault }
    {
        self.fault
    }

    /// It is for nothing more.
    pub fn fail(&mut self, fault: ApartFault)
        ensures { self.new.fault ≡ Some fault }
    {
        self.fault = Some(fault);
    }

    /// The rows of its own rules.
    pub(crate) fn rows(&self) -> &[Row]
        ensures { result.now ≡ self.now.rows }
    {
        self.found.rows.as_slice()
    }

    /// Whether a fragment comes after all that came, by its number and its range.
    fn is_before(&self, fragment: &Fragment) -> bool
        ensures { result ≡ comes_after self.now.newest fragment.now }
    {
        match self.newest {
            Some(newest) => { newest.number < fragment.number() && newest.last < fragment.first() }
            None => true,
        }
    }

    /// Judges the next fragment: keeps the rows of its link's own rules; what it tells waits for the manager. Memory where memory is
    /// refused: then it is for nothing more.
    fn take(
        &mut self,
        alloc: Global,
        terms: &Terms<'_>,
        link: u16,
        fragment: &Fragment,
    ) -> Result<(), ApartFault>
        requires decl { IsSound terms.now.decl.now }
        ensures rows { ForShown terms.now link self.old.judge (λ m s. OnOk result (self.new.rows
            ≡ self.old.rows ++ rows_judged (link_judging m) s (placed_beats (recorded link fragment.now)))) }
        ensures next { ForShown terms.now link self.old.judge (λ m s. OnOk result
            (Shows terms.now.exponent self.new.judge (left_after (link_judging m) s (placed_beats (recorded link fragment.now))))) }
        ensures waiting { ForShown terms.now link self.old.judge (λ m s. OnOk result (self.new.waiting
            ≡ self.old.waiting ++ link_events m s (placed_beats (recorded link fragment.now)))) }
        ensures newest { OnOk result (self.new.newest ≡ Some (newest_with fragment.now)) }
        ensures count { OnOk result (self.new.count ≡ self.old.count + 1) }
        ensures capture { OnOk result (IsCapture (recorded link fragment.now)) }
    {
        let Some(count) = self.count.checked_add(1) else {
            return Err(ApartFault::Memory);
        };
        self.judge
            .judge(alloc, terms, link, fragment, &mut self.found)?;
        // Its beats lie in its range.
        let _ = fragment.beats();
        self.newest = Some(Newest {
            number: fragment.number(),
            last: fragment.last(),
        });
        self.count = count;
        Ok(())
    }

    /// Takes the next fragment of a link of a topology, which comes after those before: judges it there, and what it tells waits for the
    /// link's manager. A fault where the topology lacks the link, where the fragment is of another link or does not come after those
    /// before, and where memory is refused; at want of memory it is for nothing more.
    pub fn accept(
        &mut self,
        alloc: Global,
        topo: &Topo,
        link: u16,
        fragment: &Fragment,
    ) -> Result<(), ApartFault>
        ensures { OnOk result (Takes topo.now link fragment.now self.old self.new) }
    {
        let Some(own) = topo.link_of(&fragment.link()) else {
            return Err(ApartFault::UnknownLink);
        };
        if own != link {
            return Err(ApartFault::UnknownLink);
        }
        let Some(decl) = topo.link(link) else {
            return Err(ApartFault::UnknownLink);
        };
        let Some(exponent) = topo.block(decl.manager) else {
            return Err(ApartFault::UnknownLink);
        };
        if !self.is_before(fragment) {
            return Err(ApartFault::Late);
        }
        let none = RegionMap::new(alloc);
        let terms = Terms {
            decl,
            exponent,
            regions: &none,
        };
        self.take(alloc, &terms, link, fragment)?;
        Ok(())
    }

    /// The next event that waits.
    pub(crate) fn next(&self) -> Option<&Event>
        ensures { option_map (λ e. said e.now) result ≡ slice_get self.now.waiting 0 }
    {
        self.found.events.front()
    }

    /// Takes the next event that waits.
    pub(crate) fn take_next(&mut self) -> Option<Event>
        ensures next { MatchOption result (self.old.waiting ≡ []) (λ e. self.old.waiting ≡ said e ∷ self.new.waiting) }
        ensures rest { self.new ≡ record self.old { waiting = self.new.waiting } }
    {
        self.found.events.pop_front()
    }
}

/// The next event of a link.
pub(crate) fn next_of(feeds: &[LinkFeed], link: u16) -> Option<&Event>
    ensures { option_map (λ e. said e.now) result ≡ slice_get (waiting_of feeds.now link) 0 }
{
    match feeds.get(usize::from(link)) {
        Some(feed) => feed.next(),
        None => None,
    }
}

/// That of two links whose next event lies first: this, or the one before.
fn first_of<'a>(
    first: Option<(u16, &'a Placed)>,
    link: u16,
    next: Option<&'a Event>,
) -> Option<(u16, &'a Placed)>
    ensures { placed result ≡ first_of (placed first.entry) link (option_map (λ e. said e.now) next.entry) }
{
    match (first, next) {
        (None, Some(event)) => Some((link, &event.place)),
        (Some((_, place)), Some(event)) if lies_before(&event.place, place) => {
            Some((link, &event.place))
        }
        _ => first,
    }
}

/// The link among those of a manager whose next event lies first; None where none has one.
pub(crate) fn first_link(feeds: &[LinkFeed], clients: &[u16]) -> Option<u16>
    ensures { AreOwn feeds.now clients.now → MatchOption result (AreSilent feeds.now clients.now) (IsFirst feeds.now clients.now) }
{
    let mut first: Option<(u16, &Placed)> = None;
    for client in clients {
        first = first_of(first, *client, next_of(feeds, *client));
    }
    match first {
        Some((link, _)) => Some(link),
        None => None,
    }
}

/// Whether a link tells an event next that does not lie after the cycle, if there is one.
fn tells_by(feeds: &[LinkFeed], link: u16, until: Option<u64>) -> bool
    ensures { result ≡ option_map_or (λ e. lies_by until e.place.beat.cycle) (slice_get (waiting_of feeds.now link) 0) false }
{
    match (next_of(feeds, link), until) {
        (Some(event), Some(cycle)) => event.place.beat.cycle <= cycle,
        (Some(_), None) => true,
        (None, _) => false,
    }
}

/// The link among those of a manager whose next event lies first, where that does not lie after the cycle, if there is one.
pub(crate) fn next_link(feeds: &[LinkFeed], clients: &[u16], until: Option<u64>) -> Option<u16>
    ensures next { AreOwn feeds.now clients.now
        → MatchOption result (IsDone feeds.now clients.now until) (IsNext feeds.now clients.now until) }
    ensures some { IfSome result (λ link. IsSome (slice_get (waiting_of feeds.now link) 0)) }
{
    match first_link(feeds, clients) {
        Some(link) if tells_by(feeds, link, until) => Some(link),
        _ => None,
    }
}
