//! Links that are judged apart as their fragments come, and what their managers find in what they tell.

ghost use Rattle.std.specs.Prelude.{◌≡◌, ◌<◌, ◌++◌, ℕ, true, List, [], None, length, slice_get, IfOk, IfSome, IsSome, OnOk, MatchOption};
ghost use Rattle.std.specs.Arc.{arc_value};
ghost use Rattle.std.specs.Fork.{AcceptsEach, ChangesEach};
ghost use Rattle.tl_topology.specs.Topology.{Topology};
ghost use Rattle.tl_definitions.specs.Events.{Event as SpecEvent};
ghost use Rattle.tl_definitions.specs.Positions.{Recorded};
ghost use Rattle.tl_capture.specs.Present.{put_in};
ghost use Rattle.tl_check.specs.Managers.{has_caches};
ghost use Rattle.tl_apart.specs.Apart.{manager_of, rows_in, total, AreListening, AreOpened, AreRowsOf, ComesOn, GoesOn, HasApart, HasComeTo, HaveComeTo};
ghost use Rattle.tl_apart.specs.Apart.{AreWell, HasJudged, IsApart, IsReached, Knows, OfFragments, OfManager};
ghost use Rattle.tl_apart.specs.Feeds.{waiting_of, IsDone, IsFirst, IsNext};
ghost use Rattle.tl_apart.specs.Told.{bare, clients};

use crate::fault::ApartFault;
use crate::feed::{LinkFeed, next_link};
use crate::holders::Holders;
use crate::listener::Listener;
use std::alloc::{AllocError, Global};
use std::sync::Arc;
use std::thread::{Threads, for_each_mut};
use tl_beats::{Fragment, Row};
use tl_check::has_caches;
use tl_client_rules::clients_of;
use tl_topology::Topo;

/// The links of a topology, each judged apart as its fragments come, and the managers, which judge what their links tell in the order of
/// positions. An event waits until all links with caches of its manager have come to its cycle.
#[derive(Drop)]
pub struct Apart {
    topo: Arc<Topo>,
    /// One for each link, by its number.
    feeds: Vec<LinkFeed>,
    /// One for each manager, by its number.
    listeners: Vec<Listener>,
    /// The rows of the managers' rules.
    rows: Vec<Row>,
}

/// The exponent of the blocks of a link's manager, if the topology has the link.
fn block_of(topo: &Topo, link: u16) -> Option<u8>
    ensures exact { IfSome result (λ exponent. exponent ≡ (bare topo.now (manager_of topo.now link)).exponent) }
    ensures there { link < length topo.now.links → IsSome result }
{
    let decl = topo.link(link)?;
    topo.block(decl.manager)
}

/// The links of a topology, of which no fragment came. AllocError where memory is refused.
fn opened(alloc: Global, topo: &Topo) -> Result<Vec<LinkFeed>, AllocError>
    ensures { IfOk result (λ feeds. AreOpened topo.now (length topo.now.links) feeds.items) }
{
    let mut feeds = Vec::new(alloc);
    for link in 0..topo.link_count() {
        let exponent = block_of(topo, link as u16).unwrap();
        feeds.push(LinkFeed::new(alloc, exponent))?;
    }
    Ok(feeds)
}

/// A manager that knows nothing of its links. AllocError where memory is refused.
fn listener_of(alloc: Global, topo: &Topo, manager: u16) -> Result<Listener, AllocError>
    ensures { IfOk result (Knows topo.now manager []) }
{
    let clients = clients_of(alloc, topo, manager)?;
    let holders = Holders::new(alloc, &clients)?;
    Ok(Listener { clients, holders })
}

/// The managers of a topology, which know nothing of their links. AllocError where memory is refused.
fn listening(alloc: Global, topo: &Topo) -> Result<Vec<Listener>, AllocError>
    ensures { IfOk result (λ listeners. AreListening topo.now (length topo.now.managers) listeners.items) }
{
    let mut listeners = Vec::new(alloc);
    for manager in 0..topo.manager_count() {
        listeners.push(listener_of(alloc, topo, manager as u16)?)?;
    }
    Ok(listeners)
}

/// The last cycle of the fragment of a link that came last; None where none came.
fn last_of(feeds: &[LinkFeed], link: u16) -> Option<u64>
    ensures { IfSome result (HasComeTo feeds.now link) }
{
    let newest = feeds.get(usize::from(link))?.newest()?;
    Some(newest.last)
}

/// A cycle to which a link has come, if it has caches; None where it has no fragment. One without caches tells nothing.
fn end_of(topo: &Topo, feeds: &[LinkFeed], link: u16) -> Option<u64>
    ensures { IfSome result (λ cycle. has_caches topo.now link ≡ true → HasComeTo feeds.now link cycle) }
{
    if has_caches(topo, link) {
        last_of(feeds, link)
    } else {
        Some(u64::MAX)
    }
}

/// The cycle to which all of these links that have caches have come; None where one has no fragment.
fn front_of(topo: &Topo, feeds: &[LinkFeed], clients: &[u16]) -> Option<u64>
    ensures { IfSome result (HaveComeTo topo.now feeds.now clients.now) }
{
    let mut front = u64::MAX;
    for client in clients {
        front = front.min(end_of(topo, feeds, *client)?);
    }
    Some(front)
}

/// The rows of the links' own rules, after others.
fn all_rows(feeds: &[LinkFeed], others: Vec<Row>) -> Result<Vec<Row>, AllocError>
    ensures { IfOk result (λ rows. rows.items ≡ others.items ++ rows_in feeds.now) }
{
    let mut rows = others;
    for feed in feeds {
        rows.extend_from_slice(feed.rows())?;
    }
    Ok(rows)
}

impl Apart {
    /// No fragment of a topology came. AllocError where memory is refused.
    pub fn new(alloc: Global, topo: Arc<Topo>) -> Result<Apart, AllocError>
        ensures { IfOk result (HasApart (arc_value topo) []) }
    {
        let feeds = opened(alloc, &topo)?;
        let listeners = listening(alloc, &topo)?;
        Ok(Apart {
            topo,
            feeds,
            listeners,
            rows: Vec::new(alloc),
        })
    }

    /// Judges a fragment on its link, and answers the number of the link's manager. Late where it does not come after those of its link.
    /// Memory where memory is refused: then it is for nothing more.
    fn take(&mut self, alloc: Global, link: u16, fragment: &Fragment) -> Result<u16, ApartFault>
        ensures came { OfFragments self.old (λ topo fs. IfOk result (λ k. (k < length topo.managers)
            × ComesOn topo fragment.now (λ f. HasApart topo (put_in f fs) self.new))) }
    {
        let Some(decl) = self.topo.link(link) else {
            return Err(ApartFault::UnknownLink);
        };
        let Some(feed) = self.feeds.get_mut(usize::from(link)) else {
            return Err(ApartFault::UnknownLink);
        };
        feed.accept(alloc, &self.topo, link, fragment)?;
        Ok(decl.manager)
    }

    /// The cycle to which all links with caches of a manager have come; None where one has no fragment.
    fn front(&self, manager: u16) -> Option<u64>
        ensures { (topo : Topology) (fs : List Recorded) (judged : ℕ → List SpecEvent) → IsApart topo fs judged self.now
            → IfSome result (IsReached topo fs manager) }
    {
        let listener = self.listeners.get(usize::from(manager))?;
        front_of(&self.topo, &self.feeds, &listener.clients)
    }

    /// The link of a manager that tells the next event, where that does not lie after the cycle, if there is one.
    fn next_of(&self, manager: u16, until: Option<u64>) -> Option<u16>
        ensures next { OfManager self.now manager (λ topo _ _. MatchOption result
            (IsDone self.now.feeds.items (clients topo manager) until) (IsNext self.now.feeds.items (clients topo manager) until)) }
        ensures some { IfSome result (λ link. IsSome (slice_get (waiting_of self.now.feeds.items link) 0)) }
    {
        match self.listeners.get(usize::from(manager)) {
            Some(listener) => next_link(&self.feeds, &listener.clients, until),
            None => None,
        }
    }

    /// A manager judges the next event of a link. AllocError where memory is refused: then it is for nothing more.
    fn judge_next(&mut self, manager: u16, link: u16) -> Result<(), AllocError>
        ensures next { OfManager self.old manager (λ topo fs judged. IsFirst self.old.feeds.items (clients topo manager) link
            → OnOk result (HasJudged topo fs judged self.old self.new manager link)) }
        ensures fewer { OnOk result (IsSome (slice_get (waiting_of self.old.feeds.items link) 0) → total self.new.feeds.items < total self.old.feeds.items) }
    {
        let Some(feed) = self.feeds.get_mut(usize::from(link)) else {
            return Ok(());
        };
        let Some(event) = feed.take_next() else {
            return Ok(());
        };
        let Some(listener) = self.listeners.get_mut(usize::from(manager)) else {
            return Ok(());
        };
        listener.holders.step(&event, &mut self.rows)?;
        Ok(())
    }

    /// A manager judges the events of its links that don't lie after the cycle, if there is one, in the order of positions. AllocError where memory is
    /// refused: then it is for nothing more.
    fn judge_to(&mut self, manager: u16, until: Option<u64>) -> Result<(), AllocError>
        ensures on { OfManager self.old manager (λ topo fs judged. OnOk result ((later : ℕ → List SpecEvent)
            × GoesOn topo fs manager until judged later self.old self.new × IsDone self.new.feeds.items (clients topo manager) until)) }
    {
        while let Some(link) = self.next_of(manager, until) {
            self.judge_next(manager, link)?;
        }
        Ok(())
    }

    /// A manager judges what no later fragment comes before. AllocError where memory is refused: then it is for nothing more.
    fn catch_up(&mut self, manager: u16) -> Result<(), AllocError>
        ensures { OfFragments self.old (λ topo fs. manager < length topo.managers → OnOk result (HasApart topo fs self.new)) }
    {
        match self.front(manager) {
            Some(front) => self.judge_to(manager, Some(front)),
            None => Ok(()),
        }
    }

    /// Takes the next fragment, which comes after those of its link: judges it there, and has its manager judge what no later fragment comes
    /// before. A fault where the topology lacks its link, where it does not come after those of its link, and where memory is refused; at
    /// want of memory it is for nothing more.
    pub fn accept(&mut self, alloc: Global, fragment: &Fragment) -> Result<(), ApartFault>
        ensures { OfFragments self.old (λ topo fs. OnOk result (ComesOn topo fragment.now (λ f. HasApart topo (put_in f fs) self.new))) }
    {
        let Some(link) = self.topo.link_of(&fragment.link()) else {
            return Err(ApartFault::UnknownLink);
        };
        let manager = self.take(alloc, link, fragment)?;
        self.catch_up(manager)?;
        Ok(())
    }

    /// Each manager judges what no later fragment comes before. AllocError where memory is refused: then it is for nothing more.
    pub fn catch_up_all(&mut self) -> Result<(), AllocError>
        ensures { OfFragments self.old (λ topo fs. OnOk result (HasApart topo fs self.new)) }
    {
        for manager in 0..self.topo.manager_count() {
            self.catch_up(manager as u16)?;
        }
        Ok(())
    }

    /// Has threads change the links' feeds, at most so many at a time; each is changed by one of them, which is given its number.
    pub fn beside<R: Threads + Sync, F: Fn(usize, &mut LinkFeed) + Sync>(
        &mut self,
        rt: &R,
        threads: usize,
        change: &F,
    )
        requires threads { 0 < threads }
        requires accepts { AcceptsEach F.Fn change.now self.old.feeds.items }
        ensures changes { ChangesEach F.Fn change.now self.old.feeds.items self.new.feeds.items }
        ensures many { length self.new.feeds.items ≡ length self.old.feeds.items }
        ensures rest { self.new ≡ record self.old { feeds = self.new.feeds } }
    {
        for_each_mut(rt, &mut self.feeds, threads, change);
    }

    /// Why a link's feed is for nothing more, if one is: that of the first such.
    pub fn fault(&self) -> Option<ApartFault>
        ensures { result ≡ None → AreWell self.now.feeds.items }
    {
        self.feeds.iter().find_map(|feed| feed.fault())
    }

    /// How many fragments came; None where they can't be counted.
    pub fn count(&self) -> Option<u64>
        ensures { OfFragments self.now (λ _ fs. IfSome result (λ count. count ≡ length fs)) }
    {
        let mut count: u64 = 0;
        for feed in &self.feeds {
            count = count.checked_add(feed.count())?;
        }
        Some(count)
    }

    /// The rows of the report of the fragments that came, in any order. AllocError where memory is refused.
    pub fn rows(self) -> Result<Vec<Row>, AllocError>
        ensures { OfFragments self (λ topo fs. IfOk result (λ rows. AreRowsOf topo fs rows.items)) }
    {
        let mut apart = self;
        let count = apart.topo.manager_count();
        for manager in 0..count {
            apart.judge_to(manager as u16, None)?;
        }
        let Apart { feeds, rows, .. } = apart;
        let rows = all_rows(&feeds, rows)?;
        Ok(rows)
    }
}
