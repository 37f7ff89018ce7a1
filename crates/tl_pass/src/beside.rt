//! Links whose fragments several threads take beside each other.

ghost use Rattle.std.specs.Prelude.{◌≡◌, ◌<◌, ◌++◌, ℕ, List, [], None, length, IfOk, OnOk};
ghost use Rattle.std.specs.Arc.{arc_value};
ghost use Rattle.std.specs.List.{flat_map};
ghost use Rattle.tl_topology.specs.Topology.{Topology};
ghost use Rattle.tl_beats.specs.Fragments.{Frag};
ghost use Rattle.tl_apart.specs.Beside.{Follows};
ghost use Rattle.tl_apart.specs.FeedData.{FeedData};
ghost use Rattle.tl_pass.specs.Beside.{AreFilled, Filled, IsBeside, IsRound};
ghost use Rattle.tl_pass.specs.Reports.{with_next, IsTaken};

use crate::pass::{Found, Hitch};
use crate::supply::{Supply, Taken};
use std::alloc::{AllocError, Global};
use std::sync::Arc;
use std::thread::Threads;
use tl_apart::{Apart, ApartFault, LinkFeed};
use tl_beats::Fragment;
use tl_check::sort_rows;
use tl_topology::Topo;

/// Where the fragments of links come from, in rounds. In each round one thread asks for those of a link.
pub trait Lanes {
    // In a round it gives these fragments of a link.
    ghost gives: { Self → ℕ → ℕ → List Frag → Type 0 };

    /// Has the feed of a link take the link's fragments of a round, one after the other. A hitch where memory is refused, and where one
    /// can't be had or is not taken: then the feed is for nothing more.
    fn fill(
        &self,
        alloc: Global,
        topo: &Topo,
        round: usize,
        link: u16,
        feed: &mut LinkFeed,
    ) -> Result<(), Hitch>
        ensures { OnOk result ((fs : List Frag) × gives self.now round link fs × Follows topo.now link fs feed.old feed.new) };
}

/// Has the feed of a link take the next fragment, where it isn't passed over.
fn feed_next(
    alloc: Global,
    topo: &Topo,
    link: u16,
    next: Option<Arc<Fragment>>,
    feed: &mut LinkFeed,
) -> Result<(), Hitch>
    ensures { (fs : List Frag) (first : FeedData) → Follows topo.now link fs first feed.old
        → OnOk result (Follows topo.now link (with_next fs next) first feed.new) }
{
    match next {
        Some(fragment) => {
            feed.accept(alloc, topo, link, &fragment)?;
            Ok(())
        }
        None => Ok(()),
    }
}

/// Has the feed of a link take those of the next so many fragments that are not passed over. A hitch where memory is refused, and where
/// a fragment can't be had, is of another link or does not come after those before: then the feed is for nothing more.
pub fn feed_all<S: Supply>(
    alloc: Global,
    topo: &Topo,
    link: u16,
    count: usize,
    supply: &mut S,
    feed: &mut LinkFeed,
) -> Result<(), Hitch>
    requires { S.has_given supply.old supply.old [] }
    ensures { OnOk result ((fs : List Frag) × S.has_given supply.old supply.new fs × Follows topo.now link fs feed.old feed.new) }
{
    for _ in 0..count {
        let next = supply.next(alloc)?;
        feed_next(alloc, topo, link, next, feed)?;
    }
    Ok(())
}

/// Why a link's feed is for nothing more where its fragments can't be had.
fn fault_of(hitch: Hitch) -> ApartFault {
    match hitch {
        Hitch::Memory => ApartFault::Memory,
        Hitch::Fault => ApartFault::Late,
    }
}

/// Has the feed at a place take its link's fragments of a round. Where that fails, it is for nothing more.
fn fill_one<L: Lanes>(
    alloc: Global,
    topo: &Topo,
    round: usize,
    lanes: &L,
    place: usize,
    feed: &mut LinkFeed,
)
    ensures { Filled (L.gives lanes.now round) topo.now place feed.old feed.new }
{
    let Ok(link) = u16::try_from(place) else {
        feed.fail(ApartFault::UnknownLink);
        return;
    };
    if let Err(hitch) = lanes.fill(alloc, topo, round, link, feed) {
        feed.fail(fault_of(hitch));
    }
}

/// Has threads fill the feeds of all links, at most so many at a time.
fn fill_all<R: Threads + Sync + AllocGlobal, L: Lanes + Sync>(
    rt: &R,
    topo: &Topo,
    round: usize,
    lanes: &L,
    threads: usize,
    apart: &mut Apart,
)
    requires { 0 < threads }
    ensures feeds { AreFilled (L.gives lanes.now round) topo.now apart.old.feeds.items apart.new.feeds.items }
    ensures rest { apart.new ≡ record apart.old { feeds = apart.new.feeds } }
{
    let alloc = rt.alloc();
    let fill = |place: usize, feed: &mut LinkFeed|
        ensures { Filled (L.gives lanes.entry.now round) topo.entry.now place feed.entry.now feed.exit.now }
    { fill_one(alloc, topo, round, lanes, place, feed) };
    apart.beside(rt, threads, &fill);
}

/// Links of a topology whose fragments several threads take beside each other, each link's one after the other.
#[derive(Drop)]
pub struct Beside {
    topo: Arc<Topo>,
    apart: Apart,
}

impl Beside {
    /// No fragment of a topology came. AllocError where memory is refused.
    pub fn new(alloc: Global, topo: &Topo) -> Result<Beside, AllocError>
        ensures { IfOk result (IsBeside topo.now []) }
    {
        let own = Arc::new(alloc, topo.copy(alloc)?)?;
        let apart = Apart::new(alloc, Arc::try_clone(&own)?)?;
        Ok(Beside { topo: own, apart })
    }

    /// Takes the fragments of a round, by at most so many threads at a time, and judges what no later fragment comes before. A hitch where
    /// memory is refused, and where a fragment can't be had or is not taken: then it is for nothing more.
    pub fn round<R: Threads + Sync + AllocGlobal, L: Lanes + Sync>(
        &mut self,
        rt: &R,
        threads: usize,
        round: usize,
        lanes: &L,
    ) -> Result<(), Hitch>
        requires { 0 < threads }
        ensures { (topo : Topology) (fs : List Frag) → IsBeside topo fs self.old
            → OnOk result (IsRound (L.gives lanes.now round) topo (λ each. IsBeside topo (fs ++ flat_map (λ own. own) each) self.new)) }
    {
        fill_all(rt, &self.topo, round, lanes, threads, &mut self.apart);
        if let Some(fault) = self.apart.fault() {
            return Err(fault.into());
        }
        self.apart.catch_up_all()?;
        Ok(())
    }

    /// The report of the fragments that came. A hitch where memory is refused.
    pub fn report(self) -> Result<Taken, Hitch>
        ensures { (topo : Topology) (fs : List Frag) → IsBeside topo fs self → IfOk result (IsTaken None topo fs) }
    {
        let Some(fragments) = self.apart.count() else {
            return Err(Hitch::Memory);
        };
        let rows = self.apart.rows()?;
        Ok(Taken {
            fragments,
            found: Found {
                rows: sort_rows(rows),
                lead_ins: 0,
            },
        })
    }
}
