//! What the beats of a manager leave for those that come.

ghost use Rattle.std.specs.Prelude.{◌≡◌, ◌<◌, ◌≤◌, ◌++◌, ℕ, List, [], None, Some, length, take, IfSome, IfOk, OnOk};
ghost use Rattle.std.specs.Bool.{Decides};
ghost use Rattle.tl_topology.specs.Regions.{Area, areas_of};
ghost use Rattle.tl_topology.specs.Topology.{IsSound};
ghost use Rattle.tl_beats.specs.Beats.{IsWellFormed};
ghost use Rattle.tl_definitions.specs.Heads.{message_of};
ghost use Rattle.tl_definitions.specs.Judging.{judged_next, judged_rules};
ghost use Rattle.tl_definitions.specs.Managers.{manager_at};
ghost use Rattle.tl_definitions.specs.Positions.{placed_from};
ghost use Rattle.tl_definitions.specs.Rules.{Manager};
ghost use Rattle.tl_client_rules.specs.Clients.{place_of};
ghost use Rattle.tl_client_rules.specs.Manager as managers;
ghost use Rattle.tl_client_rules.specs.Manager.{AreSettled};
ghost use Rattle.tl_same.specs.SameItems.{SameItems};
ghost use Rattle.tl_check.specs.Links.{SameLink, AreOpening};
ghost use Rattle.tl_link_rules.specs.Flow.{answered_in};
ghost use Rattle.tl_check.specs.Runs.{HasRun};
ghost use Rattle.tl_check.specs.States.{shown, rows_at, burst_at, flow_at, HasLink, IsOf, StandsFor, SameSpan, AreFormed, Serves};

use crate::links::LinkState;
use crate::rows::add_rows;
use std::alloc::{AllocError, Global};
use tl_beats::{Beat, Placed, Request, Row};
use tl_client_rules::ManagerState;
use tl_link_rules::{check_head, check_later, keeps_burst, keeps_format};
use tl_same::Same;
use tl_tables::{Chan, Op, op_of};
use tl_topology::{LinkDecl, RegionMap, Topo};

/// All that the beats of a manager so far leave for those that come: for each link what is unfinished and in flight, for each
/// client what it can hold and what is open on it. Two states of one manager are the same (`is_same`) exactly where they show
/// the same.
#[derive(Drop)]
pub struct SpanState {
    /// One for each link of the manager, in the order of their numbers.
    links: Vec<LinkState>,
    clients: ManagerState,
}

/// A head that is seen to break no rule: its message, and the request that it answers.
#[derive(Clone, Copy, Debug, PartialEq, Eq)]
struct CleanHead {
    op: Op,
    request: Option<Request>,
}

/// The states of so many links without beats.
fn opening_links(alloc: Global, count: usize) -> Result<Vec<LinkState>, AllocError>
    ensures { IfOk result (λ links. (length links.items ≡ count) × AreOpening links.items) }
{
    let mut links = Vec::new(alloc);
    links.reserve_exact(count)?;
    for _ in 0..count {
        links.push(LinkState::new(alloc))?;
    }
    Ok(links)
}

/// States that show the same.
fn copied_links(alloc: Global, links: &[LinkState]) -> Result<Vec<LinkState>, AllocError>
    ensures { IfOk result (λ copies. SameItems SameLink links.now copies.items) }
{
    let mut copies = Vec::new(alloc);
    copies.reserve_exact(links.len())?;
    for link in links {
        copies.push(link.copy()?)?;
    }
    Ok(copies)
}

impl SpanState {
    /// The state of a manager before all its beats. AllocError where memory is refused.
    #[tactic(auto, using(crate::proofs::StateLaws::opening_stands))]
    pub fn opening(alloc: Global, topo: &Topo, manager: u16) -> Result<SpanState, AllocError>
        requires manager { manager < length topo.now.managers }
        ensures { (regions : List Area) → IfOk result (λ state. StandsFor (manager_at topo.now manager regions) state []) }
    {
        let clients = ManagerState::new(alloc, topo, manager)?;
        let links = opening_links(alloc, clients.count())?;
        Ok(SpanState { links, clients })
    }

    /// The place of a link of the manager.
    fn place(&self, link: u16) -> usize
        requires { HasLink self.now link }
        ensures at { place_of link (managers.shown self.now.clients).clients ≡ Some result }
        ensures within { result < length self.now.links.items }
    {
        self.clients.place(link).unwrap()
    }

    /// Judges the manager's next beat by what the state shows: puts the rows of what it breaks at the end, and the state then
    /// shows what is left with it. AllocError where memory is refused: then state and rows may have part of the beat, and are
    /// for nothing more.
    pub(crate) fn step(
        &mut self,
        alloc: Global,
        decl: &LinkDecl,
        exponent: u8,
        regions: &RegionMap,
        at: &Placed,
        rows: &mut Vec<Row>,
    ) -> Result<(), AllocError>
        requires decl { IsSound decl.now }
        requires beat { IsWellFormed at.now.beat }
        requires link { HasLink self.old at.now.link }
        requires formed { AreFormed self.old }
        ensures rows { (m : Manager) → IsOf m self.old → Serves m at.now.link decl.now exponent (areas_of regions.now)
            → OnOk result (rows.new.items ≡ rows.old.items ++ rows_at m self.old at.now) }
        ensures next { (m : Manager) → IsOf m self.old → Serves m at.now.link decl.now exponent (areas_of regions.now)
            → OnOk result (IsOf m self.new × (shown self.new ≡ judged_next m (shown self.old) at.now)) }
    {
        let place = self.place(at.link);
        match self.links[place].bursts.head(at.beat.chan) {
            Some(head) => {
                if keeps_burst(head, &at.beat) {
                    self.links[place].go_on(decl, &at.beat);
                    return Ok(());
                }
                let later = check_later(alloc, decl, head, &at.beat);
                self.links[place].go_on(decl, &at.beat);
                add_rows(rows, at, &later)
            }
            None => self.step_head(alloc, decl, exponent, regions, at, rows),
        }
    }

    /// Goes on with the beats at the front of these, of a link of the manager, that belong to the burst which is unfinished on a channel, and
    /// are seen to break no rule; answers how many they are.
    pub(crate) fn run(&mut self, link: u16, chan: Chan, beats: &[Beat]) -> usize
        requires link { HasLink self.old link }
        ensures within { result ≤ length beats.now }
        ensures run { (m : Manager) (fragment line : ℕ) → IsOf m self.old
            → HasRun m self.old self.new (placed_from link fragment line (take result beats.now)) }
    {
        let place = self.place(link);
        self.links[place].bursts.run(chan, beats)
    }

    /// The same as `step` where the beat is a head. Most heads are seen to break no rule, and then no list of rules is made.
    fn step_head(
        &mut self,
        alloc: Global,
        decl: &LinkDecl,
        exponent: u8,
        regions: &RegionMap,
        at: &Placed,
        rows: &mut Vec<Row>,
    ) -> Result<(), AllocError>
        requires decl { IsSound decl.now }
        requires beat { IsWellFormed at.now.beat }
        requires link { HasLink self.old at.now.link }
        requires head { burst_at self.old at.now.link at.now.beat.chan ≡ None }
        ensures rows { (m : Manager) → IsOf m self.old → Serves m at.now.link decl.now exponent (areas_of regions.now)
            → OnOk result (rows.new.items ≡ rows.old.items ++ rows_at m self.old at.now) }
        ensures next { (m : Manager) → IsOf m self.old → Serves m at.now.link decl.now exponent (areas_of regions.now)
            → OnOk result (IsOf m self.new × (shown self.new ≡ judged_next m (shown self.old) at.now)) }
    {
        let place = self.place(at.link);
        match self.clean_head(place, decl, exponent, regions, at) {
            Some(clean) => self.pass(place, decl, at, &clean),
            None => self.judge_head(alloc, decl, exponent, regions, at, rows),
        }
    }

    /// What a head of the link at a place is that is seen to break no rule. None says nothing.
    fn clean_head(
        &self,
        place: usize,
        decl: &LinkDecl,
        exponent: u8,
        regions: &RegionMap,
        at: &Placed,
    ) -> Option<CleanHead>
        requires decl { IsSound decl.now }
        requires beat { IsWellFormed at.now.beat }
        requires link { HasLink self.now at.now.link }
        requires place { place_of at.now.link (managers.shown self.now.clients).clients ≡ Some place }
        requires within { place < length self.now.links.items }
        requires head { burst_at self.now at.now.link at.now.beat.chan ≡ None }
        ensures message { IfSome result (λ clean. message_of decl.now at.now.beat ≡ Some clean.op) }
        ensures request { IfSome result (λ clean. clean.request ≡ answered_in (flow_at self.now at.now.link) at.now.beat (message_of decl.now at.now.beat)) }
        ensures rules { (m : Manager) → IsOf m self.now → Serves m at.now.link decl.now exponent (areas_of regions.now)
            → IfSome result (λ _. judged_rules m (shown self.now) at.now ≡ []) }
    {
        let op = op_of(decl.level, at.beat.chan, at.beat.opcode)?;
        if !keeps_format(decl, exponent, regions, op, &at.beat) {
            return None;
        }
        let flow = &self.links[place].flow;
        let request = flow.request_of(op, &at.beat);
        if !flow.keeps_flow(op, &at.beat, &request) {
            return None;
        }
        if !self
            .clients
            .keeps_rules(at.link, place, decl, op, &at.beat, request)
        {
            return None;
        }
        Some(CleanHead { op, request })
    }

    /// The state with a head of the link at a place with this message, which answers this request. AllocError where memory is refused: then
    /// the state may have part of the head, and is for nothing more.
    fn pass(
        &mut self,
        place: usize,
        decl: &LinkDecl,
        at: &Placed,
        clean: &CleanHead,
    ) -> Result<(), AllocError>
        requires decl { IsSound decl.now }
        requires beat { IsWellFormed at.now.beat }
        requires link { HasLink self.old at.now.link }
        requires place { place_of at.now.link (managers.shown self.old.clients).clients ≡ Some place }
        requires within { place < length self.old.links.items }
        requires head { burst_at self.old at.now.link at.now.beat.chan ≡ None }
        requires message { message_of decl.now at.now.beat ≡ Some clean.now.op }
        requires request { clean.now.request ≡ answered_in (flow_at self.old at.now.link) at.now.beat (message_of decl.now at.now.beat) }
        ensures { (m : Manager) → IsOf m self.old → m.links at.now.link ≡ decl.now
            → OnOk result (IsOf m self.new × (shown self.new ≡ judged_next m (shown self.old) at.now)) }
    {
        self.links[place].pass(decl, clean.op, &at.beat)?;
        self.clients
            .pass(place, decl, clean.op, &at.beat, clean.request)
    }

    /// Judges a head as `step_head` does, with a list of the rules of each kind.
    #[cold]
    #[inline(never)]
    fn judge_head(
        &mut self,
        alloc: Global,
        decl: &LinkDecl,
        exponent: u8,
        regions: &RegionMap,
        at: &Placed,
        rows: &mut Vec<Row>,
    ) -> Result<(), AllocError>
        requires decl { IsSound decl.now }
        requires beat { IsWellFormed at.now.beat }
        requires link { HasLink self.old at.now.link }
        requires head { burst_at self.old at.now.link at.now.beat.chan ≡ None }
        ensures rows { (m : Manager) → IsOf m self.old → Serves m at.now.link decl.now exponent (areas_of regions.now)
            → OnOk result (rows.new.items ≡ rows.old.items ++ rows_at m self.old at.now) }
        ensures next { (m : Manager) → IsOf m self.old → Serves m at.now.link decl.now exponent (areas_of regions.now)
            → OnOk result (IsOf m self.new × (shown self.new ≡ judged_next m (shown self.old) at.now)) }
    {
        let place = self.place(at.link);
        let answer = self.links[place].begin(alloc, decl, &at.beat)?;
        let format = check_head(alloc, decl, exponent, regions, &at.beat);
        let request = answer.request.as_ref();
        let clients = self.clients.step(alloc, at.link, decl, &at.beat, request)?;
        add_rows(rows, at, &format)?;
        add_rows(rows, at, &answer.rules)?;
        add_rows(rows, at, &clients)
    }

    /// A state that shows the same, and so is one for the same manager. AllocError where memory is refused.
    pub fn copy(&self, alloc: Global) -> Result<SpanState, AllocError>
        ensures same { IfOk result (SameSpan self.now) }
        ensures kept { (m : Manager) → IsOf m self.now → IfOk result (IsOf m) }
    {
        Ok(SpanState {
            links: copied_links(alloc, &self.links)?,
            clients: self.clients.copy(alloc)?,
        })
    }

    /// Settles what the clients can hold, so that copies of the state share it, and cost what is unfinished and in flight and
    /// what is set from then on. What the state shows stays the same, at want of memory too.
    #[tactic(auto, using(crate::proofs::StateLaws::same_clients))]
    pub fn settle(&mut self) -> Result<(), AllocError>
        ensures same { SameSpan self.old self.new }
        ensures kept { (m : Manager) → IsOf m self.old → IsOf m self.new }
        ensures settled { OnOk result (AreSettled self.new.clients) }
    {
        self.clients.settle()
    }
}

impl Same for SpanState {
    ghost same = { SameSpan };

    fn is_same(&self, other: &Self) -> bool {
        self.links.is_same(&other.links) && self.clients.is_same(&other.clients)
    }
}
