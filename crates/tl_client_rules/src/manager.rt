//! What all clients of a manager can hold, and the rules of a head over all of them.

ghost use Rattle.std.specs.Prelude.{◌≡◌, ◌<◌, ◌≤◌, ◌+◌, ◌++◌, ◌∷◌, ℕ, List, [], Some, true, false, filter, length, nat_lt, is_some, slice_index_or, IfOk, OnOk, OnErr};
ghost use Rattle.std.specs.Bool.{Decides};
ghost use Rattle.std.specs.Option.{option_copied};
ghost use Rattle.std.specs.List.{AllByRecursion, list_any};
ghost use Rattle.tl_tables.specs.Kinds.{conflicts};
ghost use Rattle.tl_tables.specs.declared.Perm.TheVariants.{Trunk};
ghost use Rattle.tl_topology.specs.Regions.{Area};
ghost use Rattle.tl_definitions.specs.Positions.{clients_of};
ghost use Rattle.tl_definitions.specs.Managers.{declared_links, manager_at};
ghost use Rattle.tl_definitions.specs.Heads.{message_of};
ghost use Rattle.tl_definitions.specs.Rules.{Manager, breaks_manager, manager_order, conflicts_with_other};
ghost use Rattle.tl_same.specs.SameItems.{SameItems};
ghost use Rattle.tl_client_rules.specs.Client as client_state;
ghost use Rattle.tl_client_rules.specs.Client.{head_with, SameClient};
ghost use Rattle.tl_client_rules.specs.Bounds.{IsSettled};
ghost use Rattle.tl_client_rules.specs.declared.client.ClientState.{ClientState};
ghost use Rattle.tl_client_rules.specs.Manager.{SameManager, AreSettled};

use crate::clients::Clients;
use crate::{ClientState, block_of, claim, granted_block};
use std::alloc::{AllocError, Global};
use tl_beats::{Beat, Request};
use tl_link_rules::RuleList;
use tl_same::Same;
use tl_tables::{Op, Perm, Rule, is_grant, is_probe, op_of};
use tl_topology::{LinkDecl, Topo};

/// What all clients of a manager can hold, and what is open on their links. [TileLink 1.8: coherence]
#[derive(Drop)]
pub struct ManagerState {
    /// A block has 2 to this power bytes.
    exponent: u8,
    /// The numbers of the manager's links: what is said of a client is said of its link.
    clients: Clients,
    /// One for each of these, in their order.
    states: Vec<ClientState>,
}

/// Whether two clients may not have these permissions beside each other.
pub fn conflicts(set: Perm, bound: Perm) -> bool
    ensures { result ≡ conflicts set bound }
{
    match (set, bound) {
        (Perm::Trunk, Perm::Branch | Perm::Trunk) | (Perm::Branch, Perm::Trunk) => true,
        _ => false,
    }
}

/// As many clients, each before all messages.
fn opening_states(alloc: Global, exponent: u8, count: usize) -> Result<Vec<ClientState>, AllocError>
    ensures count { IfOk result (λ states. length states.items ≡ count) }
    ensures each { IfOk result (λ states. AllByRecursion (λ state. client_state.StandsFor exponent state []) states.items) }
{
    let mut states = Vec::new(alloc);
    states.reserve_exact(count)?;
    for _ in 0..count {
        states.push(ClientState::new(alloc, exponent))?;
    }
    Ok(states)
}

/// States that show the same.
fn copied(alloc: Global, states: &[ClientState]) -> Result<Vec<ClientState>, AllocError>
    ensures { IfOk result (λ copy. SameItems SameClient states.now copy.items) }
{
    let mut copy = Vec::new(alloc);
    copy.reserve_exact(states.len())?;
    for state in states {
        copy.push(state.copy()?)?;
    }
    Ok(copy)
}

/// Puts rules after others, where there is room for them.
fn append(rules: &mut RuleList, more: &[Rule])
    requires { length rules.old + length more.now ≤ 10 }
    ensures { rules.new ≡ rules.old ++ more.now }
{
    for rule in more {
        rules.push(*rule);
    }
}

/// Settles what each of the clients can hold. What they show stays the same, at want of memory too.
fn settle_all(states: &mut Vec<ClientState>) -> Result<(), AllocError>
    ensures same { SameItems SameClient states.old.items states.new.items }
    ensures settled { OnOk result ((n : ℕ) (d : ClientState) → n < length states.new.items → IsSettled (slice_index_or states.new.items n d).bounds) }
{
    for place in 0..states.len() {
        states[place].settle()?;
    }
    Ok(())
}

impl ManagerState {
    ghost use Rattle.tl_client_rules.specs.Clients.{place_of};
    ghost use Rattle.tl_client_rules.specs.Manager.{Shows, StandsFor, ForShown, AfterBeats, EndWith, HasPlace, shown, client_there, client_at, past_at, head_rules_in, manager_rules, pasts_after};

    /// The state of the manager with this number, before all messages. Of a number that the topology lacks, it has no clients.
    /// AllocError where memory is refused.
    pub fn new(alloc: Global, topo: &Topo, manager: u16) -> Result<ManagerState, AllocError>
        ensures opening { (regions : List Area) → IfOk result (λ state. StandsFor (manager_at topo.now manager regions) state []) }
        ensures count { IfOk result (λ state. (shown state).count ≡ length (shown state).clients) }
    {
        let exponent = topo.block(manager).unwrap_or(0);
        let clients = Clients::of(alloc, topo, manager)?;
        let states = opening_states(alloc, exponent, clients.numbers().len())?;
        Ok(ManagerState {
            exponent,
            clients,
            states,
        })
    }

    /// How many links the manager has.
    pub fn count(&self) -> usize
        ensures { result ≡ length (shown self.now).clients }
    {
        self.clients.numbers().len()
    }

    /// The place of a link among the manager's links, if it is one of them.
    pub fn place(&self, link: u16) -> Option<usize>
        ensures { result ≡ place_of link (shown self.now).clients }
    {
        self.clients.place(link)
    }

    /// The most that the client at a place can hold of the block that begins at this address.
    fn bound(&self, place: usize, block: u64) -> Perm
        ensures { result ≡ (client_there self.now place).past.bound block }
    {
        match self.states.get(place) {
            Some(state) => state.bound(block),
            None => Perm::Nothing,
        }
    }

    /// Whether the client at a place can hold the block that begins at this address as a Trunk.
    fn has_trunk(&self, place: usize, block: u64) -> bool
        ensures { Decides result ((client_there self.now place).past.bound block ≡ Trunk) }
    {
        match self.states.get(place) {
            Some(state) => state.has_trunk(block),
            None => false,
        }
    }

    /// Whether the bound of the client at a place forbids what is set on the block.
    fn conflicts_at(&self, place: usize, block: u64, set: Perm) -> bool
        ensures { result ≡ conflicts set ((client_there self.now place).past.bound block) }
    {
        match set {
            Perm::Nothing => false,
            Perm::Branch => self.has_trunk(place, block),
            Perm::Trunk => conflicts(set, self.bound(place, block)),
        }
    }

    /// Whether a Probe of the block is open at the client at a place.
    fn probe_open(&self, place: usize, block: u64) -> bool
        ensures { result ≡ is_some ((client_there self.now place).past.probe block) }
    {
        match self.states.get(place) {
            Some(state) => state.probe_open(block),
            None => false,
        }
    }

    /// Whether a Grant of the block is open at the client at a place.
    fn grant_open(&self, place: usize, block: u64) -> bool
        ensures { result ≡ nat_lt 0 ((client_there self.now place).past.grants block) }
    {
        match self.states.get(place) {
            Some(state) => state.grant_open(block),
            None => false,
        }
    }

    /// Whether the bound of a client other than this forbids what is set on the block.
    fn conflicts_with_other(&self, link: u16, block: u64, set: Perm) -> bool
        ensures { result ≡ conflicts_with_other self.now.clients (past_at self.now) link (block, set) }
    {
        for (place, client) in self.clients.numbers().iter().enumerate() {
            if *client != link && self.conflicts_at(place, block, set) {
                return true;
            }
        }
        false
    }

    /// Whether a Probe of the block is open at any client.
    fn any_probe_open(&self, block: u64) -> bool
        ensures { result ≡ list_any (λ client. is_some ((past_at self.now client).probe block)) self.now.clients }
    {
        for (place, _) in self.clients.numbers().iter().enumerate() {
            if self.probe_open(place, block) {
                return true;
            }
        }
        false
    }

    /// Whether a Grant of the block is open at any client.
    fn any_grant_open(&self, block: u64) -> bool
        ensures { result ≡ list_any (λ client. nat_lt 0 ((past_at self.now client).grants block)) self.now.clients }
    {
        for (place, _) in self.clients.numbers().iter().enumerate() {
            if self.grant_open(place, block) {
                return true;
            }
        }
        false
    }

    /// Whether a head with this message breaks the rule.
    #[inline(always)]
    fn breaks(&self, link: u16, op: Op, head: &Beat, request: Option<Request>, rule: Rule) -> bool
        ensures { result ≡ breaks_manager self.now.clients self.now.exponent (past_at self.now) link (head_with head.now request op) rule }
    {
        match rule {
            Rule::M1 if is_grant(op) => match claim(self.exponent, op, head, request) {
                Some((block, set)) => self.conflicts_with_other(link, block, set),
                None => false,
            },
            Rule::M2 if is_grant(op) => match granted_block(self.exponent, request) {
                Some(block) => self.any_probe_open(block),
                None => false,
            },
            Rule::M3 if is_probe(op) => self.any_grant_open(block_of(self.exponent, head.address)),
            _ => false,
        }
    }

    /// The manager rules that a head with this message breaks, in the order of reports.
    fn broken_rules(
        &self,
        alloc: Global,
        link: u16,
        op: Op,
        head: &Beat,
        request: Option<Request>,
    ) -> RuleList
        ensures { result ≡ filter (breaks_manager self.now.clients self.now.exponent (past_at self.now) link (head_with head.now request op)) manager_order }
    {
        let mut rules = RuleList::new(alloc);
        rules.push_if(self.breaks(link, op, head, request, Rule::M1), Rule::M1);
        rules.push_if(self.breaks(link, op, head, request, Rule::M2), Rule::M2);
        rules.push_if(self.breaks(link, op, head, request, Rule::M3), Rule::M3);
        rules
    }

    /// The manager rules that a head breaks, if its opcode is a message; a Grant can break two of them, and a Probe one.
    fn judge(
        &self,
        alloc: Global,
        link: u16,
        decl: &LinkDecl,
        head: &Beat,
        request: Option<Request>,
    ) -> RuleList
        ensures rules { result ≡ manager_rules self.now link head.now request (message_of decl.now head.now) }
        ensures few { length result ≤ 2 }
    {
        match op_of(decl.level, head.chan, head.opcode) {
            Some(op) => self.broken_rules(alloc, link, op, head, request),
            None => RuleList::new(alloc),
        }
    }

    /// Whether a head with this message is seen to break no manager rule; false says nothing.
    #[inline(always)]
    fn keeps_coherence(&self, link: u16, op: Op, head: &Beat, request: Option<Request>) -> bool
        ensures { result ≡ true → filter (breaks_manager self.now.clients self.now.exponent (past_at self.now) link (head_with head.now request op)) manager_order ≡ [] }
    {
        match op {
            Op::Grant | Op::GrantData => {
                !self.breaks(link, op, head, request, Rule::M1)
                    && !self.breaks(link, op, head, request, Rule::M2)
            }
            Op::ProbeBlock | Op::ProbePerm => {
                !self.any_grant_open(block_of(self.exponent, head.address))
            }
            _ => true,
        }
    }

    /// Whether a head of the link at a place with this message, which answers this request, is seen to break no permission or manager
    /// rule; false says nothing.
    #[inline(always)]
    pub fn keeps_rules(
        &self,
        link: u16,
        place: usize,
        decl: &LinkDecl,
        op: Op,
        head: &Beat,
        request: Option<Request>,
    ) -> bool
        requires link { HasPlace (shown self.now) link }
        requires place { place_of link (shown self.now).clients ≡ Some place }
        requires message { message_of decl.now head.now ≡ Some op }
        ensures { ForShown self.now link decl.now head.now request
            (λ clients exponent pasts. result ≡ true → head_rules_in clients exponent pasts link decl.now head.now ≡ []) }
    {
        self.states[place].keeps_permissions(decl.strict, op, head)
            && self.keeps_coherence(link, op, head, request)
    }

    /// The state with a head of the link at a place with this message, which answers this request. AllocError where memory is refused:
    /// then nothing has changed.
    #[inline(always)]
    pub fn pass(
        &mut self,
        place: usize,
        decl: &LinkDecl,
        op: Op,
        head: &Beat,
        request: Option<Request>,
    ) -> Result<(), AllocError>
        requires place { place < (shown self.old).count }
        requires message { message_of decl.now head.now ≡ Some op }
        ensures next { (link : ℕ) → place_of link (shown self.old).clients ≡ Some place → ForShown self.old link decl.now head.now request
            (λ clients exponent pasts. OnOk result (Shows clients exponent self.new (pasts_after exponent pasts link decl.now head.now))) }
        ensures count { (shown self.new).count ≡ (shown self.old).count }
        ensures err { OnErr result (shown self.new ≡ shown self.old) }
    {
        self.states[place].pass(decl, op, head, request)
    }

    /// A state that shows the same. AllocError where memory is refused.
    #[tactic(auto, using(crate::proofs::ManagerLaws::same_parts))]
    pub fn copy(&self, alloc: Global) -> Result<ManagerState, AllocError>
        ensures { IfOk result (λ copy. SameManager self.now copy) }
    {
        Ok(ManagerState {
            exponent: self.exponent,
            clients: self.clients.copy(alloc)?,
            states: copied(alloc, &self.states)?,
        })
    }

    /// Settles what the clients can hold, so that copies of the state share it, and cost what is open and what is set from then
    /// on. What the state shows stays the same, at want of memory too.
    #[tactic(auto, using(crate::proofs::ManagerLaws::same_parts))]
    pub fn settle(&mut self) -> Result<(), AllocError>
        ensures same { SameManager self.old self.new }
        ensures settled { OnOk result (AreSettled self.new) }
    {
        settle_all(&mut self.states)
    }

    /// The permission and manager rules that the next head of a link breaks, by what is open and what the manager's clients can
    /// hold before it; then what it opens, closes and sets at its own client. The request is the one that the head answers, as
    /// the flow rules find it. A head whose opcode is no message breaks none and changes nothing. A later beat is no message: the
    /// state is not stepped by it. AllocError where memory is refused: then nothing has changed. [TileLink 1.8: coherence, permission transitions; own
    /// profile, after the concurrency rules]
    pub fn step(
        &mut self,
        alloc: Global,
        link: u16,
        decl: &LinkDecl,
        head: &Beat,
        request: Option<&Request>,
    ) -> Result<RuleList, AllocError>
        requires link { HasPlace (shown self.old) link }
        // Whatever pasts of the links the state shows, the head is judged by those.
        ensures judged { ForShown self.old link decl.now head.now (option_copied request.entry)
            (λ clients exponent pasts. IfOk result (λ rules. rules ≡ head_rules_in clients exponent pasts link decl.now head.now)) }
        ensures next { ForShown self.old link decl.now head.now (option_copied request.entry)
            (λ clients exponent pasts. OnOk result (Shows clients exponent self.new (pasts_after exponent pasts link decl.now head.now))) }
        // Where it stands for the beats of its manager so far, these are the last of the rules that the head breaks after
        // those, and it then stands for them and the head.
        ensures broken { AfterBeats self.old link decl.now head.now (option_copied request.entry)
            (λ m before p. IfOk result (λ rules. EndWith decl.now head.now rules m before p)) }
        ensures stands { AfterBeats self.old link decl.now head.now (option_copied request.entry)
            (λ m before p. OnOk result (StandsFor m self.new (p ∷ before))) }
        ensures count { (shown self.new).count ≡ (shown self.old).count }
        ensures err { OnErr result (shown self.new ≡ shown self.old) }
    {
        self.advance(alloc, link, decl, head, request)
    }

    /// The same by the pasts that the state shows.
    fn advance(
        &mut self,
        alloc: Global,
        link: u16,
        decl: &LinkDecl,
        head: &Beat,
        request: Option<&Request>,
    ) -> Result<RuleList, AllocError>
        requires link { HasPlace (shown self.old) link }
        ensures judged { ForShown self.old link decl.now head.now (option_copied request.entry)
            (λ clients exponent pasts. IfOk result (λ rules. rules ≡ head_rules_in clients exponent pasts link decl.now head.now)) }
        ensures next { ForShown self.old link decl.now head.now (option_copied request.entry)
            (λ clients exponent pasts. OnOk result (Shows clients exponent self.new (pasts_after exponent pasts link decl.now head.now))) }
        ensures count { (shown self.new).count ≡ (shown self.old).count }
        ensures err { OnErr result (shown self.new ≡ shown self.old) }
    {
        let across = self.judge(alloc, link, decl, head, request.copied());
        let place = self.clients.place(link).unwrap();
        let mut rules = self.states[place].step(alloc, decl, head, request)?;
        append(&mut rules, across.as_slice());
        Ok(rules)
    }
}

impl Same for ManagerState {
    ghost same = { SameManager };

    #[tactic(auto, using(crate::proofs::ManagerLaws::same_parts, crate::proofs::ManagerLaws::parts_of_same))]
    fn is_same(&self, other: &Self) -> bool {
        if self.exponent != other.exponent || !self.clients.is_same(&other.clients) {
            return false;
        }
        self.states.is_same(&other.states)
    }
}
