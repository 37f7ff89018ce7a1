//! The links of a manager, and what makes their beats break rules.

ghost use Rattle.std.specs.Prelude.{◌≡◌, ◌<◌, ◌≤◌, ◌∷◌, ℕ, List, [], length, map, reverse, take, IfOk, OnOk};
ghost use Rattle.std.specs.List.{All, AllByRecursion};
ghost use Rattle.tl_tables.specs.Kinds.{conflicts};
ghost use Rattle.tl_beats.specs.Beats.{IsWellFormed};
ghost use Rattle.tl_definitions.specs.Messages.{at_head};
ghost use Rattle.tl_rows.specs.Reasons.{reason_at, head_reason, bound_by, first_some};
ghost use Rattle.tl_rows.specs.States.{StandsFor, OnBeats, IsOpening, trail_at, sought_at, manager_with, links_in};

use crate::link::LinkOrigins;
use crate::origin::Origin;
use crate::reason::Reason;
use std::alloc::{AllocError, Global};
use tl_beats::Placed;
use tl_client_rules::{block_of, claim, granted_block};
use tl_tables::{Op, Perm, Rule, op_of};
use tl_topology::Topo;

/// What the beats of a manager leave that a reason can name: all that is open on its links, and for each block the last message that
/// set what a client may hold of it.
#[derive(Drop)]
pub struct ManagerOrigins {
    /// A block has 2 to this power bytes.
    exponent: u8,
    /// One for each link of the topology, by number.
    pub(crate) links: Vec<LinkOrigins>,
}

/// What is looked for at one client after the other.
#[derive(Clone, Copy)]
pub(crate) enum Sought {
    /// What set a bound of the block that forbids what a Grant on this link sets.
    Rival {
        /// The link of the Grant.
        link: u16,
        /// The block.
        block: u64,
        /// What it sets.
        set: Perm,
    },
    /// An open Probe of the block.
    Probe {
        /// The block.
        block: u64,
    },
    /// An open Grant of the block.
    Grant {
        /// The block.
        block: u64,
    },
}

/// Whether two clients may not have these permissions beside each other.
fn conflicts(set: Perm, bound: Perm) -> bool
    ensures { result ≡ conflicts set bound }
{
    match (set, bound) {
        (Perm::Trunk, Perm::Branch | Perm::Trunk) | (Perm::Branch, Perm::Trunk) => true,
        _ => false,
    }
}

/// The states of so many links without beats.
fn opening_links(alloc: Global, count: usize) -> Result<Vec<LinkOrigins>, AllocError>
    ensures { IfOk result (λ links. (length links.items ≡ count) × AllByRecursion IsOpening links.items) }
{
    let mut links = Vec::new(alloc);
    for _ in 0..count {
        links.push(LinkOrigins::new(alloc))?;
    }
    Ok(links)
}

impl ManagerOrigins {
    /// That of a manager without beats, whose blocks have 2 to the exponent bytes. AllocError where memory is refused.
    pub fn new(alloc: Global, topo: &Topo, exponent: u8) -> Result<ManagerOrigins, AllocError>
        ensures stands { (clients : List ℕ) → IfOk result (λ state. StandsFor (manager_with topo.now exponent clients) state []) }
        ensures count { IfOk result (λ state. links_in state ≡ length topo.now.links) }
    {
        Ok(ManagerOrigins {
            exponent,
            links: opening_links(alloc, topo.link_count())?,
        })
    }

    /// How many links the topology has that it is of.
    pub fn link_count(&self) -> usize
        ensures { result ≡ links_in self.now }
    {
        self.links.len()
    }

    /// What last set the bound of a client on a block.
    fn setter(&self, client: u16, block: u64) -> Option<Origin>
        ensures { result ≡ (trail_at self.now client).setter block }
    {
        match self.links.get(client as usize) {
            Some(link) => link.openers.setter(block),
            None => None,
        }
    }

    /// The bound of a client on a block.
    fn bound(&self, client: u16, block: u64) -> Perm
        ensures { result ≡ bound_by self.now.exponent ((trail_at self.now client).setter block) }
    {
        match self.links.get(client as usize) {
            Some(link) => link.openers.bound(self.exponent, block),
            None => Perm::Nothing,
        }
    }

    /// The Probe of a block that is open at a client.
    fn probe(&self, client: u16, block: u64) -> Option<Origin>
        ensures { result ≡ (trail_at self.now client).probe block }
    {
        match self.links.get(client as usize) {
            Some(link) => link.openers.probe(block),
            None => None,
        }
    }

    /// The Grant of a block that is open at a client, on the least sink.
    fn grant(&self, client: u16, block: u64) -> Option<Origin>
        ensures { result ≡ (trail_at self.now client).grant block }
    {
        match self.links.get(client as usize) {
            Some(link) => link.openers.grant(self.exponent, block),
            None => None,
        }
    }

    /// What is sought, at one client.
    fn at_client(&self, sought: Sought, client: u16) -> Option<Origin>
        ensures { result ≡ sought_at self.now.exponent (trail_at self.now) sought client }
    {
        match sought {
            Sought::Rival { link, block, set } => {
                if client != link && conflicts(set, self.bound(client, block)) {
                    self.setter(client, block)
                } else {
                    None
                }
            }
            Sought::Probe { block } => self.probe(client, block),
            Sought::Grant { block } => self.grant(client, block),
        }
    }

    /// What is sought, at the first client where it is.
    fn first(&self, clients: &[u16], sought: Sought) -> Option<Origin>
        ensures { result ≡ first_some (sought_at self.now.exponent (trail_at self.now) sought) clients.now }
    {
        for client in clients {
            if let Some(origin) = self.at_client(sought, *client) {
                return Some(origin);
            }
        }
        None
    }

    /// What makes a head with this message break a rule.
    fn head_reason(&self, clients: &[u16], op: Op, place: &Placed, rule: Rule) -> Reason
        requires { place.now.link < length self.now.links.items }
        ensures { result ≡ head_reason clients.now self.now.exponent (trail_at self.now) place.now op rule }
    {
        let own = &self.links[place.link as usize].openers;
        let request = own.request_of(op, &place.beat);
        match rule {
            Rule::M1 => match claim(self.exponent, op, &place.beat, request) {
                Some((block, set)) => {
                    let link = place.link;
                    Reason::of_rival(self.first(clients, Sought::Rival { link, block, set }))
                }
                None => Reason::NoneBefore,
            },
            Rule::M2 => match granted_block(self.exponent, request) {
                Some(block) => Reason::of_probe(self.first(clients, Sought::Probe { block })),
                None => Reason::NoneBefore,
            },
            Rule::M3 => {
                let block = block_of(self.exponent, place.beat.address);
                Reason::of_grant(self.first(clients, Sought::Grant { block }))
            }
            _ => own.reason(self.exponent, &place.beat, rule),
        }
    }

    /// What makes the next beat of the manager, whose clients are these, break a rule.
    pub fn reason(&self, topo: &Topo, clients: &[u16], place: &Placed, rule: Rule) -> Reason
        requires beat { IsWellFormed place.now.beat }
        requires link { place.now.link < links_in self.now }
        requires declared { place.now.link < length topo.now.links }
        ensures { (exponent : ℕ) → OnBeats (manager_with topo.now exponent clients.now) self.now (λ m before. result ≡ reason_at m before place.now rule) }
    {
        let decl = topo.link(place.link).unwrap();
        let link = &self.links[place.link as usize];
        if !link.is_head(decl, place) {
            return Reason::of_later(link.head(place.beat.chan), rule);
        }
        match op_of(decl.level, place.beat.chan, place.beat.opcode) {
            Some(op) => self.head_reason(clients, op, place, rule),
            None => Reason::ByItself,
        }
    }

    /// Whether the next beat of the manager is a head.
    pub(crate) fn is_head(&self, topo: &Topo, place: &Placed) -> bool
        requires beat { IsWellFormed place.now.beat }
        requires link { place.now.link < length self.now.links.items }
        requires declared { place.now.link < length topo.now.links }
        ensures { (exponent : ℕ) (clients : List ℕ) → OnBeats (manager_with topo.now exponent clients) self.now (λ m before. result ≡ at_head m.links before place.now) }
    {
        let decl = topo.link(place.link).unwrap();
        self.links[place.link as usize].is_head(decl, place)
    }

    /// What the next beat of the manager leaves. AllocError where memory is refused: then it may have part of the beat.
    pub fn step(&mut self, topo: &Topo, place: &Placed) -> Result<(), AllocError>
        requires beat { IsWellFormed place.now.beat }
        requires link { place.now.link < links_in self.old }
        requires declared { place.now.link < length topo.now.links }
        ensures stands { (exponent : ℕ) (clients : List ℕ) → OnBeats (manager_with topo.now exponent clients) self.old
            (λ m before. OnOk result (StandsFor m self.new (place.now ∷ before))) }
        ensures count { links_in self.new ≡ links_in self.old }
    {
        let decl = topo.link(place.link).unwrap();
        let exponent = self.exponent;
        self.links[place.link as usize].step(exponent, decl, place)
    }
}
