//! What is known of the pasts of a manager's links.

ghost use Rattle.std.specs.Prelude.{◌≡◌, ◌==◌, ◌<◌, [], ◌∷◌, List, length, map, IfOk, OnOk};
ghost use Rattle.std.specs.List.{All, position};
ghost use Rattle.tl_topology.specs.Regions.{Area};
ghost use Rattle.tl_definitions.specs.Known.{Beginning, first_past};
ghost use Rattle.tl_definitions.specs.Managers.{declared_links, manager_at};
ghost use Rattle.tl_definitions.specs.Positions.{links_of};
ghost use Rattle.tl_client_rules.specs.Clients.{place_of};
ghost use Rattle.tl_midway.specs.KnownLink as known_link;
ghost use Rattle.tl_midway.specs.ManagerReadings.{HasPlace};
ghost use Rattle.tl_midway.specs.declared.known_pasts.LinkPast.{LinkPast as AnyLink};

use crate::known_link::KnownLink;
use std::alloc::{AllocError, Global};
use tl_beats::Placed;
use tl_client_rules::clients_of;
use tl_topology::{LinkDecl, Topo};

/// What is known of the past of one of a manager's links.
#[derive(Drop)]
pub struct LinkPast {
    /// The number of the link.
    pub number: u16,
    pub past: KnownLink,
}

/// What is known of the messages of a manager's links so far, where nobody recorded the first of them.
#[derive(Drop)]
pub struct KnownPasts {
    /// A block has 2 to this power bytes.
    pub exponent: u8,
    /// One for each link of the manager, in the order of their numbers.
    pub links: Vec<LinkPast>,
}

/// What is known at first of these links of a topology, of a manager whose blocks have 2 to the exponent bytes.
fn first_pasts(
    alloc: Global,
    topo: &Topo,
    exponent: u8,
    numbers: &[u16],
) -> Result<Vec<LinkPast>, AllocError>
    requires { All (λ link. link < length topo.now.links) numbers.now }
    ensures numbers { IfOk result (λ links. map (λ (link : AnyLink). link.number) links.items ≡ numbers.now) }
    ensures each { IfOk result (λ links. All (λ (link : AnyLink). known_link.Shows exponent link.past (first_past (links_of (declared_links topo.now) link.number))) links.items) }
{
    let mut links = Vec::new(alloc);
    for number in numbers {
        let link = topo.link(*number).unwrap();
        links.push(LinkPast {
            number: *number,
            past: KnownLink::new(alloc, exponent, link),
        })?;
    }
    Ok(links)
}

/// The place of a link among these, if it is one of them.
fn place_in(links: &[LinkPast], link: u16) -> Option<usize>
    ensures { result ≡ position (λ (own : AnyLink). own.number == link) links.now }
{
    links.iter().position(|own| own.number == link)
}

impl KnownPasts {
    ghost use Rattle.tl_midway.specs.KnownPasts.{StandsFor, AfterBeats, numbers_of};

    /// What is known at first of the links of a manager. AllocError where memory is refused.
    pub fn new(alloc: Global, topo: &Topo, manager: u16) -> Result<KnownPasts, AllocError>
        ensures { (regions : List Area) (start : Beginning) → IfOk result (λ state. StandsFor (manager_at topo.now manager regions) start state []) }
    {
        let exponent = topo.block(manager).unwrap_or(0);
        let numbers = clients_of(alloc, topo, manager)?;
        Ok(KnownPasts {
            exponent,
            links: first_pasts(alloc, topo, exponent, &numbers)?,
        })
    }

    /// The place of a link among the manager's links, if it is one of them.
    pub fn place(&self, link: u16) -> Option<usize>
        ensures { result ≡ place_of link (numbers_of self.now) }
    {
        place_in(&self.links, link)
    }

    /// What is known after the manager's next beat, which begins a message for certain, or may. AllocError where memory is refused:
    /// the state is then for nothing more.
    pub fn step(&mut self, certain: bool, link: &LinkDecl, at: &Placed) -> Result<(), AllocError>
        requires { HasPlace (numbers_of self.old) at.now.link }
        ensures stands { AfterBeats self.old at.now certain link.now (λ m start before. OnOk result (StandsFor m start self.new (at.now ∷ before))) }
        ensures numbers { numbers_of self.new ≡ numbers_of self.old }
    {
        let place = self.place(at.link).unwrap();
        self.links[place].past.step(certain, link, &at.beat)
    }
}
