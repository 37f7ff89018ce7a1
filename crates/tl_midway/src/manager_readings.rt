//! The readings of each channel of a manager's links.

ghost use Rattle.std.specs.Prelude.{◌≡◌, ◌==◌, ◌<◌, [], List, length, take, IfOk, OnOk, map};
ghost use Rattle.std.specs.List.{All, position};
ghost use Rattle.tl_topology.specs.Regions.{Area};
ghost use Rattle.tl_topology.specs.Topology.{IsSound};
ghost use Rattle.tl_beats.specs.Beats.{IsWellFormed};
ghost use Rattle.tl_definitions.specs.Managers.{declared_links, manager_at};
ghost use Rattle.tl_definitions.specs.Positions.{clients_of, links_of};
ghost use Rattle.tl_client_rules.specs.Clients.{place_of};
ghost use Rattle.tl_midway.specs.Midway.{beginning_of};
ghost use Rattle.tl_midway.specs.LinkReadings as link_readings;
ghost use Rattle.tl_midway.specs.ManagerReadings.{HasPlace};
ghost use Rattle.tl_midway.specs.declared.link_readings.LinkReadings.{LinkReadings as AnyLink};

use crate::link_readings::LinkReadings;
use crate::midway::Midway;
use crate::readings::Readings;
use crate::standing::Standing;
use std::alloc::{AllocError, Global};
use tl_beats::Placed;
use tl_client_rules::clients_of;
use tl_topology::{LinkDecl, Topo};

/// What the next beat of each channel of a manager's links may be.
#[derive(Drop)]
pub struct ManagerReadings {
    /// Whether bursts that the beginning struck are told by their fields.
    by_fields: bool,
    /// One for each link of the manager, in the order of their numbers.
    links: Vec<LinkReadings>,
    /// How many beats were in lead-ins; 2^64 - 1 where there were more.
    lead_ins: u64,
}

/// The readings of the first beats of these links of a topology.
fn first_readings(
    alloc: Global,
    topo: &Topo,
    law: Midway,
    numbers: &[u16],
) -> Result<Vec<LinkReadings>, AllocError>
    requires { All (λ link. link < length topo.now.links) numbers.now }
    ensures numbers { IfOk result (λ links. map (λ (link : AnyLink). link.number) links.items ≡ numbers.now) }
    ensures each { IfOk result (λ links. All (λ (link : AnyLink). link_readings.IsFirst law (links_of (declared_links topo.now) link.number) link) links.items) }
{
    let mut links = Vec::new(alloc);
    for number in numbers {
        let link = topo.link(*number).unwrap();
        links.push(LinkReadings::new(alloc, law, *number, link)?)?;
    }
    Ok(links)
}

/// The place of a link among these, if it is one of them.
fn place_in(links: &[LinkReadings], link: u16) -> Option<usize>
    ensures { result ≡ position (λ (own : AnyLink). own.number == link) links.now }
{
    links.iter().position(|own| own.number == link)
}

impl ManagerReadings {
    ghost use Rattle.tl_midway.specs.Standing.{IsKnown};
    ghost use Rattle.tl_midway.specs.ManagerReadings.{StandsFor, Takes, AreKnown, LeadsIn, CountsLeadIns, OnChannel, numbers_of};

    /// The readings of the first beats of a manager's links, where its capture begins so. AllocError where memory is refused.
    pub fn new(
        alloc: Global,
        topo: &Topo,
        manager: u16,
        law: Midway,
    ) -> Result<ManagerReadings, AllocError>
        ensures stands { (regions : List Area) → IfOk result (λ state. StandsFor (manager_at topo.now manager regions) (beginning_of law (manager_at topo.now manager regions)) state []) }
        ensures known { IfOk result AreKnown }
    {
        let numbers = clients_of(alloc, topo, manager)?;
        Ok(ManagerReadings {
            by_fields: law.by_fields(),
            links: first_readings(alloc, topo, law, &numbers)?,
            lead_ins: 0,
        })
    }

    /// The place of a link among the manager's links, if it is one of them.
    fn place(&self, link: u16) -> Option<usize>
        ensures { result ≡ place_of link (numbers_of self.now) }
    {
        place_in(&self.links, link)
    }

    /// The readings of the next beat of the manager, which is this one, whatever its fields are.
    pub fn channel(&self, at: &Placed) -> &Readings
        requires own { HasPlace (numbers_of self.now) at.now.link }
        requires known { AreKnown self.now }
        ensures stands { OnChannel at.now self.now result.now }
        ensures known { IsKnown result.now }
    {
        let place = self.place(at.link).unwrap();
        self.links[place].channel(at.beat.chan)
    }

    /// Whether the next beat of the manager, which is this one, is in its channel's lead-in.
    pub fn in_lead_in(&self, at: &Placed) -> bool
        requires own { HasPlace (numbers_of self.now) at.now.link }
        ensures { LeadsIn at.now self.now result }
    {
        let place = self.place(at.link).unwrap();
        self.links[place].in_lead_in(at.beat.chan)
    }

    /// How many beats were in lead-ins; 2^64 - 1 where there were more.
    pub fn lead_ins(&self) -> u64
        ensures { CountsLeadIns self.now result }
    {
        self.lead_ins
    }

    /// What the next beat of the manager is, which is this one: the first of a message for certain, one that may be, or a later one.
    /// The readings of its channel are then those of the beat after it.
    pub fn take(&mut self, alloc: Global, link: &LinkDecl, at: &Placed) -> Standing
        requires link { IsSound link.now }
        requires beat { IsWellFormed at.now.beat }
        requires own { HasPlace (numbers_of self.old) at.now.link }
        requires known { AreKnown self.old }
        ensures stands { Takes link.now at.now self.old result self.new }
        ensures known { AreKnown self.new }
        ensures numbers { numbers_of self.new ≡ numbers_of self.old }
    {
        let place = self.place(at.link).unwrap();
        let by_fields = self.by_fields;
        self.links[place].take(alloc, by_fields, link, &at.beat, &mut self.lead_ins)
    }
}
