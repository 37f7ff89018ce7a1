//! Links that are judged apart from others.

ghost use Rattle.std.specs.Prelude.{◌≡◌, ◌<◌, ◌≤◌, ◌++◌, ℕ, List, [], Option, true, length, IfSome, OnOk};
ghost use Rattle.std.specs.List.{flat_map};
ghost use Rattle.tl_topology.specs.Topology.{Topology};
ghost use Rattle.tl_beats.specs.Fragments.{Frag};
ghost use Rattle.tl_midway.specs.declared.midway.Midway.{Midway as AnyMidway};
ghost use Rattle.tl_pass.specs.Parts.{manager_of, AreParts, CanPart, IsCut, IsPart, IsWhole};
ghost use Rattle.tl_pass.specs.Reports.{IsTaken};

use crate::link_pass::has_no_caches;
use crate::pass::{Found, Hitch};
use crate::supply::Taken;
use std::alloc::Global;
use tl_beats::Row;
use tl_check::sort_rows;
use tl_topology::Topo;

/// Links with numbers in a row.
#[derive(Clone, Copy, Debug, PartialEq, Eq)]
pub struct Links {
    /// The first of them.
    pub first: u16,
    /// The first link after them.
    pub next: u16,
}

/// The number of a link's manager, if the topology has the link.
fn manager_of(topo: &Topo, link: u16) -> Option<u16>
    ensures { IfSome result (λ manager. manager ≡ manager_of topo.now link) }
{
    match topo.link(link) {
        Some(decl) => Some(decl.manager),
        None => None,
    }
}

/// Whether no link from this one on is of the manager of another.
fn is_alone(topo: &Topo, low: u16, first: u16) -> bool
    ensures { result ≡ true → (high : ℕ) → first ≤ high → high < length topo.now.links → manager_of topo.now low ≡ manager_of topo.now high → ⊥ }
{
    let Some(own) = manager_of(topo, low) else {
        return false;
    };
    for high in usize::from(first)..topo.link_count() {
        match manager_of(topo, high as u16) {
            Some(manager) if manager != own => {}
            _ => return false,
        }
    }
    true
}

/// Whether no manager has links below this one and others.
fn is_cut(topo: &Topo, first: u16) -> bool
    ensures { result ≡ true → IsCut topo.now first }
{
    for low in 0..first {
        if !is_alone(topo, low, first) {
            return false;
        }
    }
    true
}

/// Whether the links below this one may be judged apart from the others.
pub fn can_part(topo: &Topo, first: u16) -> bool
    ensures { result ≡ true → CanPart topo.now first }
{
    has_no_caches(topo) || is_cut(topo, first)
}

/// What is found in fragments of links in a row.
#[derive(Drop)]
pub struct Part {
    pub(crate) links: Links,
    /// How many fragments they are.
    pub(crate) fragments: u64,
    pub(crate) found: Found,
}

/// What is found of links below one, of which each part came by itself.
#[derive(Drop)]
pub struct Whole {
    next: u16,
    fragments: u64,
    rows: Vec<Row>,
    lead_ins: u64,
}

impl Whole {
    /// No part came.
    pub fn new(alloc: Global) -> Whole
        ensures { (midway : Option AnyMidway) (topo : Topology) → IsWhole midway topo [] result }
    {
        Whole {
            next: 0,
            fragments: 0,
            rows: Vec::new(alloc),
            lead_ins: 0,
        }
    }

    /// Adds parts one after the other. A hitch where one of them is, or can't be added.
    pub fn add_all(&mut self, topo: &Topo, parts: &[Result<Part, Hitch>]) -> Result<(), Hitch>
        ensures { (midway : Option AnyMidway) (fs : List Frag) (each : List (List Frag)) → IsWhole midway topo.now fs self.old → AreParts midway topo.now each parts.now
            → OnOk result (IsWhole midway topo.now (fs ++ flat_map (λ gs. gs) each) self.new) }
    {
        for part in parts {
            match part {
                Ok(part) => self.add(topo, part)?,
                Err(hitch) => return Err(*hitch),
            }
        }
        Ok(())
    }

    /// Adds the next part. A hitch where memory is refused, and where its links come before those of another or can't be judged apart from
    /// those below.
    fn add(&mut self, topo: &Topo, part: &Part) -> Result<(), Hitch>
        ensures { (midway : Option AnyMidway) (fs gs : List Frag) → IsWhole midway topo.now fs self.old → IsPart midway topo.now gs part.now
            → OnOk result (IsWhole midway topo.now (fs ++ gs) self.new) }
    {
        let links = part.links;
        if links.first < self.next || links.next < links.first || !can_part(topo, links.first) {
            return Err(Hitch::Fault);
        }
        let Some(count) = self.fragments.checked_add(part.fragments) else {
            return Err(Hitch::Memory);
        };
        self.rows.extend_from_slice(&part.found.rows)?;
        self.lead_ins = self.lead_ins.saturating_add(part.found.lead_ins);
        self.next = links.next;
        self.fragments = count;
        Ok(())
    }

    /// The report of the fragments that came.
    pub fn report(self) -> Taken
        ensures { (midway : Option AnyMidway) (topo : Topology) (fs : List Frag) → IsWhole midway topo fs self → IsTaken midway topo fs result }
    {
        Taken {
            fragments: self.fragments,
            found: Found {
                rows: sort_rows(self.rows),
                lead_ins: self.lead_ins,
            },
        }
    }
}
