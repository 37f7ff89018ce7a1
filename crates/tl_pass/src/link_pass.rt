//! Links without caches, one after the other: what is judged of one is forgotten when the next begins.

ghost use Rattle.std.specs.Prelude.{◌≡◌, ◌<◌, ℕ, true, List, [], Option, IfOk, IfSome, OnOk};
ghost use Rattle.std.specs.Arc.{arc_value};
ghost use Rattle.tl_topology.specs.Topology.{Topology};
ghost use Rattle.tl_definitions.specs.Positions.{Recorded};
ghost use Rattle.tl_capture.specs.Present.{recorded, put_in};
ghost use Rattle.tl_midway.specs.declared.midway.Midway.{Midway as AnyMidway};
ghost use Rattle.tl_pass.specs.LinkPass.{HasCome, IsOwn};
ghost use Rattle.tl_pass.specs.Parts.{HasNoCaches};

use crate::pass::{Found, Hitch, Pass};
use std::alloc::{AllocError, Global};
use std::sync::Arc;
use tl_beats::{Fragment, Row};
use tl_capture::Present;
use tl_check::{check_all, has_caches, sort_rows};
use tl_midway::{Midway, capture_rows};
use tl_topology::Topo;

/// Whether no link of a topology has caches.
pub fn has_no_caches(topo: &Topo) -> bool
    ensures { result ≡ true → HasNoCaches topo.now }
{
    for link in 0..topo.link_count() {
        if has_caches(topo, link as u16) {
            return false;
        }
    }
    true
}

/// What is found of the links that came, and the fragments of the newest. Links come with rising numbers, and the fragments of one in any
/// order.
#[derive(Drop)]
pub struct LinkPass {
    topo: Arc<Topo>,
    midway: Option<Midway>,
    link: u16,
    present: Present,
    rows: Vec<Row>,
    lead_ins: u64,
}

impl LinkPass {
    /// No fragment of a topology came, of a whole run or of a capture that begins so; None where a link has caches.
    pub fn new(alloc: Global, topo: Arc<Topo>, midway: Option<Midway>) -> Option<LinkPass>
        ensures { IfSome result (HasCome midway (arc_value topo) []) }
    {
        if !has_no_caches(&topo) {
            return None;
        }
        Some(LinkPass {
            topo,
            midway,
            link: 0,
            present: Present::new(alloc),
            rows: Vec::new(alloc),
            lead_ins: 0,
        })
    }

    /// What is found in the fragments of the link that came last, the rows in any order. AllocError where memory is refused.
    fn found(&self, alloc: Global) -> Result<Found, AllocError>
        ensures { IfOk result (IsOwn self.now) }
    {
        match self.midway {
            None => Ok(Found {
                rows: check_all(alloc, &self.topo, &self.present, &[], &[])?,
                lead_ins: 0,
            }),
            Some(law) => {
                let found = capture_rows(alloc, &self.topo, &self.present, law)?;
                Ok(Found {
                    rows: found.rows,
                    lead_ins: found.lead_ins,
                })
            }
        }
    }

    /// Judges the link that came last, and begins with another. AllocError where memory is refused.
    fn begin(&mut self, alloc: Global, link: u16) -> Result<(), AllocError>
        requires { self.old.link < link }
        ensures come { (midway : Option AnyMidway) (topo : Topology) (fs : List Recorded) → HasCome midway topo fs self.old → OnOk result (HasCome midway topo fs self.new) }
        ensures link { OnOk result (self.new.link ≡ link) }
    {
        let found = self.found(alloc)?;
        self.rows.extend_from_slice(&found.rows)?;
        self.lead_ins = self.lead_ins.saturating_add(found.lead_ins);
        self.present = Present::new(alloc);
        self.link = link;
        Ok(())
    }

    /// Begins with a link, if it isn't the one that comes now. A hitch where it was before that.
    fn go_to(&mut self, alloc: Global, link: u16) -> Result<(), Hitch>
        ensures come { (midway : Option AnyMidway) (topo : Topology) (fs : List Recorded) → HasCome midway topo fs self.old → OnOk result (HasCome midway topo fs self.new) }
        ensures link { OnOk result (self.new.link ≡ link) }
    {
        if link < self.link {
            return Err(Hitch::Fault);
        }
        if link > self.link {
            self.begin(alloc, link)?;
        }
        Ok(())
    }

    /// Puts a fragment of the link that comes now to the others. A hitch where they have its number or share a cycle with it.
    fn put(&mut self, fragment: Arc<Fragment>) -> Result<(), Hitch>
        ensures { (midway : Option AnyMidway) (topo : Topology) (fs : List Recorded) → HasCome midway topo fs self.old
            → OnOk result (HasCome midway topo (put_in (recorded self.old.link (arc_value fragment)) fs) self.new) }
    {
        let is_there = self.present.get(self.link, fragment.number()).is_some();
        if is_there || self.present.overlapped(self.link, &fragment).is_some() {
            return Err(Hitch::Fault);
        }
        self.present.put(self.link, fragment)?;
        // No two of them share a number or a cycle.
        let _ = self.present.is_empty();
        Ok(())
    }
}

impl Pass for LinkPass {
    ghost has_come = { HasCome };

    fn accept(&mut self, alloc: Global, fragment: Arc<Fragment>) -> Result<(), Hitch> {
        let Some(link) = self.topo.link_of(&fragment.link()) else {
            return Err(Hitch::Fault);
        };
        self.go_to(alloc, link)?;
        self.put(fragment)?;
        Ok(())
    }

    fn report(self, alloc: Global) -> Result<Found, AllocError> {
        let found = self.found(alloc)?;
        let mut rows = self.rows;
        rows.extend_from_slice(&found.rows)?;
        Ok(Found {
            rows: sort_rows(rows),
            lead_ins: self.lead_ins.saturating_add(found.lead_ins),
        })
    }
}
