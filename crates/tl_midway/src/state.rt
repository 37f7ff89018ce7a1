//! What the beats of a manager leave for those that come, where its capture begins in the middle of a run.

ghost use Rattle.std.specs.Prelude.{◌≡◌, ◌++◌, List, ◌∷◌, map, IfOk, OnOk};
ghost use Rattle.std.specs.Io.Iter.{u64_saturate};
ghost use Rattle.tl_topology.specs.Regions.{Area, areas_of};
ghost use Rattle.tl_topology.specs.Topology.{IsSound};
ghost use Rattle.tl_beats.specs.Beats.{IsWellFormed};
ghost use Rattle.tl_definitions.specs.Breaks.{row_of};
ghost use Rattle.tl_definitions.specs.Managers.{manager_at};
ghost use Rattle.tl_definitions.specs.Printed.{printed_rules};
ghost use Rattle.tl_beats.specs.declared.Placed.{Placed as AnyPlaced};
ghost use Rattle.tl_definitions.specs.Known.{Beginning};
ghost use Rattle.tl_definitions.specs.Rules.{Manager};
ghost use Rattle.tl_midway.specs.LeadIns.{leads_in, lead_ins_of};
ghost use Rattle.tl_midway.specs.State.{StandsFor, WhereServed, IsNew, HasLink, IsKnown};

use crate::known_pasts::KnownPasts;
use crate::manager_readings::ManagerReadings;
use crate::midway::Midway;
use crate::standing::Standing;
use std::alloc::{AllocError, Global};
use tl_beats::{Placed, Row};
use tl_check::add_rows;
use tl_topology::{LinkDecl, RegionMap, Topo};

/// All that the beats of a manager so far leave for those that come, where nobody recorded the first of them: what the next beat of
/// each channel may be, and what is known of the past of each link.
#[derive(Drop)]
pub struct MidwayState {
    pub(crate) readings: ManagerReadings,
    pub(crate) pasts: KnownPasts,
}

impl MidwayState {
    /// The state of a manager before all beats of its capture, which begins so. AllocError where memory is refused.
    pub fn new(
        alloc: Global,
        topo: &Topo,
        manager: u16,
        law: Midway,
    ) -> Result<MidwayState, AllocError>
        ensures stands { (regions : List Area) → IfOk result (IsNew law (manager_at topo.now manager regions)) }
        ensures known { IfOk result IsKnown }
    {
        Ok(MidwayState {
            readings: ManagerReadings::new(alloc, topo, manager, law)?,
            pasts: KnownPasts::new(alloc, topo, manager)?,
        })
    }

    /// Whether the manager's next beat, which is this one, is in its channel's lead-in.
    pub fn in_lead_in(&self, at: &Placed) -> bool
        requires { HasLink self.now at.now.link }
        ensures { (m : Manager) (start : Beginning) (before : List AnyPlaced) → StandsFor m start self.now before → result ≡ leads_in m start before at.now }
    {
        self.readings.in_lead_in(at)
    }

    /// How many beats were in lead-ins; 2^64 - 1 where there were more.
    pub fn lead_ins(&self) -> u64
        ensures { (m : Manager) (start : Beginning) (before : List AnyPlaced) → StandsFor m start self.now before → result ≡ u64_saturate (lead_ins_of m start before) }
    {
        self.readings.lead_ins()
    }

    /// Judges the manager's next beat: puts the rows at the end that it has whatever came before the capture, and the state then stands
    /// for the beats with it. AllocError where memory is refused: then state and rows may have part of the beat, and are for nothing
    /// more.
    pub fn step(
        &mut self,
        alloc: Global,
        link: &LinkDecl,
        regions: &RegionMap,
        at: &Placed,
        rows: &mut Vec<Row>,
    ) -> Result<(), AllocError>
        requires link { IsSound link.now }
        requires beat { IsWellFormed at.now.beat }
        requires own { HasLink self.old at.now.link }
        requires known { IsKnown self.old }
        ensures rows { WhereServed self.old at.now.link link.now (areas_of regions.now) (λ m start before.
            OnOk result (rows.new.items ≡ rows.old.items ++ map (row_of at.now) (printed_rules m start before at.now))) }
        ensures next { WhereServed self.old at.now.link link.now (areas_of regions.now) (λ m start before. OnOk result (StandsFor m start self.new (at.now ∷ before))) }
        ensures known { IsKnown self.new }
    {
        match self.readings.take(alloc, link, at) {
            Standing::Head => {
                self.pasts.add_head(alloc, link, regions, at, rows)?;
                self.pasts.step(true, link, at)
            }
            Standing::Either(later) => {
                add_rows(rows, at, &later)?;
                self.pasts.step(false, link, at)
            }
            Standing::Later(later) => add_rows(rows, at, &later),
            Standing::GoesOn => Ok(()),
        }
    }
}
