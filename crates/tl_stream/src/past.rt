//! What the beats of a manager leave for those that come.

ghost use Rattle.std.specs.Prelude.{◌≡◌, ◌<◌, [], List, length, Some, IfOk};
ghost use Rattle.std.specs.Io.Iter.{u64_saturate};
ghost use Rattle.std.specs.List.{All, Contains};
ghost use Rattle.tl_topology.specs.Regions.{Area, areas_of};
ghost use Rattle.tl_beats.specs.Beats.{IsWellFormed};
ghost use Rattle.tl_definitions.specs.Managers.{declared_links, manager_at};
ghost use Rattle.tl_beats.specs.declared.Placed.{Placed};
ghost use Rattle.tl_definitions.specs.Positions.{clients_of};
ghost use Rattle.tl_definitions.specs.Rules.{Manager};
ghost use Rattle.tl_midway.specs.LeadIns.{lead_ins_of};
ghost use Rattle.tl_midway.specs.Midway.{beginning_of};
ghost use Rattle.tl_midway.specs.declared.midway.Midway.{Midway as AnyMidway};
ghost use Rattle.tl_stream.specs.Pasts.{IsOf, StandsFor, GoesOn};

use std::alloc::{AllocError, Global};
use tl_beats::Row;
use tl_capture::Merged;
use tl_check::{SpanState, go_on};
use tl_midway::{Midway, MidwayState, walk_on};
use tl_topology::{RegionMap, Topo};

/// What the beats of a manager leave for those that come.
#[derive(Drop)]
pub(crate) enum Past {
    /// The beats are all of a run.
    Whole(SpanState),
    /// Nobody recorded the first of them.
    Middle(MidwayState),
}

impl Past {
    /// That of a manager of which no beat came. AllocError where memory is refused.
    pub(crate) fn new(
        alloc: Global,
        topo: &Topo,
        manager: u16,
        midway: Option<Midway>,
    ) -> Result<Past, AllocError>
        requires { manager < length topo.now.managers }
        ensures { (areas : List Area) → IfOk result (λ past. StandsFor midway (manager_at topo.now manager areas) past []) }
    {
        match midway {
            None => Ok(Past::Whole(SpanState::opening(alloc, topo, manager)?)),
            Some(law) => Ok(Past::Middle(MidwayState::new(alloc, topo, manager, law)?)),
        }
    }

    /// How many of the beats are in lead-ins; 2^64 - 1 where there are more. Where they are all of a run, none is asked for.
    pub(crate) fn lead_ins(&self) -> u64
        ensures { (law : AnyMidway) (m : Manager) (before : List Placed) → StandsFor (Some law) m self.now before
            → result ≡ u64_saturate (lead_ins_of m (beginning_of law m) before) }
    {
        match self {
            Past::Whole(_) => 0,
            Past::Middle(state) => state.lead_ins(),
        }
    }

    /// Judges the beats of a manager with these regions that a walk has left. Answers their rows, in the order of positions, and goes on
    /// after them. AllocError where memory is refused: then it is for nothing more.
    pub(crate) fn go_on<'a>(
        &mut self,
        alloc: Global,
        topo: &Topo,
        manager: u16,
        regions: &RegionMap,
        walk: Merged<'a>,
    ) -> Result<Vec<Row>, AllocError>
        requires manager { manager < length topo.now.managers }
        requires formed { All (λ p. IsWellFormed p.beat) walk }
        requires linked { All (λ p. Contains (clients_of manager (declared_links topo.now)) p.link) walk }
        requires state { IsOf (manager_at topo.now manager (areas_of regions.now)) self.old }
        ensures { IfOk result (λ rows. GoesOn (manager_at topo.now manager (areas_of regions.now)) self.old walk.entry self.new rows.items) }
    {
        match self {
            Past::Whole(state) => go_on(alloc, topo, manager, regions, walk, state),
            Past::Middle(state) => walk_on(alloc, topo, manager, regions, walk, state),
        }
    }
}
