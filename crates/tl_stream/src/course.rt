//! How far a manager is judged.

ghost use Rattle.std.specs.Prelude.{◌≡◌, ◌<◌, List, length, Some, is_none, IfOk, OnErr};
ghost use Rattle.std.specs.Io.Iter.{u64_saturate};
ghost use Rattle.tl_topology.specs.Regions.{areas_of};
ghost use Rattle.tl_beats.specs.declared.Placed.{Placed};
ghost use Rattle.tl_definitions.specs.Rules.{Manager};
ghost use Rattle.tl_midway.specs.LeadIns.{lead_ins_of};
ghost use Rattle.tl_midway.specs.Midway.{beginning_of};
ghost use Rattle.tl_midway.specs.declared.midway.Midway.{Midway as AnyMidway};
ghost use Rattle.tl_stream.specs.Pasts.{StandsFor};
ghost use Rattle.tl_stream.specs.declared.past.Past.{Past as AnyPast};
ghost use Rattle.tl_stream.specs.Courses.{IsLost, IsNewCourse, IsRunning, Judged};

use crate::past::Past;
use std::alloc::{AllocError, Global};
use tl_beats::Row;
use tl_capture::Present;
use tl_client_rules::clients_of;
use tl_midway::Midway;
use tl_topology::{RegionMap, Topo};

/// What the beats of a manager leave up to a cycle.
#[derive(Drop)]
pub(crate) struct Course {
    pub(crate) manager: u16,
    pub(crate) links: Vec<u16>,
    // How its capture begins, where it begins in the middle of a run.
    midway: Option<Midway>,
    // None once memory was refused amid a judgement.
    state: Option<Past>,
    // The first cycle that is not judged; None where all are.
    next: Option<u64>,
}

impl Course {
    /// That of a manager of which nothing is judged. AllocError where memory is refused.
    pub(crate) fn new(
        alloc: Global,
        topo: &Topo,
        manager: u16,
        midway: Option<Midway>,
    ) -> Result<Course, AllocError>
        requires { manager < length topo.now.managers }
        ensures { IfOk result (IsNewCourse midway topo.now manager) }
    {
        let links = clients_of(alloc, topo, manager)?;
        let next = if links.is_empty() { None } else { Some(0) };
        Ok(Course {
            manager,
            links,
            midway,
            state: Some(Past::new(alloc, topo, manager, midway)?),
            next,
        })
    }

    /// Whether memory was refused amid a judgement.
    pub(crate) fn is_lost(&self) -> bool
        ensures { result ≡ is_none self.now.state }
    {
        self.state.is_none()
    }

    /// How many of the beats that were judged are in lead-ins; 2^64 - 1 where there are more. Where they are all of a run, none is asked for.
    pub(crate) fn lead_ins(&self) -> u64
        ensures { (law : AnyMidway) (m : Manager) (before : List Placed) (state : AnyPast) → self.now.state ≡ Some state → StandsFor (Some law) m state before
            → result ≡ u64_saturate (lead_ins_of m (beginning_of law m) before) }
    {
        match &self.state {
            Some(state) => state.lead_ins(),
            None => 0,
        }
    }

    /// Judges the beats that wait up to a cycle, and answers the rows of what they break, in the order of positions. AllocError where
    /// memory is refused: then each further call is refused too.
    pub(crate) fn judge(
        &mut self,
        alloc: Global,
        topo: &Topo,
        regions: &RegionMap,
        waiting: &Present,
        to: u64,
    ) -> Result<Vec<Row>, AllocError>
        requires running { IsRunning topo.now (areas_of regions.now) self.old }
        ensures running { IsRunning topo.now (areas_of regions.now) self.new }
        ensures ok { IfOk result (λ rows. Judged topo.now (areas_of regions.now) waiting.now to self.old self.new rows.items) }
        ensures err { OnErr result (IsLost self.old self.new) }
    {
        let Some(from) = self.next else {
            return Ok(Vec::new(alloc));
        };
        if to < from {
            return Ok(Vec::new(alloc));
        }
        let Some(mut state) = self.state.take() else {
            return Err(AllocError);
        };
        let walk = waiting.walk_between(alloc, from, to, &self.links)?;
        let rows = state.go_on(alloc, topo, self.manager, regions, walk)?;
        self.state = Some(state);
        self.next = to.checked_add(1);
        Ok(rows)
    }
}
