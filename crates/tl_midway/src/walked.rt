//! The rows of a manager's capture that begins in the middle of a run.

ghost use Rattle.std.specs.Prelude.{◌≡◌, IfOk};
ghost use Rattle.std.specs.Io.Iter.{u64_saturate};
ghost use Rattle.std.specs.List.{All, Contains};
ghost use Rattle.tl_topology.specs.Regions.{areas_of};
ghost use Rattle.tl_beats.specs.Beats.{IsWellFormed};
ghost use Rattle.tl_definitions.specs.Managers.{declared_links, manager_at};
ghost use Rattle.tl_definitions.specs.Positions.{clients_of};
ghost use Rattle.tl_midway.specs.Counts.{counted};
ghost use Rattle.tl_midway.specs.LeadIns.{leads_in};
ghost use Rattle.tl_midway.specs.State.{IsOf};
ghost use Rattle.tl_midway.specs.Walked.{rows_by, AreCertain, GoesOn};

use crate::midway::Midway;
use crate::state::MidwayState;
use std::alloc::{AllocError, Global};
use tl_beats::Row;
use tl_capture::Merged;
use tl_topology::{RegionMap, Topo};

/// Judges the beats of a manager of a topology that a walk has left with these regions, from a state of the manager's links. Answers the
/// rows that they have whatever came before the capture, in the order of positions, and the state goes on after the beats. AllocError
/// where memory is refused: then the state is for nothing more.
pub fn walk_on<'a>(
    alloc: Global,
    topo: &Topo,
    manager: u16,
    regions: &RegionMap,
    walk: Merged<'a>,
    state: &mut MidwayState,
) -> Result<Vec<Row>, AllocError>
    requires formed { All (λ p. IsWellFormed p.beat) walk }
    requires linked { All (λ p. Contains (clients_of manager (declared_links topo.now)) p.link) walk }
    requires state { IsOf (manager_at topo.now manager (areas_of regions.now)) state.old }
    ensures { IfOk result (λ rows. GoesOn (manager_at topo.now manager (areas_of regions.now)) state.old walk.entry state.new rows.items) }
{
    let mut rows = Vec::new(alloc);
    for at in walk {
        let link = topo.link(at.link).unwrap();
        state.step(alloc, link, regions, &at, &mut rows)?;
    }
    Ok(rows)
}

/// What was found in beats of a capture that begins in the middle of a run.
#[derive(Drop)]
pub struct Walked {
    /// The rows that are printed of them.
    pub rows: Vec<Row>,
    /// How many of the beats are in lead-ins; 2^64 - 1 where there are more.
    pub lead_ins: u64,
}

/// The rows of the beats of a manager with these regions that a walk gives, where its capture begins in the middle of a run: those that
/// it has whatever came before, by the law that is asked for, in the order of positions. Counts the beats that are in lead-ins. AllocError
/// where memory is refused.
pub fn midway_rows<'a>(
    alloc: Global,
    topo: &Topo,
    manager: u16,
    regions: &RegionMap,
    law: Midway,
    walk: Merged<'a>,
) -> Result<Walked, AllocError>
    requires formed { All (λ p. IsWellFormed p.beat) walk }
    requires linked { All (λ p. Contains (clients_of manager (declared_links topo.now)) p.link) walk }
    ensures exact { IfOk result (λ found. found.rows.items ≡ rows_by law (manager_at topo.now manager (areas_of regions.now)) walk.entry) }
    ensures certain { IfOk result (λ found. AreCertain law (manager_at topo.now manager (areas_of regions.now)) walk.entry found.rows.items) }
    ensures lead_ins { IfOk result (λ found. found.lead_ins ≡ u64_saturate (counted leads_in law (manager_at topo.now manager (areas_of regions.now)) walk.entry)) }
{
    let mut state = MidwayState::new(alloc, topo, manager, law)?;
    let rows = walk_on(alloc, topo, manager, regions, walk, &mut state)?;
    Ok(Walked {
        rows,
        lead_ins: state.lead_ins(),
    })
}
