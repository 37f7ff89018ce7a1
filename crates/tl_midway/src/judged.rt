//! What was judged of a manager so far, where its capture begins in the middle of a run.

ghost use Rattle.std.specs.Prelude.{◌≡◌, [], List, IfOk};
ghost use Rattle.tl_topology.specs.Regions.{Area};
ghost use Rattle.tl_definitions.specs.Managers.{manager_at};

use crate::midway::Midway;
use crate::state::MidwayState;
use std::alloc::{AllocError, Global};
use tl_beats::Row;
use tl_topology::Topo;

/// What was judged of a manager so far.
#[derive(Drop)]
pub(crate) struct Judged {
    /// The number of the manager.
    pub(crate) manager: u16,
    /// What its beats so far leave for those that come.
    pub(crate) state: MidwayState,
    /// The rows that are printed of them.
    pub(crate) rows: Vec<Row>,
}

impl Judged {
    ghost use Rattle.tl_midway.specs.Judged.{HasJudged};

    /// No beat of a manager, whose capture begins so. AllocError where memory is refused.
    pub(crate) fn new(
        alloc: Global,
        topo: &Topo,
        manager: u16,
        law: Midway,
    ) -> Result<Judged, AllocError>
        ensures none { (regions : List Area) → IfOk result (λ judged. HasJudged (manager_at topo.now manager regions) law [] judged) }
        ensures manager { IfOk result (λ judged. judged.manager ≡ manager) }
    {
        Ok(Judged {
            manager,
            state: MidwayState::new(alloc, topo, manager, law)?,
            rows: Vec::new(alloc),
        })
    }
}
