//! What makes the rows of a stream so, from what its beats left.

ghost use Rattle.std.specs.Prelude.{◌≡◌, ◌<◌, length};
ghost use Rattle.std.specs.List.{All};
ghost use Rattle.tl_beats.specs.Beats.{IsWellFormed};
ghost use Rattle.tl_rows.specs.States.{links_in};

use std::alloc::{AllocError, Global};
use tl_beats::{Placed, Row};
use tl_capture::Merged;
use tl_check::Completed;
use tl_client_rules::clients_of;
use tl_rows::{ManagerOrigins, Told};
use tl_topology::Topo;

/// What the beats of a manager that were seen leave that a reason can name.
#[derive(Drop)]
pub(crate) struct Trail {
    origins: ManagerOrigins,
    // The first cycle that wasn't seen; None where all were.
    next: Option<u64>,
}

/// Whether a row is of a beat.
fn is_of(place: &Placed, row: &Row) -> bool {
    row.link == place.link && row.fragment == place.fragment && row.line == place.line
}

/// Puts those of the rows that come next that are of the next beat of a manager with these clients at the end, each with its reason.
fn tell_beat(
    origins: &ManagerOrigins,
    topo: &Topo,
    clients: &[u16],
    rows: &[Row],
    place: &Placed,
    told: &mut Vec<Told>,
) -> Result<(), AllocError>
    requires beat { IsWellFormed place.now.beat }
    requires link { place.now.link < links_in origins.now }
    requires declared { place.now.link < length topo.now.links }
{
    for index in told.len()..rows.len() {
        let row = rows[index];
        if !is_of(place, &row) {
            return Ok(());
        }
        let reason = origins.reason(topo, clients, place, row.rule);
        told.push(Told {
            row,
            place: *place,
            reason,
        })?;
    }
    Ok(())
}

/// Sees the beats that a walk has left, and puts their rows at the end, each with its reason. Both are in the order of positions.
fn see<'a>(
    topo: &Topo,
    clients: &[u16],
    walk: Merged<'a>,
    rows: &[Row],
    origins: &mut ManagerOrigins,
    told: &mut Vec<Told>,
) -> Result<(), AllocError>
    requires formed { All (λ p. IsWellFormed p.beat) walk }
    requires within { All (λ p. p.link < length topo.now.links) walk }
    requires count { links_in origins.old ≡ length topo.now.links }
{
    for place in walk {
        tell_beat(origins, topo, clients, rows, &place, told)?;
        origins.step(topo, &place)?;
    }
    Ok(())
}

impl Trail {
    /// That of a manager of which no beat was seen. AllocError where memory is refused.
    pub(crate) fn new(alloc: Global, topo: &Topo, manager: u16) -> Result<Trail, AllocError> {
        let exponent = topo.block(manager).unwrap_or(0);
        Ok(Trail {
            origins: ManagerOrigins::new(alloc, topo, exponent)?,
            next: Some(0),
        })
    }

    /// Sees beats that became complete. The first of these rows are told; puts those of the beats at the end, each with its reason.
    /// AllocError where memory is refused: then the trail is for nothing more.
    pub(crate) fn follow(
        &mut self,
        alloc: Global,
        completed: &Completed<'_>,
        rows: &[Row],
        told: &mut Vec<Told>,
    ) -> Result<(), AllocError> {
        let topo = completed.topo;
        let to = completed.to;
        let Some(from) = self.next else {
            return Ok(());
        };
        if to < from || self.origins.link_count() != topo.link_count() {
            return Ok(());
        }
        let links = clients_of(alloc, topo, completed.manager)?;
        let walk = completed.kept.walk_between(alloc, from, to, &links)?;
        self.next = to.checked_add(1);
        see(topo, &links, walk, rows, &mut self.origins, told)
    }
}
