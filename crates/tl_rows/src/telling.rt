//! The rows of a manager's beats, each with what makes it so, in one pass over the beats.

ghost use Rattle.std.specs.Prelude.{◌≡◌, ◌<◌, ◌==◌, ◌++◌, ℕ, [], length, reverse, IfOk, OnOk};
ghost use Rattle.std.specs.BTreeSet.{contains};
ghost use Rattle.std.specs.List.{All, list_any};
ghost use Rattle.std.specs.Ordering.{nat_cmp};
ghost use Rattle.tl_beats.specs.Beats.{IsWellFormed};
ghost use Rattle.tl_rows.specs.Counts.{heads_after, AreOpen};
ghost use Rattle.tl_rows.specs.States.{OnBeats, manager_with};
ghost use Rattle.tl_rows.specs.Telling.{is_of, told_at, told_after};

use crate::counts::{OpenCounts, one_if};
use crate::manager::ManagerOrigins;
use crate::reason::Reason;
use std::alloc::{AllocError, Global};
use std::collections::BTreeSet;
use tl_beats::{Placed, Row};
use tl_topology::Topo;

/// A row with its beat, and what makes it so.
#[derive(Clone, Copy, Debug, PartialEq)]
pub struct Told {
    /// The row.
    pub row: Row,
    /// Its beat.
    pub place: Placed,
    /// What makes its beat break its rule.
    pub reason: Reason,
}

/// What a pass over the beats of a manager tells.
#[derive(Drop)]
pub struct Telling {
    /// The rows of its beats, beat by beat.
    pub told: Vec<Told>,
    /// How many of its beats are heads.
    pub heads: usize,
    /// How much is open after them.
    pub open: OpenCounts,
}

/// Whether the row is of the beat.
fn is_of(place: &Placed, row: &Row) -> bool
    ensures { result ≡ is_of place.now row.now }
{
    row.link == place.link && row.cycle == place.beat.cycle && row.chan == place.beat.chan
}

/// The cycles of rows.
fn cycles_of(alloc: Global, rows: &[Row]) -> Result<BTreeSet<u64>, AllocError>
    ensures { IfOk result (λ cycles. (cycle : ℕ) → contains nat_cmp cycles cycle ≡ list_any (λ row. row.cycle == cycle) rows.now) }
{
    let mut cycles = BTreeSet::new(alloc);
    for row in rows {
        cycles.insert(row.cycle)?;
    }
    Ok(cycles)
}

/// Puts those of the rows that are of the next beat after others, each with its reason.
fn tell_beat(
    state: &ManagerOrigins,
    topo: &Topo,
    clients: &[u16],
    rows: &[Row],
    place: &Placed,
    told: &mut Vec<Told>,
) -> Result<(), AllocError>
    requires beat { IsWellFormed place.now.beat }
    requires link { place.now.link < length state.now.links.items }
    requires declared { place.now.link < length topo.now.links }
    ensures { (exponent : ℕ) → OnBeats (manager_with topo.now exponent clients.now) state.now
        (λ m before. OnOk result (told.new.items ≡ told.old.items ++ told_at m rows.now before place.now)) }
{
    for row in rows {
        if is_of(place, row) {
            let reason = state.reason(topo, clients, place, row.rule);
            told.push(Told {
                row: *row,
                place: *place,
                reason,
            })?;
        }
    }
    Ok(())
}

/// The rows of a manager's beats, beat by beat, each with what makes it so. The manager's blocks have 2 to the exponent bytes,
/// its clients are the links with these numbers, and these are all its beats in the order of positions. Rows of no beat of them
/// are passed over. Beside them how many of the beats are heads, and how much is open after the last. AllocError where memory
/// is refused.
pub fn tell(
    alloc: Global,
    topo: &Topo,
    exponent: u8,
    clients: &[u16],
    beats: &[Placed],
    rows: &[Row],
) -> Result<Telling, AllocError>
    requires formed { All (λ p. IsWellFormed p.beat) beats.now }
    requires within { All (λ p. p.link < length topo.now.links) beats.now }
    requires clients { All (λ client. client < length topo.now.links) clients.now }
    ensures told { IfOk result (λ telling. telling.told.items ≡ told_after (manager_with topo.now exponent clients.now) rows.now [] beats.now) }
    ensures heads { IfOk result (λ telling. telling.heads ≡ heads_after (manager_with topo.now exponent clients.now).links [] beats.now) }
    ensures open { IfOk result (λ telling. AreOpen (manager_with topo.now exponent clients.now) (reverse beats.now) telling.open) }
{
    let cycles = cycles_of(alloc, rows)?;
    let mut state = ManagerOrigins::new(alloc, topo, exponent)?;
    let mut told = Vec::new(alloc);
    let mut heads = 0;
    for place in beats {
        if cycles.contains(&place.beat.cycle) {
            tell_beat(&state, topo, clients, rows, place, &mut told)?;
        }
        heads += one_if(state.is_head(topo, place));
        state.step(topo, place)?;
    }
    let open = state.open_counts(topo, clients)?;
    Ok(Telling { told, heads, open })
}
