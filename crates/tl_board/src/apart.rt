//! Windows of managers without caches: their links are judged one after the other.

ghost use Rattle.std.specs.Prelude.{◌<◌, List, length, IfOk};
ghost use Rattle.std.specs.List.{All};
ghost use Rattle.std.specs.List.Sorted.{IsStrictlySortedBy};
ghost use Rattle.std.specs.Ordering.{nat_cmp};
ghost use Rattle.tl_beats.specs.declared.Placed.{Placed as AnyPlaced};
ghost use Rattle.tl_topology.specs.Regions.{areas_of};
ghost use Rattle.tl_definitions.specs.Managers.{declared_links, manager_at};
ghost use Rattle.tl_definitions.specs.Positions.{beats_of_all, clients_of};
ghost use Rattle.tl_capture.specs.Windows.{beats_in, AreBeatsOf};
ghost use Rattle.tl_check.specs.Jobs.{GoesOn, Judges};
ghost use Rattle.tl_check.specs.States.{IsOf};
ghost use Rattle.tl_check.specs.LinkByLink.{one_after_other};
ghost use Rattle.tl_board.specs.Apart.{AreApart, IsParted};

use std::alloc::{AllocError, Global};
use tl_beats::Row;
use tl_capture::{Present, WindowBeats};
use tl_check::{SpanState, are_plain, go_on, sort_rows};
use tl_topology::{RegionMap, Topo};

/// The most links that are judged one after the other: each asks for all links of the topology anew.
const MOST_LINKS: usize = 64;

/// The beats in a window of each of these links, whose numbers rise, shared and not copied; none at all where a link has caches, or where
/// there are many links. AllocError where memory is refused.
pub(crate) fn beats_apart(
    alloc: Global,
    topo: &Topo,
    present: &Present,
    window: u64,
    links: &[u16],
) -> Result<Vec<WindowBeats>, AllocError>
    requires { IsStrictlySortedBy nat_cmp links.now }
    ensures { IfOk result (λ lists. AreApart topo.now links.now (beats_in window (beats_of_all links.now present.now)) lists.items) }
{
    // No two fragments of a link share a number or a cycle.
    let _ = present.is_empty();
    let mut lists = Vec::new(alloc);
    if links.len() > MOST_LINKS || !are_plain(topo, links) {
        return Ok(lists);
    }
    for link in links {
        let own = present.window_beats(alloc, window, &[*link])?;
        lists.push(own)?;
    }
    Ok(lists)
}

/// Judges lists of beats of a manager of a topology, one after the other, from what a state shows; answers the rows of what they break,
/// and the state goes on after them. AllocError where memory is refused: then the state is for nothing more.
fn go_through(
    alloc: Global,
    topo: &Topo,
    manager: u16,
    regions: &RegionMap,
    lists: &[WindowBeats],
    state: &mut SpanState,
) -> Result<Vec<Row>, AllocError>
    requires manager { manager < length topo.now.managers }
    requires each { All (AreBeatsOf (clients_of manager (declared_links topo.now))) lists.now }
    requires state { IsOf (manager_at topo.now manager (areas_of regions.now)) state.old }
    ensures { IfOk result (λ rows. GoesOn (manager_at topo.now manager (areas_of regions.now)) state.old (one_after_other lists.now) state.new rows.items) }
{
    let mut rows = Vec::new(alloc);
    for beats in lists {
        let walk = beats.walk(alloc)?;
        let found = go_on(alloc, topo, manager, regions, walk, state)?;
        rows.extend_from_slice(&found)?;
    }
    Ok(rows)
}

/// The check of a window of a manager without caches: judges the beats of its links, one link after the other, from a state of the
/// manager, which goes on after them, as `check_window` does in the order of positions. Answers the rows of what they break, in the order
/// of reports, each once. AllocError where memory is refused: then the state is for nothing more.
pub(crate) fn check_apart(
    alloc: Global,
    topo: &Topo,
    manager: u16,
    regions: &RegionMap,
    lists: &[WindowBeats],
    state: &mut SpanState,
) -> Result<Vec<Row>, AllocError>
    requires manager { manager < length topo.now.managers }
    requires each { All (AreBeatsOf (clients_of manager (declared_links topo.now))) lists.now }
    requires state { IsOf (manager_at topo.now manager (areas_of regions.now)) state.old }
    ensures { (beats : List AnyPlaced) → IsParted topo.now manager beats lists.now
        → IfOk result (λ rows. Judges (manager_at topo.now manager (areas_of regions.now)) state.old beats state.new rows.items) }
{
    let rows = go_through(alloc, topo, manager, regions, lists, state)?;
    Ok(sort_rows(rows))
}
