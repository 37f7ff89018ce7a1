//! The check of a window.

ghost use Rattle.std.specs.Prelude.{◌≡◌, ◌<◌, ◌≤◌, ℕ, length, take, IfOk};
ghost use Rattle.std.specs.List.{All, Contains};
ghost use Rattle.std.specs.List.Sorted.{IsStrictlySortedBy};
ghost use Rattle.tl_topology.specs.Regions.{areas_of};
ghost use Rattle.tl_topology.specs.Topology.{IsSound};
ghost use Rattle.tl_beats.specs.Beats.{IsWellFormed};
ghost use Rattle.tl_definitions.specs.Managers.{declared_links, manager_at};
ghost use Rattle.tl_definitions.specs.Positions.{clients_of, placed_from, position_order};
ghost use Rattle.tl_definitions.specs.Rules.{Manager};
ghost use Rattle.tl_capture.specs.Runs.{IsAlone};
ghost use Rattle.tl_check.specs.Jobs.{GoesOn, Judges, manager_from};
ghost use Rattle.tl_check.specs.Runs.{HasRun};
ghost use Rattle.tl_check.specs.States.{HasLink, IsOf};

use crate::sorted::sort_rows;
use crate::state::SpanState;
use std::alloc::{AllocError, Global};
use tl_beats::Row;
use tl_capture::{Front, Merged, Runs};
use tl_topology::{LinkDecl, RegionMap, Topo};

/// The links of a topology, by number.
fn links_of(alloc: Global, topo: &Topo) -> Result<Vec<LinkDecl>, AllocError>
    ensures exact { IfOk result (λ links. links.items ≡ declared_links topo.now) }
    ensures sound { IfOk result (λ links. All IsSound links.items) }
{
    let mut links = Vec::new(alloc);
    for number in 0..topo.link_count() {
        if let Some(link) = topo.link(number as u16) {
            links.push(*link)?;
        }
    }
    Ok(links)
}

/// After the next beat of a walk, goes on with those after it in its fragment that belong to its burst and are seen to break no rule, where
/// they may be taken ahead of what other fragments have left; answers how many they are.
fn run_on<'a>(left: &Runs<'a>, front: &Front<'a>, state: &mut SpanState) -> usize
    requires link { HasLink state.old front.now.at.link }
    ensures within { result ≤ length front.now.rest.now }
    ensures alone { 1 ≤ result → IsAlone left.now }
    ensures run { (m : Manager) (fragment line : ℕ) → IsOf m state.old
        → HasRun m state.old state.new (placed_from front.now.at.link fragment line (take result front.now.rest.now)) }
{
    if front.goes_on() && left.is_alone() {
        state.run(front.at.link, front.at.beat.chan, front.rest)
    } else {
        0
    }
}

/// Judges the beats that a walk has left, one after the other, from what a state shows; answers the rows of what they break, and the
/// state then shows what is left after them. AllocError where memory is refused: then the state is for nothing more.
fn walk_on<'a>(
    alloc: Global,
    links: &[LinkDecl],
    exponent: u8,
    regions: &RegionMap,
    walk: Merged<'a>,
    state: &mut SpanState,
) -> Result<Vec<Row>, AllocError>
    requires links { All IsSound links.now }
    requires formed { All (λ p. IsWellFormed p.beat) walk }
    requires within { All (λ p. p.link < length links.now) walk }
    requires linked { All (λ p. Contains (manager_from links.now exponent (areas_of regions.now) state.old).clients p.link) walk }
    requires state { IsOf (manager_from links.now exponent (areas_of regions.now) state.old) state.old }
    ensures { IfOk result (λ rows. GoesOn (manager_from links.now exponent (areas_of regions.now) state.old) state.old walk.entry state.new rows.items) }
{
    let mut rows = Vec::new(alloc);
    let mut left = walk.runs();
    while let Some(front) = left.front() {
        let link = &links[usize::from(front.at.link)];
        state.step(alloc, link, exponent, regions, &front.at, &mut rows)?;
        let more = run_on(&left, &front, state);
        left.pass(more);
    }
    Ok(rows)
}

/// Judges the beats of a manager of a topology that a walk has left with these regions, from a state of the manager. Answers the rows of
/// what they break, in the order of positions, and the state goes on after the beats. AllocError where memory is refused: then the
/// state is for nothing more.
pub fn go_on<'a>(
    alloc: Global,
    topo: &Topo,
    manager: u16,
    regions: &RegionMap,
    walk: Merged<'a>,
    state: &mut SpanState,
) -> Result<Vec<Row>, AllocError>
    requires manager { manager < length topo.now.managers }
    requires formed { All (λ p. IsWellFormed p.beat) walk }
    requires linked { All (λ p. Contains (clients_of manager (declared_links topo.now)) p.link) walk }
    requires state { IsOf (manager_at topo.now manager (areas_of regions.now)) state.old }
    ensures { IfOk result (λ rows. GoesOn (manager_at topo.now manager (areas_of regions.now)) state.old walk.entry state.new rows.items) }
{
    let links = links_of(alloc, topo)?;
    let exponent = topo.block(manager).unwrap();
    let rows = walk_on(alloc, &links, exponent, regions, walk, state)?;
    Ok(rows)
}

/// The check of a window of a manager of a topology: judges the beats that a walk has left with these regions from a state of the
/// manager, which goes on after them. That may be a guess: the pass is true of it whatever it is. Answers the rows of what they break, in
/// the order of reports, each once. AllocError where memory is refused: then the state is for nothing more.
pub fn check_window<'a>(
    alloc: Global,
    topo: &Topo,
    manager: u16,
    regions: &RegionMap,
    walk: Merged<'a>,
    state: &mut SpanState,
) -> Result<Vec<Row>, AllocError>
    requires manager { manager < length topo.now.managers }
    requires formed { All (λ p. IsWellFormed p.beat) walk }
    requires linked { All (λ p. Contains (clients_of manager (declared_links topo.now)) p.link) walk }
    requires rises { IsStrictlySortedBy position_order walk }
    requires state { IsOf (manager_at topo.now manager (areas_of regions.now)) state.old }
    ensures { IfOk result (λ rows. Judges (manager_at topo.now manager (areas_of regions.now)) state.old walk.entry state.new rows.items) }
{
    let rows = go_on(alloc, topo, manager, regions, walk, state)?;
    Ok(sort_rows(rows))
}
