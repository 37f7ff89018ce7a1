//! The rows of managers, from their first beats on.

ghost use Rattle.std.specs.Prelude.{◌≡◌, ◌<◌, IfOk, length};
ghost use Rattle.std.specs.Bool.{Decides};
ghost use Rattle.std.specs.List.{All};
ghost use Rattle.tl_topology.specs.Regions.{areas_of};
ghost use Rattle.tl_definitions.specs.Managers.{declared_links, manager_at};
ghost use Rattle.tl_definitions.specs.Positions.{beats_of_all, clients_of};
ghost use Rattle.tl_check.specs.Apart.{rows_of_links};
ghost use Rattle.tl_check.specs.Managers.{has_caches, cached_links, plain_links, numbered, IsPlain, AreMerged, ArePlainRows, AreOfManager, AreOfManagers, HasManagers};

use crate::apart::add_link;
use crate::{SpanState, check_window};
use std::alloc::{AllocError, Global};
use tl_beats::Row;
use tl_capture::Present;
use tl_client_rules::clients_of;
use tl_tables::Level;
use tl_topology::{RegionMap, Topo};

/// Whether a link of the topology has caches.
pub fn has_caches(topo: &Topo, link: u16) -> bool
    ensures { result ≡ has_caches topo.now link }
{
    match topo.link(link) {
        Some(decl) => decl.level == Level::C,
        None => false,
    }
}

/// Whether none of these links has caches.
pub fn are_plain(topo: &Topo, links: &[u16]) -> bool
    ensures { Decides result (All (IsPlain topo.now) links.now) }
{
    for link in links {
        if has_caches(topo, *link) {
            return false;
        }
    }
    true
}

/// Those of these links that have caches. AllocError where memory is refused.
fn cached_links(alloc: Global, topo: &Topo, links: &[u16]) -> Result<Vec<u16>, AllocError>
    ensures { IfOk result (λ cached. cached.items ≡ cached_links topo.now links.now) }
{
    links
        .iter()
        .copied()
        .filter(|link| has_caches(topo, *link))
        .collect(alloc)
}

/// Those that have none. AllocError where memory is refused.
fn plain_links(alloc: Global, topo: &Topo, links: &[u16]) -> Result<Vec<u16>, AllocError>
    ensures { IfOk result (λ plain. plain.items ≡ plain_links topo.now links.now) }
{
    links
        .iter()
        .copied()
        .filter(|link| !has_caches(topo, *link))
        .collect(alloc)
}

/// The rows of links below the level of caches with the regions of their manager, one link after the other, each from its first beat
/// on. AllocError where memory is refused.
pub(crate) fn links_rows(
    alloc: Global,
    topo: &Topo,
    present: &Present,
    manager: u16,
    regions: &RegionMap,
    links: &[u16],
) -> Result<Vec<Row>, AllocError>
    requires manager { manager < length topo.now.managers }
    requires plain { All (IsPlain topo.now) links.now }
    requires within { All (λ link. link < length topo.now.links) links.now }
    ensures { IfOk result (λ rows. rows.items ≡ rows_of_links (manager_at topo.now manager (areas_of regions.now)) present.now links.now) }
{
    // No two fragments of a link share a number or a cycle.
    let _ = present.is_empty();
    let exponent = topo.block(manager).unwrap();
    let mut rows = Vec::new(alloc);
    for link in links {
        let decl = topo.link(*link).unwrap();
        let walk = present.walk(alloc, &[*link])?;
        add_link(alloc, decl, exponent, regions, walk, &mut rows)?;
    }
    Ok(rows)
}

/// The rows of the beats of these links of a manager with its regions, judged one after the other in the order of positions.
fn merged_rows(
    alloc: Global,
    topo: &Topo,
    present: &Present,
    manager: u16,
    regions: &RegionMap,
    links: &[u16],
) -> Result<Vec<Row>, AllocError>
    requires manager { manager < length topo.now.managers }
    requires links { links.now ≡ cached_links topo.now (clients_of manager (declared_links topo.now)) }
    ensures { IfOk result (λ rows. AreMerged (manager_at topo.now manager (areas_of regions.now)) (beats_of_all links.now present.now) rows.items) }
{
    let walk = present.walk(alloc, links)?;
    let mut state = SpanState::opening(alloc, topo, manager)?;
    let rows = check_window(alloc, topo, manager, regions, walk, &mut state)?;
    Ok(rows)
}

/// The links of a manager that have no caches, in rising order. AllocError where memory is refused.
pub(crate) fn plain_links_of(
    alloc: Global,
    topo: &Topo,
    manager: u16,
) -> Result<Vec<u16>, AllocError>
    ensures exact { IfOk result (λ links. links.items ≡ plain_links topo.now (clients_of manager (declared_links topo.now))) }
    ensures plain { IfOk result (λ links. All (IsPlain topo.now) links.items) }
    ensures within { IfOk result (λ links. All (λ link. link < length topo.now.links) links.items) }
{
    let links = clients_of(alloc, topo, manager)?;
    let plain = plain_links(alloc, topo, &links)?;
    Ok(plain)
}

/// The rows of a manager with its regions, of which these are those of its links without caches: those of its links with caches are judged
/// and put after them.
pub(crate) fn with_caches(
    alloc: Global,
    topo: &Topo,
    present: &Present,
    manager: u16,
    regions: &RegionMap,
    plain: Vec<Row>,
) -> Result<Vec<Row>, AllocError>
    requires manager { manager < length topo.now.managers }
    requires plain { ArePlainRows topo.now manager (areas_of regions.now) present.now plain.items }
    ensures { IfOk result (λ rows. AreOfManager topo.now manager (areas_of regions.now) present.now rows.items) }
{
    // No two fragments of a link share a number or a cycle.
    let _ = present.is_empty();
    let clients = clients_of(alloc, topo, manager)?;
    let cached = cached_links(alloc, topo, &clients)?;
    let merged = merged_rows(alloc, topo, present, manager, regions, &cached)?;
    let mut rows = plain;
    rows.extend_from_slice(&merged)?;
    Ok(rows)
}

/// The rows of a manager with its regions, from its first beat on. Each link without caches is judged by itself, and those with caches
/// together.
fn manager_rows(
    alloc: Global,
    topo: &Topo,
    present: &Present,
    manager: u16,
    regions: &RegionMap,
) -> Result<Vec<Row>, AllocError>
    requires { manager < length topo.now.managers }
    ensures { IfOk result (λ rows. AreOfManager topo.now manager (areas_of regions.now) present.now rows.items) }
{
    let links = plain_links_of(alloc, topo, manager)?;
    let plain = links_rows(alloc, topo, present, manager, regions, &links)?;
    with_caches(alloc, topo, present, manager, regions, plain)
}

/// The numbers of all managers. AllocError where memory is refused.
pub(crate) fn manager_numbers(alloc: Global, topo: &Topo) -> Result<Vec<u16>, AllocError>
    ensures exact { IfOk result (λ managers. managers.items ≡ numbered 0 topo.now.managers) }
    ensures within { IfOk result (λ managers. All (λ manager. manager < length topo.now.managers) managers.items) }
{
    let mut managers = Vec::new(alloc);
    for manager in 0..topo.manager_count() {
        managers.push(manager as u16)?;
    }
    Ok(managers)
}

/// The rows of these managers with their regions, one manager after the other. AllocError where memory is refused.
pub(crate) fn rows_of_managers(
    alloc: Global,
    topo: &Topo,
    present: &Present,
    regions: &[RegionMap],
    managers: &[u16],
) -> Result<Vec<Row>, AllocError>
    requires { All (λ manager. manager < length topo.now.managers) managers.now }
    ensures { IfOk result (λ rows. HasManagers topo.now regions.now present.now managers.now rows.items) }
{
    let none = RegionMap::new(alloc);
    let mut rows = Vec::new(alloc);
    for manager in managers {
        let own = regions.get(*manager as usize).unwrap_or(&none);
        let found = manager_rows(alloc, topo, present, *manager, own)?;
        rows.extend_from_slice(&found)?;
    }
    Ok(rows)
}

/// The rows of all managers with their regions, one manager after the other. AllocError where memory is refused.
pub fn managers_rows(
    alloc: Global,
    topo: &Topo,
    present: &Present,
    regions: &[RegionMap],
) -> Result<Vec<Row>, AllocError>
    ensures { IfOk result (λ rows. AreOfManagers topo.now regions.now present.now rows.items) }
{
    let managers = manager_numbers(alloc, topo)?;
    let rows = rows_of_managers(alloc, topo, present, regions, &managers)?;
    Ok(rows)
}
