//! The rows of managers without caches whose links begin at heads.

ghost use Rattle.std.specs.Prelude.{◌≡◌, ◌<◌, ℕ, true, List, IfOk};
ghost use Rattle.std.specs.List.{All};
ghost use Rattle.tl_topology.specs.Regions.{Area, areas_of};
ghost use Rattle.tl_topology.specs.Topology.{IsSound};
ghost use Rattle.tl_definitions.specs.Managers.{declared_links, manager_at};
ghost use Rattle.tl_definitions.specs.Positions.{clients_of};
ghost use Rattle.tl_definitions.specs.Rules.{Manager};
ghost use Rattle.tl_check.specs.Managers.{IsPlain};
ghost use Rattle.tl_midway.specs.Judged.{AreRowsOf};
ghost use Rattle.tl_midway.specs.Midway.{beginning_of};
ghost use Rattle.tl_midway.specs.declared.midway.Midway.{Midway as Law};
ghost use Rattle.tl_midway.specs.Named.{BeginsAtHeads, AllBegin};

use crate::midway::Midway;
use crate::named::named_walk;
use std::alloc::{AllocError, Global};
use tl_beats::Row;
use tl_capture::Present;
use tl_check::are_plain;
use tl_tables::Chan;
use tl_topology::{LinkDecl, RegionMap, Topo};

/// Whether no message of a link can have begun before a capture that begins so; false says nothing.
fn begins_at_heads(law: Midway, link: &LinkDecl) -> bool
    requires { IsSound link.now }
    ensures { result ≡ true → (m : Manager) (number : ℕ) → m.links number ≡ link.now → BeginsAtHeads (beginning_of law m) number }
{
    law.most(link, Chan::A) == 0
        && law.most(link, Chan::B) == 0
        && law.most(link, Chan::C) == 0
        && law.most(link, Chan::D) == 0
        && law.most(link, Chan::E) == 0
}

/// So of each of these links.
fn all_begin_at_heads(law: Midway, topo: &Topo, links: &[u16]) -> bool
    ensures { result ≡ true → (manager : ℕ) (areas : List Area) → AllBegin (beginning_of law (manager_at topo.now manager areas)) links.now }
{
    for number in links {
        let Some(link) = topo.link(*number) else {
            return false;
        };
        if !begins_at_heads(law, link) {
            return false;
        }
    }
    true
}

/// Whether these links can be judged as if nothing came before a capture that begins so: none has caches, and no message of them can have
/// begun before it; false says nothing.
pub(crate) fn judges_as_whole(law: Midway, topo: &Topo, links: &[u16]) -> bool
    ensures plain { result ≡ true → All (IsPlain topo.now) links.now }
    ensures heads { result ≡ true → (manager : ℕ) (areas : List Area) → AllBegin (beginning_of law (manager_at topo.now manager areas)) links.now }
{
    are_plain(topo, links) && all_begin_at_heads(law, topo, links)
}

/// The rows that are printed of a manager without caches, one link after the other, where no message can have begun before the capture.
/// AllocError where memory is refused.
pub(crate) fn named_links(
    alloc: Global,
    topo: &Topo,
    present: &Present,
    manager: u16,
    regions: &RegionMap,
    links: &[u16],
) -> Result<Vec<Row>, AllocError>
    requires links { links.now ≡ clients_of manager (declared_links topo.now) }
    requires plain { All (IsPlain topo.now) links.now }
    ensures { (law : Law) → AllBegin (beginning_of law (manager_at topo.now manager (areas_of regions.now))) links.now
        → IfOk result (λ rows. AreRowsOf law topo.now (areas_of regions.now) present.now manager rows.items) }
{
    // No two fragments of a link share a number or a cycle.
    let _ = present.is_empty();
    let exponent = topo.block(manager).unwrap_or(0);
    let mut rows = Vec::new(alloc);
    for number in links {
        let link = topo.link(*number).unwrap();
        let walk = present.walk(alloc, &[*number])?;
        named_walk(alloc, link, exponent, regions, walk, &mut rows)?;
    }
    Ok(rows)
}
