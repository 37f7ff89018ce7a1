//! The report of what stands: fragments, regions and monitors.

ghost use Rattle.std.specs.Prelude.{◌<◌, IfOk, length};
ghost use Rattle.std.specs.List.{All};
ghost use Rattle.tl_definitions.specs.Report.{IsReport};
ghost use Rattle.tl_check.specs.Captured.{captures_with, AllRegions};
ghost use Rattle.tl_check.specs.Managers.{AreOfManagers};

use crate::managers::managers_rows;
use crate::sorted::sort_rows;
use crate::watching::watches_rows;
use std::alloc::{AllocError, Global};
use tl_beats::{Row, Watch};
use tl_capture::Present;
use tl_topology::{RegionMap, Topo};

/// The report of what stands, of which these are the rows of managers: those of the watches of monitors are put after them, and all are put
/// in order. AllocError where memory is refused.
pub(crate) fn with_watches(
    alloc: Global,
    topo: &Topo,
    present: &Present,
    watches: &[(u32, Watch)],
    managers: Vec<Row>,
) -> Result<Vec<Row>, AllocError>
    ensures report { (regions : AllRegions) → AreOfManagers topo.now regions present.now managers.items
        → IfOk result (λ rows. IsReport (captures_with topo.now present.now regions watches.now) rows.items) }
    ensures links { (regions : AllRegions) → AreOfManagers topo.now regions present.now managers.items
        → IfOk result (λ rows. All (λ row. row.link < length topo.now.links) rows.items) }
{
    // No two fragments of a link share a number or a cycle.
    let _ = present.is_empty();
    let flagged = watches_rows(alloc, topo, present, watches)?;
    let mut rows = managers;
    rows.extend_from_slice(&flagged)?;
    Ok(sort_rows(rows))
}

/// The report of what stands: of the fragments that are present on the links of a topology, with the regions of its managers,
/// by number, and the watches of the monitors that are attached, each with its monitor's number. A manager without an entry has
/// no regions. A watch of a link that the topology does not have flags nothing. AllocError where memory is refused.
pub fn check_all(
    alloc: Global,
    topo: &Topo,
    present: &Present,
    regions: &[RegionMap],
    watches: &[(u32, Watch)],
) -> Result<Vec<Row>, AllocError>
    ensures report { IfOk result (λ rows. IsReport (captures_with topo.now present.now regions.now watches.now) rows.items) }
    ensures links { IfOk result (λ rows. All (λ row. row.link < length topo.now.links) rows.items) }
{
    let managers = managers_rows(alloc, topo, present, regions)?;
    let rows = with_watches(alloc, topo, present, watches, managers)?;
    Ok(rows)
}
