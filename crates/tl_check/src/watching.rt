//! The rows of monitors.

ghost use Rattle.std.specs.Prelude.{◌∷◌, [], IfOk};
ghost use Rattle.std.specs.List.Sorted.{IsStrictlySortedBy};
ghost use Rattle.tl_definitions.specs.Positions.{position_order};
ghost use Rattle.tl_definitions.specs.Report.{of_monitor, IsReport};
ghost use Rattle.tl_definitions.specs.Tallies.{AreOfOneLink};
ghost use Rattle.tl_check.specs.Captured.{watch_capture, watch_captures};
ghost use Rattle.tl_check.specs.Found.{AreFound};

use std::alloc::{AllocError, Global};
use std::sync::{Arc, OnceLock};
use tl_beats::{Placed, Row, Watch};
use tl_capture::Present;
use tl_monitor::{After, Budget, Monitor, Watched, monitor_check};
use tl_topology::Topo;

/// The report of a monitor on the beats of its link, from the first on.
fn monitor_rows<M: Monitor>(
    alloc: Global,
    number: u32,
    monitor: M,
    beats: &[Placed],
) -> Result<Vec<Row>, AllocError>
    requires link { AreOfOneLink beats.now }
    requires rises { IsStrictlySortedBy position_order beats.now }
    ensures { IfOk result (λ rows. IsReport (of_monitor number (M.held monitor).watch beats.now ∷ []) rows.items) }
{
    let mut watched = Watched::new(monitor);
    // The limit of its watch has 32 bits.
    let _ = watched.watch();
    let checked = monitor_check(alloc, number, &mut watched, 0, beats)?;
    Ok(checked.rows)
}

/// The report of a new monitor with a watch on the beats of a link.
fn flagged_rows(
    alloc: Global,
    number: u32,
    watch: &Watch,
    beats: &[Placed],
) -> Result<Vec<Row>, AllocError>
    requires link { AreOfOneLink beats.now }
    requires rises { IsStrictlySortedBy position_order beats.now }
    ensures { IfOk result (λ rows. IsReport (of_monitor number watch.now beats.now ∷ []) rows.items) }
{
    let cell = Arc::new(alloc, OnceLock::new())?;
    match *watch {
        Watch::Budget { link, class, limit } => {
            let monitor = Budget::new(link, class, limit, cell);
            monitor_rows(alloc, number, monitor, beats)
        }
        Watch::After {
            link,
            first,
            second,
        } => {
            let monitor = After::new(link, first, second, cell);
            monitor_rows(alloc, number, monitor, beats)
        }
    }
}

/// The report of one watch, from the first beat of its link on.
fn watch_rows(
    alloc: Global,
    topo: &Topo,
    present: &Present,
    number: u32,
    watch: &Watch,
) -> Result<Vec<Row>, AllocError>
    ensures { IfOk result (λ rows. IsReport (watch_capture topo.now present.now (number, watch.now) ∷ []) rows.items) }
{
    // No two fragments of a link share a number or a cycle.
    let _ = present.is_empty();
    let Some(link) = topo.link_of(&watch.link()) else {
        return Ok(Vec::new(alloc));
    };
    let beats = present.link_beats(alloc, link)?;
    flagged_rows(alloc, number, watch, &beats)
}

/// The rows of the watches, each with the number of its monitor, one watch after the other. AllocError where memory is refused.
pub fn watches_rows(
    alloc: Global,
    topo: &Topo,
    present: &Present,
    watches: &[(u32, Watch)],
) -> Result<Vec<Row>, AllocError>
    ensures { IfOk result (λ rows. AreFound (watch_captures topo.now present.now watches.now) rows.items) }
{
    let mut rows = Vec::new(alloc);
    for named in watches {
        let (number, watch) = named;
        let found = watch_rows(alloc, topo, present, *number, watch)?;
        rows.extend_from_slice(&found)?;
    }
    Ok(rows)
}
