//! When a monitor is dropped, as its cell tells.

use crate::bench::name;
use crate::counting::GET;
use crate::retries::{found, open_desk};
use std::alloc::Global;
use std::sync::{Arc, OnceLock};
use std::test::Fail;
use tl_desk::Desk;
use tl_edits::{Change, EditFault};
use tl_monitor::{Budget, Settlement};

/// A cell that a monitor leaves its settlement in when it is dropped.
pub(crate) type Cell = Arc<OnceLock<Settlement>>;

/// A cell; None where memory is refused.
pub(crate) fn new_cell(alloc: Global) -> Option<Cell> {
    match Arc::new(alloc, OnceLock::new()) {
        Ok(cell) => Some(cell),
        Err(_) => None,
    }
}

/// A cell.
fn cell(alloc: Global) -> Result<Cell, Fail> {
    found(new_cell(alloc), "a cell")
}

/// The edit that closed the monitor of a cell, or 0, once it is dropped.
fn closed_at(cell: &Cell) -> Option<u64> {
    match cell.get() {
        Some(told) => Some(told.closed_at),
        None => None,
    }
}

/// A Budget of dma0 that lets no Get through.
fn budget(cell: &Cell) -> Result<Budget, Fail> {
    Ok(Budget::new(name("dma0")?, GET, 0, Arc::try_clone(cell)?))
}

/// Attaches a monitor 5 with a cell. Where it is refused: why, and what its cell tells once it is back, and once it is dropped there.
fn attach(
    alloc: Global,
    desk: &mut Desk<Budget>,
    cell: &Cell,
) -> Result<Option<(EditFault, Option<u64>, Option<u64>)>, Fail> {
    match desk.attach(alloc, 5, budget(cell)?) {
        Ok(_) => Ok(None),
        Err((fault, back)) => {
            let held = closed_at(cell);
            drop(back);
            Ok(Some((fault, held, closed_at(cell))))
        }
    }
}

/// What the cell of a monitor tells before its detach, and after it.
fn told_by_detach(
    alloc: Global,
    desk: &mut Desk<Budget>,
    cell: &Cell,
) -> Result<(Option<u64>, Option<u64>), Fail> {
    attach(alloc, desk, cell)?;
    let before = closed_at(cell);
    match desk.edit(alloc, Change::Detach(5)) {
        Ok(_) => Ok((before, closed_at(cell))),
        Err(_) => Err(Fail::new("refused")),
    }
}

/// The same on a desk of its own.
fn told_by_one(alloc: Global, cell: &Cell) -> Result<(Option<u64>, Option<u64>), Fail> {
    let mut desk = open_desk(alloc)?;
    let told = told_by_detach(alloc, &mut desk, cell);
    drop(desk);
    told
}

#[test]
fn a_detach_drops_its_monitor(rt: HostRuntime) -> Result<(), Fail> {
    let alloc = rt.alloc();
    let cell = cell(alloc)?;
    let told = told_by_one(alloc, &cell)?;
    assert!(rt; told == (None, Some(2)));
    Ok(())
}

/// What attaching a second monitor under a number comes to.
fn told_by_second(
    alloc: Global,
    desk: &mut Desk<Budget>,
    first: &Cell,
    second: &Cell,
) -> Result<Option<(EditFault, Option<u64>, Option<u64>)>, Fail> {
    match attach(alloc, desk, first) {
        Ok(_) => attach(alloc, desk, second),
        Err(fail) => Err(fail),
    }
}

/// The same on a desk of its own.
fn told_by_two(
    alloc: Global,
    first: &Cell,
    second: &Cell,
) -> Result<Option<(EditFault, Option<u64>, Option<u64>)>, Fail> {
    let mut desk = open_desk(alloc)?;
    let told = told_by_second(alloc, &mut desk, first, second);
    drop(desk);
    told
}

#[test]
fn a_refused_monitor_is_alive(rt: HostRuntime) -> Result<(), Fail> {
    // It is dropped where it came back to, and no edit closed it; the first goes with its desk.
    let alloc = rt.alloc();
    let first = cell(alloc)?;
    let second = cell(alloc)?;
    let told = told_by_two(alloc, &first, &second)?;
    assert!(rt; told == Some((EditFault::MonitorExists, None, Some(0))));
    assert!(rt; closed_at(&first) == Some(0));
    Ok(())
}
