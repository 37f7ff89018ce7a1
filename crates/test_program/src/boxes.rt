//! A monitor that is detached while it is out: its cell is empty until it comes back.

ghost use Rattle.std.specs.Prelude.{◌≡◌, None, OnOk};
ghost use Rattle.tl_monitor.specs.Boxes.{place_at, attached_at};

use std::alloc::Global;
use std::sync::{Arc, OnceLock};
use std::test::Fail;
use tl_beats::{Class, Watch};
use tl_monitor::{Boxes, Budget, Settlement, Watched};
use tl_tables::Chan;
use tl_topology::Name;

/// A cell that a monitor leaves its settlement in when it is dropped.
type Cell = Arc<OnceLock<Settlement>>;

const GET: Class = Class {
    chan: Chan::A,
    opcode: 4,
};

/// A Budget with a limit of 10.
fn budget(cell: &Cell) -> Result<Watched<Budget>, Fail> {
    let name = Name::new(b"cpu0").ok_or("a name")?;
    Ok(Watched::new(Budget::new(name, GET, 10, Arc::try_clone(cell)?)))
}

/// The limit and the edit that a settlement tells.
fn told(settlement: &Settlement) -> (u32, u64) {
    match settlement.watch {
        Watch::Budget { limit, .. } => (limit, settlement.closed_at),
        Watch::After { .. } => (0, settlement.closed_at),
    }
}

/// What a cell holds.
fn left(cell: &Cell) -> Option<(u32, u64)> {
    Some(told(cell.get()?))
}

/// Attaches a monitor.
fn attach(boxes: &mut Boxes<Budget>, number: u32, monitor: Watched<Budget>) -> Result<(), Fail>
    requires { place_at number boxes.old.slots ≡ None }
    ensures { OnOk result (boxes.new ≡ attached_at number monitor boxes.old) }
{
    match boxes.attach(number, monitor) {
        Ok(()) => Ok(()),
        Err(_) => Err(Fail::new("no memory")),
    }
}

/// What the cell holds after a retune and a detach of its monitor while that is out, and after it has come back.
fn held(alloc: Global, cell: &Cell) -> Result<(Option<(u32, u64)>, Option<(u32, u64)>), Fail> {
    let monitor = budget(cell)?;
    let mut boxes = Boxes::new(alloc);
    attach(&mut boxes, 5, monitor)?;
    let monitor = boxes.take_box(5, 1).ok_or("a monitor")?;
    boxes.retune(5, 4);
    boxes.detach(5, 9);
    let before = left(cell);
    boxes.bring_back(5, monitor);
    Ok((before, left(cell)))
}

#[test]
fn a_monitor_that_is_out_ends_as_it_comes_back(rt: HostRuntime) -> Result<(), Fail> {
    let cell = Arc::new(rt.alloc(), OnceLock::new())?;
    let held = held(rt.alloc(), &cell)?;
    assert!(rt; held == (None, Some((4, 9))));
    Ok(())
}
