//! The monitors that a run is given: it stops at one that is missing, and at one that watches something else.

use crate::text::ONE_LINK;
use std::alloc::Global;
use std::sync::{Arc, OnceLock};
use std::test::Fail;
use tl_beats::Class;
use tl_monitor::{Budget, Settlement};
use tl_run::run_script;
use tl_script::{Outcome, Stop, StopCause};
use tl_tables::Chan;
use tl_text::CountedWriter;
use tl_topology::{Name, Topo, read_topo};

type Cell = Arc<OnceLock<Settlement>>;

const SCRIPT: &[u8] = b"publish\nattach 5 budget dma0 A 4 0\npublish\n";

const WRITTEN: &[u8] = b"report 1 edit 0 rows 0\nstopped 36 at 2\n";

const STOPPED: Outcome = Outcome {
    last_rows: 0,
    stop: Some(Stop {
        cause: StopCause::WrongBox,
        command: 2,
    }),
};

/// Whether a run with these monitors stops at the command that attaches one.
fn stops(alloc: Global, topo: &Topo, boxes: Vec<Budget>) -> bool {
    let mut written = Vec::new(alloc);
    let mut out = CountedWriter::new(&mut written);
    let answer = run_script(alloc, topo, SCRIPT, boxes, &mut out);
    answer == Ok(STOPPED) && written.as_slice() == WRITTEN
}

/// A monitor that lets one Get through, where the script asks for one that lets none.
fn another(alloc: Global, cell: &Cell) -> Result<Vec<Budget>, Fail> {
    let name = Name::new(b"dma0").ok_or("a name")?;
    let gets = Class {
        chan: Chan::A,
        opcode: 4,
    };
    let mut boxes = Vec::new(alloc);
    boxes.push(Budget::new(name, gets, 1, Arc::try_clone(cell)?))?;
    Ok(boxes)
}

#[test]
fn a_monitor_that_is_missing_stops_a_run(rt: HostRuntime) -> Result<(), Fail> {
    let (topo, _) = read_topo(rt.alloc(), ONE_LINK.as_bytes())?;
    assert!(rt; stops(rt.alloc(), &topo, Vec::new(rt.alloc())));
    Ok(())
}

#[test]
fn a_monitor_of_another_watch_stops_a_run(rt: HostRuntime) -> Result<(), Fail> {
    let cell = Arc::new(rt.alloc(), OnceLock::new())?;
    let boxes = another(rt.alloc(), &cell)?;
    let (topo, _) = read_topo(rt.alloc(), ONE_LINK.as_bytes())?;
    let stopped = stops(rt.alloc(), &topo, boxes);
    let closed_at = cell.get().map(|settlement| settlement.closed_at);
    assert!(rt; stopped && closed_at == Some(0));
    Ok(())
}
