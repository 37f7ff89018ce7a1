//! A worker alone, through whose hands a monitor goes.

ghost use Rattle.std.specs.Prelude.{◌≡◌};

use crate::boxes::new_cell;
use crate::counting::GET;
use crate::hall_bench::{TWO_WINDOWS, Told, add, number_of, opened, publish, read};
use std::alloc::Global;
use std::sync::Wait;
use std::sync::atomic::{AtomicU64, Ordering};
use std::test::Fail;
use tl_beats::Row;
use tl_desk::Desk;
use tl_edits::Change;
use tl_hall::{Gate, Hall, Pass, WorkCount, worker};
use tl_monitor::Budget;
use tl_tables::{Chan, Rule};
use tl_topology::Name;

/// Stops its workers after so many jobs.
#[derive(Drop)]
struct Enough {
    jobs: u64,
    handed: AtomicU64,
}

impl Gate for Enough {
    fn taken(&self, _ticket: u64) {}

    fn handed_in(&self, _ticket: u64) {
        self.handed.fetch_add(1, Ordering::SeqCst);
    }

    fn go_on(&self) -> bool {
        self.handed.load(Ordering::SeqCst) < self.jobs
    }
}

/// A monitor of the Gets of a link that lets one through; None where memory is refused.
fn budget_of(alloc: Global, link: Name) -> Option<Budget> {
    match new_cell(alloc) {
        Some(cell) => Some(Budget::new(link, GET, 1, cell)),
        None => None,
    }
}

/// The same of dma0.
fn budget(alloc: Global) -> Option<Budget> {
    match Name::new(b"dma0") {
        Some(link) => budget_of(alloc, link),
        None => None,
    }
}

/// Attaches it as monitor 5: the number of the edit.
fn attach<R: Wait>(
    rt: &R,
    alloc: Global,
    hall: &Hall<Budget>,
    pass: Pass<Budget>,
) -> (Pass<Budget>, Option<u64>)
    requires { pass.hall ≡ hall.now.hall }
    ensures { result.0.hall ≡ pass.hall }
{
    let Some(monitor) = budget(alloc) else {
        return (pass, None);
    };
    let (pass, answer) = hall.attach(rt, alloc, pass, 5, monitor);
    match answer {
        Ok(number) => (pass, Some(number)),
        Err(_) => (pass, None),
    }
}

/// What came of a worker's work: the edit that attached the monitor, what it counted, what was reported then, and the edit that took
/// the monitor off.
#[derive(Clone, Copy, PartialEq)]
struct Shift {
    attached: Option<u64>,
    count: WorkCount,
    read: Option<Told>,
    detached: Option<u64>,
}

/// Has a worker check the windows of the manager and of the monitor, and takes the monitor off.
fn work_through<R: Wait>(
    rt: &R,
    alloc: Global,
    hall: &Hall<Budget>,
    pass: Pass<Budget>,
    gate: &Enough,
) -> (Pass<Budget>, Shift)
    requires { pass.hall ≡ hall.now.hall }
    ensures { result.0.hall ≡ pass.hall }
{
    let (pass, _) = add(rt, alloc, hall, pass, TWO_WINDOWS);
    let (pass, attached) = attach(rt, alloc, hall, pass);
    let (pass, count) = worker(rt, alloc, hall, pass, gate);
    let (pass, _) = publish(rt, alloc, hall, pass);
    let (pass, read) = read(rt, hall, pass);
    let (pass, answer) = hall.submit(rt, alloc, pass, Change::Detach(5));
    let shift = Shift {
        attached,
        count,
        read,
        detached: number_of(answer),
    };
    (pass, shift)
}

/// The number of the first monitor that ended, and of the edit that ended it.
fn first_end(desk: &Desk<Budget>) -> Option<(u32, u64)> {
    match desk.settlements().first() {
        Some((number, told)) => Some((*number, told.closed_at)),
        None => None,
    }
}

#[test]
fn a_monitor_goes_through_the_hands_of_a_worker(rt: HostRuntime) -> Result<(), Fail> {
    let alloc = rt.alloc();
    let Some((hall, pass)) = opened(alloc) else {
        return Err(Fail::new("no hall"));
    };
    let gate = Enough {
        jobs: 4,
        handed: AtomicU64::new(0),
    };
    let wanted = Shift {
        attached: Some(2),
        count: WorkCount {
            taken: 4,
            void: 0,
            abandoned: 0,
        },
        read: Some(Told {
            version: 1,
            edit: 2,
            rows: 1,
            first: Some(Row {
                link: 0,
                cycle: 5000,
                chan: Chan::A,
                rule: Rule::X1,
                monitor: Some(5),
                fragment: 1,
                line: 4,
            }),
        }),
        detached: Some(3),
    };
    let (pass, shift) = work_through(&rt, alloc, &hall, pass, &gate);
    let desk = hall.close(&rt, pass);
    let end = first_end(&desk);
    drop(desk);
    assert!(rt; shift == wanted);
    assert!(rt; end == Some((5, 3)));
    Ok(())
}
