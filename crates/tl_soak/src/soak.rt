//! Many threads that call one hall at once: workers, two editors, a supervisor and a reader. Each report that was read must have
//! exactly the rows that checking its edits from the beginning finds.

use crate::capture::{WINDOWS, topology};
use crate::course::{Course, EDITORS, Totals};
use crate::editors::{EDITS, Half, edit, fill};
use crate::reader::{MOST_REPORTS, read};
use crate::seat::Seat;
use crate::supervisor::supervise;
use crate::workers::{seats_beside, serve_all};
use anyhow::{Result, bail};
use std::alloc::{AllocError, Global};
use std::sync::Wait;
use std::thread::{Threads, join};
use tl_check::audit;
use tl_desk::{Desk, Report};
use tl_edits::Log;
use tl_hall::Hall;
use tl_monitor::Budget;
use tl_text::decimal;
use tl_topology::Topo;

/// The rounds of a short soak.
const FEW_ROUNDS: u32 = 8;

/// The most rounds, since a log has at most 65,536 edits.
const MOST_ROUNDS: u32 = 10_909;

/// The workers of a short soak.
const WORKERS: u8 = 16;

/// The most workers.
const MOST_WORKERS: u8 = 64;

/// How many rounds each editor goes, and how many workers there are.
#[derive(Clone, Copy)]
pub(crate) struct Plan {
    rounds: u32,
    workers: u8,
}

impl Plan {
    /// That of a short soak.
    fn short() -> Plan {
        Plan {
            rounds: FEW_ROUNDS,
            workers: WORKERS,
        }
    }

    /// That of two words: at most 10,909 rounds and 64 workers.
    pub(crate) fn of(rounds: &str, workers: &str) -> Option<Plan> {
        let rounds = decimal(rounds.as_bytes(), u64::from(MOST_ROUNDS))?;
        let workers = decimal(workers.as_bytes(), u64::from(MOST_WORKERS))?;
        Some(Plan {
            rounds: u32::try_from(rounds).ok()?,
            workers: u8::try_from(workers).ok()?,
        })
    }

    /// How many edits there are in the end.
    fn edits(self) -> u64 {
        u64::from(WINDOWS) + EDITORS * EDITS * u64::from(self.rounds)
    }

    /// How many edits there are between two reports.
    fn step(self) -> u64 {
        self.edits() / MOST_REPORTS as u64
    }
}

/// What came of a plan.
#[derive(Clone, Copy)]
struct Outcome {
    edits: u64,
    reports: usize,
    wrong: u64,
    totals: Totals,
}

/// Both editors at once.
fn edit_all<R: Threads + Wait + Sync>(
    rt: &R,
    alloc: Global,
    seat: Seat<'_>,
    course: &Course,
    rounds: u32,
) {
    let (one, two) = seat.split();
    join(
        rt,
        || edit(rt, alloc, one, course, Half::Even, rounds),
        || edit(rt, alloc, two, course, Half::Odd, rounds),
    );
}

/// The reader and the editors at once: all that was read.
fn edit_and_read<R: Threads + Wait + Sync>(
    rt: &R,
    alloc: Global,
    seat: Seat<'_>,
    course: &Course,
    plan: Plan,
) -> Vec<Report> {
    let (one, two) = seat.split();
    let step = plan.step();
    let (reports, ()) = join(
        rt,
        || read(rt, alloc, one, course, step),
        || edit_all(rt, alloc, two, course, plan.rounds),
    );
    reports
}

/// The supervisor beside them.
fn supervised<R: Threads + Wait + Sync>(
    rt: &R,
    alloc: Global,
    seat: Seat<'_>,
    course: &Course,
    plan: Plan,
) -> Vec<Report> {
    let (one, two) = seat.split();
    let ((), reports) = join(
        rt,
        || supervise(rt, one, course),
        || edit_and_read(rt, alloc, two, course, plan),
    );
    reports
}

/// All threads at once: all that was read.
fn all_at_once<R: Threads + Wait + Sync>(
    rt: &R,
    alloc: Global,
    seat: Seat<'_>,
    course: &Course,
    plan: Plan,
) -> Vec<Report> {
    let seat = fill(rt, alloc, seat);
    let (seat, seats) = seats_beside(alloc, seat, plan.workers);
    let ((), reports) = join(
        rt,
        || serve_all(rt, alloc, seats, course),
        || supervised(rt, alloc, seat, course, plan),
    );
    reports
}

/// Whether a report has exactly the rows that checking its edits from the beginning finds.
fn is_right(alloc: Global, log: &Log, report: &Report) -> Result<bool> {
    let rows = audit(alloc, log, report.edit())?;
    Ok(rows.as_slice() == report.rows())
}

/// How many reports haven't.
fn count_wrong(alloc: Global, log: &Log, reports: &[Report]) -> Result<u64> {
    let mut wrong = 0u64;
    for report in reports {
        if !is_right(alloc, log, report)? {
            wrong = wrong.saturating_add(1);
        }
    }
    Ok(wrong)
}

/// Checks and publishes what stands.
fn publish(alloc: Global, desk: &mut Desk<Budget>) -> Result<()> {
    if desk.recheck_now(alloc).is_err() {
        bail!("not checked");
    }
    if desk.publish(alloc).is_err() {
        bail!("not published");
    }
    Ok(())
}

/// A copy of the latest report.
fn latest(desk: &Desk<Budget>) -> Result<Report> {
    match desk.latest() {
        Some(report) => Ok(report.copy()?),
        None => bail!("no report"),
    }
}

/// Adds the report of all edits to those that were read: how many of all are wrong.
fn judge(alloc: Global, desk: &mut Desk<Budget>, reports: &mut Vec<Report>) -> Result<u64> {
    publish(alloc, desk)?;
    let last = latest(desk)?;
    reports.push(last)?;
    count_wrong(alloc, desk.log(), reports)
}

/// What a hall leaves: its desk, and all that was read.
struct Left {
    desk: Desk<Budget>,
    reports: Vec<Report>,
}

/// Has all threads call a hall as planned.
fn run<R: Threads + Wait + Sync>(
    rt: &R,
    alloc: Global,
    topo: Topo,
    course: &Course,
    plan: Plan,
) -> Result<Left, AllocError> {
    let (hall, pass) = Hall::new(alloc, topo)?;
    let (pass, other) = hall.split(pass);
    let reports = all_at_once(rt, alloc, Seat::new(&hall, other), course, plan);
    let desk = hall.close(rt, pass);
    Ok(Left { desk, reports })
}

/// Compares all reports, that of all edits too.
fn told(alloc: Global, left: Left, totals: Totals) -> Result<Outcome> {
    let Left {
        mut desk,
        mut reports,
    } = left;
    let wrong = judge(alloc, &mut desk, &mut reports)?;
    Ok(Outcome {
        edits: desk.log().len(),
        reports: reports.len(),
        wrong,
        totals,
    })
}

/// Does as planned.
fn soak<R: Threads + Wait + Sync>(rt: &R, alloc: Global, plan: Plan) -> Result<Outcome> {
    let Some(topo) = topology(alloc) else {
        bail!("no topology");
    };
    let course = Course::new();
    let left = run(rt, alloc, topo, &course, plan)?;
    told(alloc, left, course.totals())
}

/// Whether all is as it must be.
fn is_well(plan: Plan, outcome: Outcome) -> bool {
    outcome.wrong == 0 && outcome.edits == plan.edits()
}

/// Tells what came of a plan: whether all is as it must be.
fn tell<R: Print>(rt: &R, plan: Plan, outcome: Outcome) -> Result<bool> {
    let (edits, wrong) = (outcome.edits, outcome.wrong);
    println!(rt; "edits {edits} of {}, wrong {wrong}", plan.edits())?;
    Ok(is_well(plan, outcome))
}

/// Does a short soak, which tells the same each time: whether all is as it must be.
pub(crate) fn try_soak<R: Print + Threads + Wait + Sync + AllocGlobal>(rt: &R) -> Result<bool> {
    let plan = Plan::short();
    let outcome = soak(rt, rt.alloc(), plan)?;
    tell(rt, plan, outcome)
}

/// Does as planned, and tells what the threads did: whether all is as it must be.
pub(crate) fn soak_by<R: Print + Threads + Wait + Sync + AllocGlobal>(
    rt: &R,
    plan: Plan,
) -> Result<bool> {
    let outcome = soak(rt, rt.alloc(), plan)?;
    let is_right = tell(rt, plan, outcome)?;
    let reports = outcome.reports;
    let Totals {
        recalls,
        taken,
        void,
    } = outcome.totals;
    println!(rt; "reports {reports}, windows {taken}, void {void}, called back {recalls}")?;
    Ok(is_right)
}
