//! A hall on a small topology, and what a thread does to it alone.

ghost use Rattle.std.specs.Prelude.{◌≡◌, IfSome};

use crate::retries::{fragment_of, topology_of};
use std::alloc::Global;
use std::sync::Wait;
use tl_beats::Row;
use tl_desk::{Done, HandIn, Job, Piece, Report, work};
use tl_edits::{Change, EditFault};
use tl_hall::{Hall, Pass};
use tl_monitor::Budget;
use tl_tables::{Chan, Rule};
use tl_topology::Topo;

/// One manager with one reader.
const TOPOLOGY: &str = "topo 1\nmanager m0 64\nlink dma0 m0 ul 8 3 2\nend\n";

/// A Get that isn't aligned, in window 0: F3 on line 2.
pub(crate) const MISALIGNED_GET: &str = "fragment dma0 1 0 19\n10 A 4 0 3 0 1004 ff 0\nend\n";

/// Gets with their replies, in the windows 0 and 1.
pub(crate) const TWO_WINDOWS: &str = "fragment dma0 1 0 99999\n\
10 A 4 0 3 0 1000 ff 0\n\
10 D 1 0 3 0 0 0 0\n\
5000 A 4 0 3 0 1000 ff 0\n\
5000 D 1 0 3 0 0 0 0\n\
end\n";

/// The topology; None where memory is refused.
pub(crate) fn topology(alloc: Global) -> Option<Topo> {
    topology_of(alloc, TOPOLOGY)
}

/// A hall without edits, and its first pass; None where memory is refused. Its monitors are Budgets.
fn new_hall(alloc: Global) -> Option<(Hall<Budget>, Pass<Budget>)>
    ensures { IfSome result (λ r. r.1.hall ≡ r.0.hall) }
{
    match topology(alloc) {
        Some(topo) => match Hall::new(alloc, topo) {
            Ok(made) => Some(made),
            Err(_) => None,
        },
        None => None,
    }
}

/// The same, and again where memory is refused.
pub(crate) fn opened(alloc: Global) -> Option<(Hall<Budget>, Pass<Budget>)>
    ensures { IfSome result (λ r. r.1.hall ≡ r.0.hall) }
{
    match new_hall(alloc) {
        Some(made) => Some(made),
        None => new_hall(alloc),
    }
}

/// The number of an edit; None where it was refused.
pub(crate) fn number_of(answer: Result<u64, EditFault>) -> Option<u64> {
    match answer {
        Ok(number) => Some(number),
        Err(_) => None,
    }
}

/// Adds the fragment with a text: the number of the edit, or None where memory is refused.
pub(crate) fn add<R: Wait>(
    rt: &R,
    alloc: Global,
    hall: &Hall<Budget>,
    pass: Pass<Budget>,
    text: &str,
) -> (Pass<Budget>, Option<u64>)
    requires { pass.hall ≡ hall.now.hall }
    ensures { result.0.hall ≡ pass.hall }
{
    match fragment_of(alloc, text) {
        Some(get) => {
            let (pass, answer) = hall.submit(rt, alloc, pass, Change::Add(get));
            (pass, number_of(answer))
        }
        None => (pass, None),
    }
}

/// What became of a window that was taken.
#[derive(Clone, Copy, PartialEq)]
pub(crate) enum Fate {
    /// It was checked, and its result was taken.
    Taken,
    /// It was checked, and its result was void.
    Void,
    /// It was abandoned.
    Abandoned,
    /// The hall didn't know it, and it was forfeited.
    Forfeited,
}

/// A window that was taken: its ticket, whose it is, and what became of it.
#[derive(Clone, Copy, PartialEq)]
pub(crate) struct Trip {
    pub(crate) ticket: u64,
    pub(crate) piece: Piece,
    pub(crate) fate: Fate,
}

/// Hands in a window that was checked.
pub(crate) fn hand_in<R: Wait>(
    rt: &R,
    hall: &Hall<Budget>,
    pass: Pass<Budget>,
    done: Done<Budget>,
) -> (Pass<Budget>, Trip)
    requires { pass.hall ≡ hall.now.hall }
    ensures { result.0.hall ≡ pass.hall }
{
    let (ticket, piece) = (done.ticket(), done.piece());
    let (pass, answer) = hall.hand_in(rt, pass, done);
    let fate = match answer {
        HandIn::Taken => Fate::Taken,
        HandIn::Void => Fate::Void,
        HandIn::Stranger(done) => {
            done.forfeit();
            Fate::Forfeited
        }
    };
    let trip = Trip {
        ticket,
        piece,
        fate,
    };
    (pass, trip)
}

/// Abandons a window.
pub(crate) fn abandon<R: Wait>(
    rt: &R,
    hall: &Hall<Budget>,
    pass: Pass<Budget>,
    job: Job<Budget>,
) -> (Pass<Budget>, Trip)
    requires { pass.hall ≡ hall.now.hall }
    ensures { result.0.hall ≡ pass.hall }
{
    let (ticket, piece) = (job.ticket(), job.piece());
    let (pass, answer) = hall.abandon(rt, pass, job);
    let fate = match answer {
        Ok(()) => Fate::Abandoned,
        Err(job) => {
            job.forfeit();
            Fate::Forfeited
        }
    };
    let trip = Trip {
        ticket,
        piece,
        fate,
    };
    (pass, trip)
}

/// Checks a window and hands it in, or abandons it where memory is refused.
pub(crate) fn finish<R: Wait>(
    rt: &R,
    alloc: Global,
    hall: &Hall<Budget>,
    pass: Pass<Budget>,
    job: Job<Budget>,
) -> (Pass<Budget>, Trip)
    requires { pass.hall ≡ hall.now.hall }
    ensures { result.0.hall ≡ pass.hall }
{
    match work(alloc, job) {
        Ok(done) => hand_in(rt, hall, pass, done),
        Err(job) => abandon(rt, hall, pass, job),
    }
}

/// The first window that is to be checked; None where there is none, or memory is refused.
pub(crate) fn take<R: Wait>(
    rt: &R,
    alloc: Global,
    hall: &Hall<Budget>,
    pass: Pass<Budget>,
) -> (Pass<Budget>, Option<Job<Budget>>)
    requires { pass.hall ≡ hall.now.hall }
    ensures { result.0.hall ≡ pass.hall }
{
    let (pass, found) = hall.take(rt, alloc, pass);
    match found {
        Ok(job) => (pass, job),
        Err(_) => (pass, None),
    }
}

/// Takes the first window, if there is one, checks it and hands it in.
pub(crate) fn check_one<R: Wait>(
    rt: &R,
    alloc: Global,
    hall: &Hall<Budget>,
    pass: Pass<Budget>,
) -> (Pass<Budget>, Option<Trip>)
    requires { pass.hall ≡ hall.now.hall }
    ensures { result.0.hall ≡ pass.hall }
{
    let (pass, found) = take(rt, alloc, hall, pass);
    match found {
        Some(job) => {
            let (pass, trip) = finish(rt, alloc, hall, pass, job);
            (pass, Some(trip))
        }
        None => (pass, None),
    }
}

/// Publishes: the version; None where memory is refused.
pub(crate) fn publish<R: Wait>(
    rt: &R,
    alloc: Global,
    hall: &Hall<Budget>,
    pass: Pass<Budget>,
) -> (Pass<Budget>, Option<u64>)
    requires { pass.hall ≡ hall.now.hall }
    ensures { result.0.hall ≡ pass.hall }
{
    let (pass, version) = hall.publish(rt, alloc, pass);
    match version {
        Ok(version) => (pass, Some(version)),
        Err(_) => (pass, None),
    }
}

/// What a report tells: its version and edit, how many rows it has, and the first of them.
#[derive(Clone, Copy, PartialEq)]
pub(crate) struct Told {
    pub(crate) version: u64,
    pub(crate) edit: u64,
    pub(crate) rows: usize,
    pub(crate) first: Option<Row>,
}

/// What a report tells.
fn told_by(report: &Report) -> Told {
    Told {
        version: report.version(),
        edit: report.edit(),
        rows: report.rows().len(),
        first: report.rows().first().copied(),
    }
}

/// What the latest report tells; None where there is none, or memory is refused.
pub(crate) fn read<R: Wait>(
    rt: &R,
    hall: &Hall<Budget>,
    pass: Pass<Budget>,
) -> (Pass<Budget>, Option<Told>)
    requires { pass.hall ≡ hall.now.hall }
    ensures { result.0.hall ≡ pass.hall }
{
    let (pass, found) = hall.read(rt, pass);
    match found {
        Ok(Some(report)) => {
            let told = told_by(&report);
            drop(report);
            (pass, Some(told))
        }
        Ok(None) | Err(_) => (pass, None),
    }
}

/// What the report of the misaligned Get alone tells.
pub(crate) const OF_MISALIGNED_GET: Told = Told {
    version: 1,
    edit: 1,
    rows: 1,
    first: Some(Row {
        link: 0,
        cycle: 10,
        chan: Chan::A,
        rule: Rule::F3,
        monitor: None,
        fragment: 1,
        line: 2,
    }),
};
