//! A report reaches another thread, whichever call is refused memory or a thread: each that is refused is made again, and then answers
//! as if it had been the first. Without a refusal that is plain; `rt try --test --fail-alloc N` refuses the Nth.

ghost use Rattle.std.specs.Prelude.{◌≡◌};

use crate::hall_bench::{
    Fate, MISALIGNED_GET, OF_MISALIGNED_GET, Told, Trip, add, finish, hand_in, opened, publish,
    read, take,
};
use std::alloc::Global;
use std::sync::Wait;
use std::test::Fail;
use std::thread::{Threads, join};
use tl_desk::{Job, Piece, work};
use tl_hall::{Hall, Note, Pass};
use tl_monitor::Budget;

/// Adds the misaligned Get, and again where memory is refused: the number of the edit.
fn adds<R: Wait>(
    rt: &R,
    alloc: Global,
    hall: &Hall<Budget>,
    pass: Pass<Budget>,
) -> (Pass<Budget>, Option<u64>)
    requires { pass.hall ≡ hall.now.hall }
    ensures { result.0.hall ≡ pass.hall }
{
    let (pass, number) = add(rt, alloc, hall, pass, MISALIGNED_GET);
    match number {
        Some(number) => (pass, Some(number)),
        None => add(rt, alloc, hall, pass, MISALIGNED_GET),
    }
}

/// Takes the first window, and again where memory is refused.
fn takes<R: Wait>(
    rt: &R,
    alloc: Global,
    hall: &Hall<Budget>,
    pass: Pass<Budget>,
) -> (Pass<Budget>, Option<Job<Budget>>)
    requires { pass.hall ≡ hall.now.hall }
    ensures { result.0.hall ≡ pass.hall }
{
    let (pass, found) = take(rt, alloc, hall, pass);
    match found {
        Some(job) => (pass, Some(job)),
        None => take(rt, alloc, hall, pass),
    }
}

/// Checks a window, if there is one, and again where memory is refused, and hands it in.
fn checks<R: Wait>(
    rt: &R,
    alloc: Global,
    hall: &Hall<Budget>,
    pass: Pass<Budget>,
    job: Option<Job<Budget>>,
) -> (Pass<Budget>, Option<Trip>)
    requires { pass.hall ≡ hall.now.hall }
    ensures { result.0.hall ≡ pass.hall }
{
    let Some(job) = job else {
        return (pass, None);
    };
    let (pass, trip) = match work(alloc, job) {
        Ok(done) => hand_in(rt, hall, pass, done),
        Err(job) => finish(rt, alloc, hall, pass, job),
    };
    (pass, Some(trip))
}

/// Publishes, and again where memory is refused: the version.
fn publishes<R: Wait>(
    rt: &R,
    alloc: Global,
    hall: &Hall<Budget>,
    pass: Pass<Budget>,
) -> (Pass<Budget>, Option<u64>)
    requires { pass.hall ≡ hall.now.hall }
    ensures { result.0.hall ≡ pass.hall }
{
    let (pass, version) = publish(rt, alloc, hall, pass);
    match version {
        Some(version) => (pass, Some(version)),
        None => publish(rt, alloc, hall, pass),
    }
}

/// What the latest report tells; it is read again where memory is refused.
fn reads<R: Wait>(rt: &R, hall: &Hall<Budget>, pass: Pass<Budget>) -> Option<Told>
    requires { pass.hall ≡ hall.now.hall }
{
    let (pass, found) = read(rt, hall, pass);
    match found {
        Some(told) => Some(told),
        None => {
            let (_, found) = read(rt, hall, pass);
            found
        }
    }
}

/// What a thread of its own reads whose pass meets a note.
fn read_beside<R: Threads + Wait + Sync>(
    rt: &R,
    hall: &Hall<Budget>,
    pass: Pass<Budget>,
    note: Note<Budget>,
) -> Option<Told>
    requires pass { pass.hall ≡ hall.now.hall }
    requires note { note.hall ≡ hall.now.hall }
{
    let (found, _) = join(
        rt,
        move || -> Option<Told>
            requires pass { pass.hall ≡ hall.now.hall }
            requires note { note.hall ≡ hall.now.hall }
        { reads(rt, hall, hall.meet(pass, note)) },
        || {},
    );
    found
}

/// What came of a report: the edit, the window, the version, and what another thread read.
#[derive(Clone, Copy, PartialEq)]
struct Course {
    edit: Option<u64>,
    trip: Option<Trip>,
    version: Option<u64>,
    read: Option<Told>,
}

/// Has a report made, and another thread read it.
fn report<R: Threads + Wait + Sync>(
    rt: &R,
    alloc: Global,
    hall: &Hall<Budget>,
    pass: Pass<Budget>,
) -> Course
    requires { pass.hall ≡ hall.now.hall }
{
    let (pass, other) = hall.split(pass);
    let (pass, edit) = adds(rt, alloc, hall, pass);
    let (pass, job) = takes(rt, alloc, hall, pass);
    let (pass, trip) = checks(rt, alloc, hall, pass, job);
    let (pass, version) = publishes(rt, alloc, hall, pass);
    let (_, note) = hall.note(pass);
    Course {
        edit,
        trip,
        version,
        read: read_beside(rt, hall, other, note),
    }
}

#[test]
fn a_report_reaches_another_thread(rt: HostRuntime) -> Result<(), Fail> {
    let alloc = rt.alloc();
    let Some((hall, pass)) = opened(alloc) else {
        return Err(Fail::new("no hall"));
    };
    let wanted = Course {
        edit: Some(1),
        trip: Some(Trip {
            ticket: 1,
            piece: Piece::Manager(0, 0),
            fate: Fate::Taken,
        }),
        version: Some(1),
        read: Some(OF_MISALIGNED_GET),
    };
    let course = report(&rt, alloc, &hall, pass);
    drop(hall);
    assert!(rt; course == wanted);
    Ok(())
}
