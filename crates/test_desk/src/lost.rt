//! Windows that don't come back in time, or not to the hall that gave them.

ghost use Rattle.std.specs.Prelude.{◌≡◌};

use crate::hall_bench::{
    Fate, MISALIGNED_GET, TWO_WINDOWS, Told, Trip, abandon, add, check_one, finish, opened,
    publish, read, take,
};
use std::alloc::Global;
use std::sync::Wait;
use std::test::Fail;
use tl_desk::{Job, Piece};
use tl_hall::{Hall, Pass};
use tl_monitor::Budget;

/// What a late worker does with its window.
#[derive(Clone, Copy)]
enum Late {
    HandsIn,
    Abandons,
}

/// Brings a window back, if there is one.
fn bring<R: Wait>(
    rt: &R,
    alloc: Global,
    hall: &Hall<Budget>,
    pass: Pass<Budget>,
    job: Option<Job<Budget>>,
    late: Late,
) -> (Pass<Budget>, Option<Trip>)
    requires { pass.hall ≡ hall.now.hall }
    ensures { result.0.hall ≡ pass.hall }
{
    let Some(job) = job else {
        return (pass, None);
    };
    let (pass, trip) = match late {
        Late::HandsIn => finish(rt, alloc, hall, pass, job),
        Late::Abandons => abandon(rt, hall, pass, job),
    };
    (pass, Some(trip))
}

/// What a supervisor sees and does.
#[derive(Clone, Copy, PartialEq)]
struct Rescue {
    /// The oldest live ticket: at first, after the first recalls, and after the last.
    oldest: (Option<u64>, Option<u64>, Option<u64>),
    /// Whether ticket 1 was live as it was called back, and as that was done again, and whether ticket 2 was.
    were_live: (bool, bool, bool),
    /// What became of the windows that were then taken.
    trips: (Option<Trip>, Option<Trip>),
    /// The version that was then published.
    version: Option<u64>,
}

/// Calls the tickets 1 and 2 back, and has their windows checked and published without them.
fn call_back<R: Wait>(rt: &R, alloc: Global, hall: &Hall<Budget>, pass: Pass<Budget>) -> Rescue
    requires { pass.hall ≡ hall.now.hall }
{
    let (pass, both) = hall.oldest_live(rt, pass);
    let (pass, one) = hall.recall(rt, pass, 1);
    let (pass, again) = hall.recall(rt, pass, 1);
    let (pass, left) = hall.oldest_live(rt, pass);
    let (pass, two) = hall.recall(rt, pass, 2);
    let (pass, none) = hall.oldest_live(rt, pass);
    let (pass, first) = check_one(rt, alloc, hall, pass);
    let (pass, second) = check_one(rt, alloc, hall, pass);
    let (_, version) = publish(rt, alloc, hall, pass);
    Rescue {
        oldest: (both, left, none),
        were_live: (one, again, two),
        trips: (first, second),
        version,
    }
}

/// A window of the manager that was taken.
fn trip(ticket: u64, window: u64, fate: Fate) -> Option<Trip> {
    Some(Trip {
        ticket,
        piece: Piece::Manager(0, window),
        fate,
    })
}

/// What came of two windows that were out for too long.
#[derive(Clone, Copy, PartialEq)]
struct Course {
    rescue: Rescue,
    handed_in: Option<Trip>,
    abandoned: Option<Trip>,
    read: Option<Told>,
}

/// Takes two windows, and brings them back once a supervisor has gone on without them.
fn come_late<R: Wait>(rt: &R, alloc: Global, hall: &Hall<Budget>, pass: Pass<Budget>) -> Course
    requires { pass.hall ≡ hall.now.hall }
{
    let (pass, _) = add(rt, alloc, hall, pass, TWO_WINDOWS);
    let (pass, other) = hall.split(pass);
    let (pass, first) = take(rt, alloc, hall, pass);
    let (pass, second) = take(rt, alloc, hall, pass);
    let rescue = call_back(rt, alloc, hall, other);
    let (pass, handed_in) = bring(rt, alloc, hall, pass, first, Late::HandsIn);
    let (pass, abandoned) = bring(rt, alloc, hall, pass, second, Late::Abandons);
    let (_, read) = read(rt, hall, pass);
    Course {
        rescue,
        handed_in,
        abandoned,
        read,
    }
}

#[test]
fn windows_that_were_called_back_come_to_nothing(rt: HostRuntime) -> Result<(), Fail> {
    let alloc = rt.alloc();
    let Some((hall, pass)) = opened(alloc) else {
        return Err(Fail::new("no hall"));
    };
    let wanted = Course {
        rescue: Rescue {
            oldest: (Some(1), Some(2), None),
            were_live: (true, false, true),
            trips: (trip(3, 0, Fate::Taken), trip(4, 1, Fate::Taken)),
            version: Some(1),
        },
        handed_in: trip(1, 0, Fate::Void),
        abandoned: trip(2, 1, Fate::Abandoned),
        read: Some(Told {
            version: 1,
            edit: 1,
            rows: 0,
            first: None,
        }),
    };
    let course = come_late(&rt, alloc, &hall, pass);
    drop(hall);
    assert!(rt; course == wanted);
    Ok(())
}

/// The first window of a hall, which is brought to another hall: what becomes of it there.
fn astray<R: Wait>(rt: &R, alloc: Global, job: Option<Job<Budget>>) -> Option<Trip> {
    let Some((hall, pass)) = opened(alloc) else {
        give_up(job);
        return None;
    };
    let (pass, trip) = bring(rt, alloc, &hall, pass, job, Late::HandsIn);
    drop(pass);
    drop(hall);
    trip
}

/// Gives a window up, if there is one.
fn give_up(job: Option<Job<Budget>>) {
    if let Some(job) = job {
        job.forfeit();
    }
}

/// What came of a window that went astray: at the other hall, whether it was the oldest live one at its own and was called back
/// there, and what became of its second journey.
#[derive(Clone, Copy, PartialEq)]
struct Loss {
    astray: Option<Trip>,
    oldest: Option<u64>,
    was_live: bool,
    again: Option<Trip>,
}

/// Takes a window, brings it to another hall, and has it checked again.
fn lose<R: Wait>(rt: &R, alloc: Global, hall: &Hall<Budget>, pass: Pass<Budget>) -> Loss
    requires { pass.hall ≡ hall.now.hall }
{
    let (pass, _) = add(rt, alloc, hall, pass, MISALIGNED_GET);
    let (pass, job) = take(rt, alloc, hall, pass);
    let astray = astray(rt, alloc, job);
    let (pass, oldest) = hall.oldest_live(rt, pass);
    let (pass, was_live) = hall.recall(rt, pass, 1);
    let (_, again) = check_one(rt, alloc, hall, pass);
    Loss {
        astray,
        oldest,
        was_live,
        again,
    }
}

#[test]
fn a_window_of_another_hall_is_not_taken(rt: HostRuntime) -> Result<(), Fail> {
    let alloc = rt.alloc();
    let Some((hall, pass)) = opened(alloc) else {
        return Err(Fail::new("no hall"));
    };
    let wanted = Loss {
        astray: trip(1, 0, Fate::Forfeited),
        oldest: Some(1),
        was_live: true,
        again: trip(2, 0, Fate::Taken),
    };
    let loss = lose(&rt, alloc, &hall, pass);
    drop(hall);
    assert!(rt; loss == wanted);
    Ok(())
}
