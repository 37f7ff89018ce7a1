//! Threads that check windows.

use crate::course::Course;
use crate::seat::Seat;
use std::alloc::Global;
use std::sync::Wait;
use std::thread::{Threads, scope, scope_env};

/// So many seats beside one; fewer where memory is refused.
pub(crate) fn seats_beside(
    alloc: Global,
    seat: Seat<'_>,
    workers: u8,
) -> (Seat<'_>, Vec<Seat<'_>>) {
    let mut seat = seat;
    let mut seats = Vec::new(alloc);
    for _worker in 0..workers {
        let (one, two) = seat.split();
        seat = one;
        let _ = seats.push(two);
    }
    (seat, seats)
}

/// Checks windows until all is over.
fn serve<R: Wait>(rt: &R, alloc: Global, seat: Seat<'_>, course: &Course) {
    let count = seat.work(rt, alloc, course);
    course.note_work(count);
}

/// Has each seat served by a thread of its own, until all is over. One whose thread can't be started is left out.
pub(crate) fn serve_all<R: Threads + Wait + Sync>(
    rt: &R,
    alloc: Global,
    seats: Vec<Seat<'_>>,
    course: &Course,
) {
    scope(scope_env(), rt, |threads| {
        for seat in seats {
            let _ = threads.spawn(move || serve(rt, alloc, seat, course));
        }
    });
}
