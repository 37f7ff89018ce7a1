//! Threads that edit.

use crate::capture::{Content, WINDOWS, fragment, link};
use crate::course::Course;
use crate::seat::Seat;
use std::alloc::Global;
use std::sync::Wait;
use tl_edits::Change;

/// How many edits a round has.
pub(crate) const EDITS: u64 = 3;

/// Which windows an editor edits.
#[derive(Clone, Copy)]
pub(crate) enum Half {
    Even,
    Odd,
}

impl Half {
    /// The window of a round: each in turn.
    fn window(self, round: u32) -> u32 {
        let even = round % (WINDOWS / 2) * 2;
        match self {
            Half::Even => even,
            Half::Odd => even + 1,
        }
    }
}

/// Submits a change, if there is one.
fn submit<'a, R: Wait>(rt: &R, alloc: Global, seat: Seat<'a>, change: Option<Change>) -> Seat<'a> {
    match change {
        Some(change) => {
            let (seat, _) = seat.submit(rt, alloc, change);
            seat
        }
        None => seat,
    }
}

/// Adds a fragment in each window.
pub(crate) fn fill<'a, R: Wait>(rt: &R, alloc: Global, seat: Seat<'a>) -> Seat<'a> {
    let mut seat = seat;
    for window in 0..WINDOWS {
        let adds = fragment(alloc, window, Content::Plain).map(Change::Add);
        seat = submit(rt, alloc, seat, adds);
    }
    seat
}

/// Puts another fragment in the place of that of a window, withdraws it, and adds a third.
fn edit_once<'a, R: Wait>(
    rt: &R,
    alloc: Global,
    seat: Seat<'a>,
    window: u32,
    round: u32,
) -> Seat<'a> {
    let replaces = fragment(alloc, window, Content::of(round)).map(Change::Replace);
    let withdraws = link().map(|link| Change::Withdraw(link, window));
    let adds = fragment(alloc, window, Content::of(round / 2)).map(Change::Add);
    let seat = submit(rt, alloc, seat, replaces);
    let seat = submit(rt, alloc, seat, withdraws);
    submit(rt, alloc, seat, adds)
}

/// Goes so many rounds of edits, and has workers check windows after each.
pub(crate) fn edit<R: Wait>(
    rt: &R,
    alloc: Global,
    seat: Seat<'_>,
    course: &Course,
    half: Half,
    rounds: u32,
) {
    let mut seat = seat;
    for round in 0..rounds {
        let handed = course.handed();
        seat = edit_once(rt, alloc, seat, half.window(round), round);
        course.wait_for_work(handed);
    }
    course.end_editor();
}
