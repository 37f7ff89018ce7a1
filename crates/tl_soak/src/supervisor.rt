//! The thread that watches over the workers.

use crate::course::Course;
use crate::seat::Seat;
use std::sync::Wait;
use std::thread::yield_now;

/// How often in a row a ticket is seen to be the oldest live one before it is called back.
const PATIENCE: u32 = 1_000;

/// The ticket that was the oldest live one, and how often in a row it was.
#[derive(Clone, Copy)]
struct Oldest {
    ticket: Option<u64>,
    looks: u32,
}

impl Oldest {
    /// None was seen.
    fn unseen() -> Oldest {
        Oldest {
            ticket: None,
            looks: 0,
        }
    }

    /// The same after one more look, which saw this one.
    fn then(self, ticket: Option<u64>) -> Oldest {
        if self.ticket == ticket {
            let looks = self.looks.saturating_add(1);
            Oldest { ticket, looks }
        } else {
            Oldest { ticket, looks: 1 }
        }
    }
}

/// Looks once, and calls a ticket back that was the oldest live one for too long.
fn look<'a, R: Wait>(
    rt: &R,
    seat: Seat<'a>,
    course: &Course,
    oldest: Oldest,
) -> (Seat<'a>, Oldest) {
    let (seat, found) = seat.oldest_live(rt);
    let oldest = oldest.then(found);
    match found {
        Some(ticket) if oldest.looks >= PATIENCE => {
            let (seat, was_live) = seat.recall(rt, ticket);
            if was_live {
                course.note_recall(ticket);
            }
            (seat, Oldest::unseen())
        }
        _ => (seat, oldest),
    }
}

/// Looks until all is over.
pub(crate) fn supervise<R: Wait>(rt: &R, seat: Seat<'_>, course: &Course) {
    let mut seat = seat;
    let mut oldest = Oldest::unseen();
    for _ in rt.forever() {
        if course.is_over() {
            return;
        }
        let (next, seen) = look(rt, seat, course, oldest);
        seat = next;
        oldest = seen;
        yield_now();
    }
    unreachable!()
}
