//! The thread that publishes and reads.

use crate::course::Course;
use crate::seat::Seat;
use std::alloc::Global;
use std::sync::Wait;
use std::thread::yield_now;
use tl_desk::Report;

/// The most reports that it reads.
pub(crate) const MOST_REPORTS: usize = 50;

/// Publishes and reads, where so many edits came since the last report.
fn look<'a, R: Wait>(
    rt: &R,
    alloc: Global,
    seat: Seat<'a>,
    step: u64,
    reports: &mut Vec<Report>,
) -> Seat<'a> {
    let due = match reports.last() {
        Some(report) => report.edit().saturating_add(step),
        None => 0,
    };
    let (seat, edits) = seat.edits(rt);
    if edits < due {
        return seat;
    }
    let (seat, was_settled) = seat.publish(rt, alloc);
    if !was_settled {
        return seat;
    }
    let (seat, found) = seat.read(rt);
    if let Some(report) = found {
        let _ = reports.push(report);
    }
    seat
}

/// Publishes and reads until all is edited, or there are enough reports.
pub(crate) fn read<R: Wait>(
    rt: &R,
    alloc: Global,
    seat: Seat<'_>,
    course: &Course,
    step: u64,
) -> Vec<Report> {
    let mut seat = seat;
    let mut reports = Vec::new(alloc);
    for _ in rt.forever() {
        if course.is_edited() || reports.len() >= MOST_REPORTS {
            break;
        }
        seat = look(rt, alloc, seat, step, &mut reports);
        yield_now();
    }
    course.end_reader();
    reports
}
