//! A hall with the right to call it.

ghost use Rattle.std.specs.Prelude.{◌≡◌};

use std::alloc::Global;
use std::sync::Wait;
use tl_desk::Report;
use tl_edits::Change;
use tl_hall::{Gate, Hall, Pass, WorkCount, worker};
use tl_monitor::Budget;

/// A hall with the right to call it, which each call takes and gives back.
#[derive(Drop)]
pub(crate) struct Seat<'a> {
    hall: &'a Hall<Budget>,
    pass: Pass<Budget>,
    ghost of_hall: { pass.hall ≡ hall.now.hall },
}

impl<'a> Seat<'a> {
    /// The seat of a pass.
    pub(crate) fn new(hall: &'a Hall<Budget>, pass: Pass<Budget>) -> Seat<'a>
        requires { pass.hall ≡ hall.now.hall }
    {
        Seat { hall, pass }
    }

    /// A second one.
    pub(crate) fn split(self) -> (Seat<'a>, Seat<'a>) {
        let Seat { hall, pass, .. } = self;
        let (one, two) = hall.split(pass);
        (Seat::new(hall, one), Seat::new(hall, two))
    }

    /// Submits a change: whether it was accepted.
    pub(crate) fn submit<R: Wait>(self, rt: &R, alloc: Global, change: Change) -> (Seat<'a>, bool) {
        let Seat { hall, pass, .. } = self;
        let (pass, number) = hall.submit(rt, alloc, pass, change);
        (Seat::new(hall, pass), number.is_ok())
    }

    /// How many edits there are.
    pub(crate) fn edits<R: Wait>(self, rt: &R) -> (Seat<'a>, u64) {
        let Seat { hall, pass, .. } = self;
        let (pass, count) = hall.edits(rt, pass);
        (Seat::new(hall, pass), count)
    }

    /// Publishes: whether all windows were settled.
    pub(crate) fn publish<R: Wait>(self, rt: &R, alloc: Global) -> (Seat<'a>, bool) {
        let Seat { hall, pass, .. } = self;
        let (pass, version) = hall.publish(rt, alloc, pass);
        (Seat::new(hall, pass), version.is_ok())
    }

    /// The latest report.
    pub(crate) fn read<R: Wait>(self, rt: &R) -> (Seat<'a>, Option<Report>) {
        let Seat { hall, pass, .. } = self;
        let (pass, found) = hall.read(rt, pass);
        match found {
            Ok(report) => (Seat::new(hall, pass), report),
            Err(_) => (Seat::new(hall, pass), None),
        }
    }

    /// The oldest live ticket.
    pub(crate) fn oldest_live<R: Wait>(self, rt: &R) -> (Seat<'a>, Option<u64>) {
        let Seat { hall, pass, .. } = self;
        let (pass, found) = hall.oldest_live(rt, pass);
        (Seat::new(hall, pass), found)
    }

    /// Calls a ticket back: whether it was live.
    pub(crate) fn recall<R: Wait>(self, rt: &R, ticket: u64) -> (Seat<'a>, bool) {
        let Seat { hall, pass, .. } = self;
        let (pass, was_live) = hall.recall(rt, pass, ticket);
        (Seat::new(hall, pass), was_live)
    }

    /// Works for as long as the gate says so.
    pub(crate) fn work<R: Wait, G: Gate>(self, rt: &R, alloc: Global, gate: &G) -> WorkCount {
        let Seat { hall, pass, .. } = self;
        let (_, count) = worker(rt, alloc, hall, pass, gate);
        count
    }
}
