//! Workers in threads of their own.

ghost use Rattle.std.specs.Prelude.{◌≡◌};
ghost use Rattle.tl_hall.specs.Passes.{Stays};

use crate::shift::{Call, Shift};
use crate::windows::work_ahead;
use std::alloc::Global;
use std::sync::Wait;
use std::thread::{Threads, scope, scope_env};
use tl_hall::{Gate, Hall, Helper, Pass, worker};
use tl_monitor::Monitor;

/// A hall with the right to help in it.
#[derive(Drop)]
pub(crate) struct Seat<'a, M: Monitor> {
    pub(crate) hall: &'a Hall<M>,
    pub(crate) helper: Helper<M>,
    ghost of_hall: { helper.hall ≡ hall.now.hall },
}

impl<'a, M: Monitor> Seat<'a, M> {
    /// Checks windows for as long as the script's thread publishes.
    fn work<R: Wait, G: Gate>(
        self,
        rt: &R,
        alloc: Global,
        shift: &Shift<'_, '_, G>,
    ) -> Seat<'a, M> {
        let Seat { hall, helper, .. } = self;
        let (helper, _) = worker(rt, alloc, hall, helper, shift);
        Seat { hall, helper }
    }

    /// Reads fragments and checks windows ahead.
    fn work_ahead<R: Wait, G: Gate>(
        self,
        rt: &R,
        alloc: Global,
        shift: &Shift<'_, '_, G>,
        is_first: bool,
    ) -> Seat<'a, M> {
        let Seat { hall, helper, .. } = self;
        let helper = work_ahead(rt, alloc, hall, helper, shift, is_first);
        Seat { hall, helper }
    }

    /// Comes to each call, until the script has ended.
    fn serve<R: Wait, G: Gate>(
        self,
        rt: &R,
        alloc: Global,
        shift: &Shift<'_, '_, G>,
        is_first: bool,
    ) {
        let mut seat = self;
        let mut served = 0;
        for _ in rt.forever() {
            let (call, number) = shift.next_call(rt, served);
            served = number;
            seat = match call {
                Call::Ahead => seat.work_ahead(rt, alloc, shift, is_first),
                Call::Publish => seat.work(rt, alloc, shift),
                Call::Over => return,
            };
        }
        unreachable!()
    }
}

/// The seats of a run, and what they share with the script's thread.
#[derive(Drop)]
pub(crate) struct Seats<'h, 't, 's, 'x, M: Monitor, G: Gate> {
    pub(crate) seats: Vec<Seat<'h, M>>,
    pub(crate) shift: &'t Shift<'s, 'x, G>,
}

/// Has each seat served by a thread of its own, until the shift is over. One whose thread can't be started is left out.
pub(crate) fn serve_all<R: Threads + Wait + Sync, M: Monitor + Send, G: Gate + Sync>(
    rt: &R,
    alloc: Global,
    seats: Seats<'_, '_, '_, '_, M, G>,
) {
    let Seats { seats, shift } = seats;
    scope(scope_env(), rt, |threads| {
        let mut is_first = true;
        for seat in seats {
            let _ = threads.spawn(move || seat.serve(rt, alloc, shift, is_first));
            is_first = false;
        }
    });
}

/// So many seats beside the pass, which stays. Where memory is refused there are fewer.
pub(crate) fn seats_beside<'a, M: Monitor>(
    alloc: Global,
    hall: &'a Hall<M>,
    pass: Pass<M>,
    workers: u8,
) -> (Pass<M>, Vec<Seat<'a, M>>)
    requires { pass.hall ≡ hall.now.hall }
    ensures stays { Stays pass result.0 }
    ensures sole { result.0.sole ≡ pass.sole }
{
    let mut pass = pass;
    let mut seats = Vec::new(alloc);
    for _worker in 0..workers {
        let (next, helper) = hall.help(pass);
        pass = next;
        let _ = seats.push(Seat { hall, helper });
    }
    (pass, seats)
}
