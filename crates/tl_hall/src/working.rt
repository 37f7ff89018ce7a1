//! Workers, which take windows, check them, and hand them in.

ghost use Rattle.std.specs.Prelude.{◌≡◌};
ghost use Rattle.tl_desk.specs.Works.{ticket_of, window_of, done_ticket, done_window};
ghost use Rattle.tl_hall.specs.Working.{Worked, WorkedOnce, CameBack, counted, counted_with, nothing_done};

use crate::hall::{Access, Hall, Rights};
use std::alloc::Global;
use std::sync::Wait;
use tl_desk::{Done, HandIn, Job, Piece, TakeFault, work};
use tl_monitor::Monitor;

/// What a worker tells as it works, and asks. Several workers may have the same gate, where it is `Sync`.
pub trait Gate {
    /// A job was taken under this ticket, and is to be checked.
    fn taken(&self, ticket: u64);

    /// The job of this ticket was handed in, whatever the answer was.
    fn handed_in(&self, ticket: u64);

    /// Whether the worker is to go on. It asks before each round.
    fn go_on(&self) -> bool;
}

/// What came of one round of a worker.
#[derive(Clone, Copy, Debug, PartialEq, Eq)]
pub enum Round {
    /// No window was to be taken.
    NoWindow,
    /// A window was to be taken, and that was refused.
    Refused(TakeFault),
    /// The window was checked and handed in, and its result taken.
    Taken(Piece),
    /// The window was checked and handed in, and its result stands for nothing any more.
    Void(Piece),
    /// The window was checked, and the hall doesn't know its job, which was forfeited.
    Strange(Piece),
    /// The window could not be checked for want of memory, and its job was abandoned.
    Abandoned(Piece),
    /// The same, and the hall doesn't know its job, which was forfeited.
    Lost(Piece),
}

/// What became of the jobs that a worker took, each number up to the greatest of 64 bits.
#[derive(Clone, Copy, Debug, Drop, PartialEq, Eq)]
pub struct WorkCount {
    /// Those that were handed in, and taken.
    pub taken: u64,
    /// Those that were handed in, and void.
    pub void: u64,
    /// Those that were abandoned, or forfeited as a stranger's.
    pub abandoned: u64,
}

impl WorkCount {
    /// One more was taken.
    fn one_taken(self) -> WorkCount
        ensures { result ≡ record self { taken = counted self.taken 1 } }
    {
        let taken = self.taken.saturating_add(1);
        WorkCount { taken, ..self }
    }

    /// One more was void.
    fn one_void(self) -> WorkCount
        ensures { result ≡ record self { void = counted self.void 1 } }
    {
        let void = self.void.saturating_add(1);
        WorkCount { void, ..self }
    }

    /// One more was abandoned.
    fn one_abandoned(self) -> WorkCount
        ensures { result ≡ record self { abandoned = counted self.abandoned 1 } }
    {
        let abandoned = self.abandoned.saturating_add(1);
        WorkCount { abandoned, ..self }
    }

    /// One round more.
    fn with(self, round: Round) -> WorkCount
        ensures { result ≡ counted_with round self }
    {
        match round {
            Round::NoWindow => self,
            Round::Refused(_) => self,
            Round::Taken(_) => self.one_taken(),
            Round::Void(_) => self.one_void(),
            Round::Strange(_) => self.one_abandoned(),
            Round::Abandoned(_) => self.one_abandoned(),
            Round::Lost(_) => self.one_abandoned(),
        }
    }
}

/// Takes windows, checks them outside the turn, and hands them in, for as long as the gate says so. Where no window is to be taken,
/// or a take is refused, it goes round again. A job that can't be checked for want of memory is abandoned, and one that the hall
/// doesn't know is forfeited. It waits for other threads.
pub fn worker<R: Wait, M: Monitor, K: Rights, G: Gate>(
    rt: &R,
    alloc: Global,
    hall: &Hall<M>,
    pass: Access<M, K>,
    gate: &G,
) -> (Access<M, K>, WorkCount)
    requires { pass.hall ≡ hall.now.hall }
    ensures { Worked 0 pass nothing_done result.0 result.1 }
{
    let mut pass = pass;
    let mut count = WorkCount {
        taken: 0,
        void: 0,
        abandoned: 0,
    };
    for _ in rt.forever() {
        if !gate.go_on() {
            return (pass, count);
        }
        let (next, round) = work_once(rt, alloc, hall, pass, gate);
        pass = next;
        count = count.with(round);
    }
    unreachable!()
}

/// Takes the first window that is to be checked, if there is one, checks it outside the turn, and hands it in or gives it up, and
/// answers what came of it. It waits for other threads.
pub fn work_once<R: Wait, M: Monitor, K: Rights, G: Gate>(
    rt: &R,
    alloc: Global,
    hall: &Hall<M>,
    pass: Access<M, K>,
    gate: &G,
) -> (Access<M, K>, Round)
    requires { pass.hall ≡ hall.now.hall }
    ensures { WorkedOnce pass result.1 result.0 }
{
    let (pass, found) = hall.take(rt, alloc, pass);
    match found {
        Ok(Some(job)) => {
            gate.taken(job.ticket());
            check(rt, alloc, hall, pass, gate, job)
        }
        Ok(None) => (pass, Round::NoWindow),
        Err(fault) => (pass, Round::Refused(fault)),
    }
}

/// Checks a job, and hands it in or gives it up.
fn check<R: Wait, M: Monitor, K: Rights, G: Gate>(
    rt: &R,
    alloc: Global,
    hall: &Hall<M>,
    pass: Access<M, K>,
    gate: &G,
    job: Job<M>,
) -> (Access<M, K>, Round)
    requires { pass.hall ≡ hall.now.hall }
    ensures { CameBack (ticket_of job) (window_of job) pass result.1 result.0 }
{
    match work(alloc, job) {
        Ok(done) => finish(rt, hall, pass, gate, done),
        Err(job) => give_up(rt, hall, pass, job),
    }
}

/// Hands a job in.
fn finish<R: Wait, M: Monitor, K: Rights, G: Gate>(
    rt: &R,
    hall: &Hall<M>,
    pass: Access<M, K>,
    gate: &G,
    done: Done<M>,
) -> (Access<M, K>, Round)
    requires { pass.hall ≡ hall.now.hall }
    ensures { CameBack (done_ticket done) (done_window done) pass result.1 result.0 }
{
    let ticket = done.ticket();
    let piece = done.piece();
    let (pass, answer) = hall.hand_in(rt, pass, done);
    gate.handed_in(ticket);
    match answer {
        HandIn::Taken => (pass, Round::Taken(piece)),
        HandIn::Void => (pass, Round::Void(piece)),
        HandIn::Stranger(done) => {
            done.forfeit();
            (pass, Round::Strange(piece))
        }
    }
}

/// Abandons a job, or forfeits it where the hall doesn't take it back.
fn give_up<R: Wait, M: Monitor, K: Rights>(
    rt: &R,
    hall: &Hall<M>,
    pass: Access<M, K>,
    job: Job<M>,
) -> (Access<M, K>, Round)
    requires { pass.hall ≡ hall.now.hall }
    ensures { CameBack (ticket_of job) (window_of job) pass result.1 result.0 }
{
    let piece = job.piece();
    let (pass, answer) = hall.abandon(rt, pass, job);
    match answer {
        Ok(()) => (pass, Round::Abandoned(piece)),
        Err(job) => {
            job.forfeit();
            (pass, Round::Lost(piece))
        }
    }
}
