//! Calls on a desk that are made once more where they are refused memory, so that each comes about wherever one allocation is refused.

use crate::counting::{Calls, Counting, no_calls};
use crate::texts::ONE_MANAGER;
use std::alloc::Global;
use std::sync::Arc;
use std::test::Fail;
use tl_beats::{Fragment, parse_whole_fragment};
use tl_desk::{Desk, Done, HandIn, Job, work};
use tl_edits::Change;
use tl_monitor::Monitor;
use tl_topology::{Name, Topo, read_topo};

/// What there is, or a failure that names it.
pub(crate) fn found<T>(thing: Option<T>, what: &'static str) -> Result<T, Fail> {
    match thing {
        Some(thing) => Ok(thing),
        None => Err(Fail::new(what)),
    }
}

/// A topology from its text, if no memory is refused.
pub(crate) fn topology_of(alloc: Global, text: &str) -> Option<Topo> {
    match read_topo(alloc, text.as_bytes()) {
        Ok((topo, _)) => Some(topo),
        Err(_) => None,
    }
}

/// A desk without edits, if no memory is refused.
fn new_desk<M: Monitor + Drop>(alloc: Global) -> Option<Desk<M>> {
    match topology_of(alloc, ONE_MANAGER) {
        Some(topo) => match Desk::new(alloc, topo) {
            Ok(desk) => Some(desk),
            Err(_) => None,
        },
        None => None,
    }
}

/// A desk without edits.
pub(crate) fn open_desk<M: Monitor + Drop>(alloc: Global) -> Result<Desk<M>, Fail> {
    match new_desk(alloc) {
        Some(desk) => Ok(desk),
        None => found(new_desk(alloc), "a desk"),
    }
}

/// Counters of calls.
pub(crate) fn counters(alloc: Global) -> Result<Calls, Fail> {
    match no_calls(alloc) {
        Some(calls) => Ok(calls),
        None => found(no_calls(alloc), "counters"),
    }
}

/// Makes an edit: whether it was accepted.
pub(crate) fn is_accepted(alloc: Global, desk: &mut Desk<Counting>, change: Change) -> bool {
    match desk.edit(alloc, change) {
        Ok(_) => true,
        Err(_) => false,
    }
}

/// The fragment with a text, if no memory is refused.
pub(crate) fn fragment_of(alloc: Global, text: &str) -> Option<Arc<Fragment>> {
    match parse_whole_fragment(alloc, text.as_bytes()) {
        Ok(fragment) => match Arc::new(alloc, fragment) {
            Ok(shared) => Some(shared),
            Err(_) => None,
        },
        Err(_) => None,
    }
}

/// Adds the fragment with a text: whether no memory was refused.
fn adds(alloc: Global, desk: &mut Desk<Counting>, text: &str) -> bool {
    match fragment_of(alloc, text) {
        Some(fragment) => is_accepted(alloc, desk, Change::Add(fragment)),
        None => false,
    }
}

/// Adds the fragment with a text: whether it stands there.
pub(crate) fn add(alloc: Global, desk: &mut Desk<Counting>, text: &str) -> bool {
    adds(alloc, desk, text) || adds(alloc, desk, text)
}

/// Attaches a monitor 5 that lets no Get through: whether no memory was refused.
fn attaches(alloc: Global, desk: &mut Desk<Counting>, link: Name, calls: &Calls) -> bool {
    match Counting::new(alloc, link, 0, calls) {
        Ok(monitor) => match desk.attach(alloc, 5, monitor) {
            Ok(_) => true,
            Err(_) => false,
        },
        Err(_) => false,
    }
}

/// Attaches a monitor 5 that lets no Get through: whether it is there.
pub(crate) fn attach(alloc: Global, desk: &mut Desk<Counting>, link: Name, calls: &Calls) -> bool {
    attaches(alloc, desk, link, calls) || attaches(alloc, desk, link, calls)
}

/// Takes fragment 1 of a link out: whether no memory was refused.
fn withdraws(alloc: Global, desk: &mut Desk<Counting>, link: Name) -> bool {
    is_accepted(alloc, desk, Change::Withdraw(link, 1))
}

/// Takes fragment 1 of a link out: whether it is gone.
pub(crate) fn withdraw(alloc: Global, desk: &mut Desk<Counting>, link: Name) -> bool {
    withdraws(alloc, desk, link) || withdraws(alloc, desk, link)
}

/// Publishes: whether no memory was refused.
fn publishes(alloc: Global, desk: &mut Desk<Counting>) -> bool {
    match desk.publish(alloc) {
        Ok(_) => true,
        Err(_) => false,
    }
}

/// Publishes: whether there is a report.
pub(crate) fn publish(alloc: Global, desk: &mut Desk<Counting>) -> bool {
    publishes(alloc, desk) || publishes(alloc, desk)
}

/// Checks all, once: how many windows that counted; None where memory is refused.
pub(crate) fn recheck(alloc: Global, desk: &mut Desk<Counting>) -> Option<u64> {
    match desk.recheck_now(alloc) {
        Ok(count) => Some(count),
        Err(_) => None,
    }
}

/// The next window.
pub(crate) fn take(alloc: Global, desk: &mut Desk<Counting>) -> Option<Job<Counting>> {
    match desk.take(alloc) {
        Ok(job) => job,
        Err(_) => match desk.take(alloc) {
            Ok(job) => job,
            Err(_) => None,
        },
    }
}

/// Hands a job in: whether its result was taken.
fn hand_in(desk: &mut Desk<Counting>, done: Done<Counting>) -> bool {
    match desk.hand_in(done) {
        HandIn::Taken => true,
        HandIn::Void => false,
        HandIn::Stranger(done) => {
            done.forfeit();
            false
        }
    }
}

/// Abandons a job, if there is one.
pub(crate) fn abandon(desk: &mut Desk<Counting>, job: Option<Job<Counting>>) {
    let Some(job) = job else {
        return;
    };
    if let Err(job) = desk.abandon(job) {
        job.forfeit();
    }
}

/// Checks a job, if there is one, and hands it in, or abandons it: whether its result was taken.
pub(crate) fn check(alloc: Global, desk: &mut Desk<Counting>, job: Option<Job<Counting>>) -> bool {
    let Some(job) = job else {
        return false;
    };
    let job = match work(alloc, job) {
        Ok(done) => return hand_in(desk, done),
        Err(job) => job,
    };
    match work(alloc, job) {
        Ok(done) => hand_in(desk, done),
        Err(job) => {
            abandon(desk, Some(job));
            false
        }
    }
}
