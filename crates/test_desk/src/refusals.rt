//! A monitor ends once, whichever call is refused memory: each that is refused is tried again, a job that can't be checked is
//! abandoned, and the desk is then finished. Without a refusal that is plain; `rt try --test --fail-alloc N` refuses the Nth.

use crate::bench::name;
use crate::counting::{Calls, Counting, GET};
use crate::retries::{
    abandon, add, attach, check, counters, is_accepted, open_desk, publish, recheck, take, withdraw,
};
use crate::texts::ONE_GET;
use std::alloc::Global;
use std::sync::atomic::Ordering;
use std::test::Fail;
use tl_beats::Watch;
use tl_desk::{Desk, Job};
use tl_edits::Change;
use tl_monitor::Settlement;
use tl_topology::Name;

/// Adds a Get and attaches a monitor: whether they are there.
fn set_up(alloc: Global, desk: &mut Desk<Counting>, link: Name, calls: &Calls) -> bool {
    add(alloc, desk, ONE_GET) && attach(alloc, desk, link, calls)
}

/// A desk with a Get and a monitor.
fn opened(alloc: Global, link: Name, calls: &Calls) -> Result<Desk<Counting>, Fail> {
    let mut desk = open_desk(alloc)?;
    if set_up(alloc, &mut desk, link, calls) {
        Ok(desk)
    } else {
        drop(desk);
        Err(Fail::new("no Get or no monitor"))
    }
}

/// Gives the monitor the greatest limit: whether no memory was refused.
fn retunes(alloc: Global, desk: &mut Desk<Counting>) -> bool {
    is_accepted(alloc, desk, Change::Retune(5, u32::MAX))
}

/// Gives a job up, if there is one.
fn forfeit(job: Option<Job<Counting>>) {
    if let Some(job) = job {
        job.forfeit();
    }
}

/// Checks all and publishes: the last edit that the report tells of, and how many rows it has.
fn publishes(alloc: Global, desk: &mut Desk<Counting>) -> Option<(u64, usize)> {
    if recheck(alloc, desk).is_none() {
        recheck(alloc, desk);
    }
    publish(alloc, desk);
    match desk.latest() {
        Some(report) => Some((report.edit(), report.rows().len())),
        None => None,
    }
}

/// Whether the desk can be finished, and monitor 5 alone was then closed, once, and told this.
fn ends_once(desk: Desk<Counting>, calls: &Calls, wanted: Settlement) -> bool {
    let ended = match desk.finish() {
        Ok((log, told)) => {
            drop(log);
            told
        }
        Err(back) => {
            drop(back);
            return false;
        }
    };
    ended.as_slice() == [(5, wanted)].as_slice() && calls.ends.load(Ordering::SeqCst) == 1
}

/// What a monitor tells that a third edit ended, with this limit.
fn told(link: Name, limit: u32) -> Settlement {
    Settlement {
        watch: Watch::Budget {
            link,
            class: GET,
            limit,
        },
        closed_at: 3,
    }
}

/// Takes two windows, retunes the monitor while it is out, and checks both: what was published before the window of the manager
/// came back.
fn retune_while_out(alloc: Global, desk: &mut Desk<Counting>) -> Option<(u64, usize)> {
    let of_manager = take(alloc, desk);
    let of_monitor = take(alloc, desk);
    let _ = retunes(alloc, desk) || retunes(alloc, desk);
    check(alloc, desk, of_monitor);
    let published = publishes(alloc, desk);
    check(alloc, desk, of_manager);
    published
}

#[test]
fn a_monitor_that_is_retuned_while_out_ends_once(rt: HostRuntime) -> Result<(), Fail> {
    let (alloc, link) = (rt.alloc(), name("dma0")?);
    let calls = counters(alloc)?;
    let mut desk = opened(alloc, link, &calls)?;
    let published = retune_while_out(alloc, &mut desk);
    let ends_once = ends_once(desk, &calls, told(link, u32::MAX));
    drop(calls);
    assert!(rt; published == Some((3, 0)));
    assert!(rt; ends_once);
    Ok(())
}

/// The number of the monitor for which a desk can't be finished, and then the same desk; None where it can.
fn kept_open(desk: Desk<Counting>) -> Option<(Desk<Counting>, u32)> {
    match desk.finish() {
        Ok(done) => {
            drop(done);
            None
        }
        Err(back) => Some(back),
    }
}

#[test]
fn a_monitor_that_is_out_with_no_window_left_ends_once(rt: HostRuntime) -> Result<(), Fail> {
    let (alloc, link) = (rt.alloc(), name("dma0")?);
    let calls = counters(alloc)?;
    let mut desk = opened(alloc, link, &calls)?;
    let of_manager = take(alloc, &mut desk);
    let of_monitor = take(alloc, &mut desk);
    withdraw(alloc, &mut desk, link);
    let published = publishes(alloc, &mut desk);
    let Some((mut desk, out)) = kept_open(desk) else {
        forfeit(of_manager);
        forfeit(of_monitor);
        drop(calls);
        return Err(Fail::new("no monitor is out"));
    };
    abandon(&mut desk, of_manager);
    abandon(&mut desk, of_monitor);
    let ends_once = ends_once(desk, &calls, told(link, 0));
    drop(calls);
    assert!(rt; published == Some((3, 0)) && out == 5);
    assert!(rt; ends_once);
    Ok(())
}
