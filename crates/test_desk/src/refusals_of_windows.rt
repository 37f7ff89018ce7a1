//! Windows whose check is refused memory, and windows that come back late: what was stored stays, and no more is checked again than
//! is wanted. Each call that is refused is tried again, as in `refusals`.

use crate::bench::name;
use crate::counting::{Calls, Counting};
use crate::retries::{
    abandon, add, attach, check, counters, open_desk, publish, recheck, take, withdraw,
};
use crate::texts::{BLOCK_ASKED, BLOCK_GRANTED, FIRST_GET, LATER_GET, SECOND_GET, THIRD_GET};
use std::alloc::Global;
use std::sync::atomic::Ordering;
use std::test::Fail;
use tl_beats::Row;
use tl_desk::{Desk, Job, Piece};
use tl_tables::{Chan, Rule};

/// A Get in each of the windows 0 to 2.
const GETS: [&str; 3] = [FIRST_GET, SECOND_GET, THIRD_GET];

/// A block that is asked for in window 0 and granted over its end, and a Get in window 2.
const GRANTED_BLOCK: [&str; 3] = [BLOCK_ASKED, BLOCK_GRANTED, LATER_GET];

/// What the grant breaks where nobody has asked for the block.
const UNASKED: Row = Row {
    link: 0,
    cycle: 4092,
    chan: Chan::D,
    rule: Rule::S2,
    monitor: None,
    fragment: 2,
    line: 2,
};

/// Adds fragments: whether they stand there.
fn add_all(alloc: Global, desk: &mut Desk<Counting>, texts: &[&str]) -> bool {
    for text in texts {
        if !add(alloc, desk, text) {
            return false;
        }
    }
    true
}

/// A desk with some fragments.
fn desk_of(alloc: Global, texts: &[&str]) -> Result<Desk<Counting>, Fail> {
    let mut desk = open_desk(alloc)?;
    if add_all(alloc, &mut desk, texts) {
        Ok(desk)
    } else {
        drop(desk);
        Err(Fail::new("fragments"))
    }
}

/// The ticket of a job and its window, if it is of a manager.
fn seen(job: &Option<Job<Counting>>) -> Option<(u64, u64)> {
    match job {
        Some(job) => match job.piece() {
            Piece::Manager(_, window) => Some((job.ticket(), window)),
            Piece::Monitor(_, _) => None,
        },
        None => None,
    }
}

/// The window of a job, if it is of a manager.
fn window_of(job: &Option<Job<Counting>>) -> Option<u64> {
    match seen(job) {
        Some((_, window)) => Some(window),
        None => None,
    }
}

/// The first three windows that are wanted. All go out, and come back unchecked.
fn wanted(alloc: Global, desk: &mut Desk<Counting>) -> [Option<u64>; 3] {
    let first = take(alloc, desk);
    let second = take(alloc, desk);
    let third = take(alloc, desk);
    let windows = [window_of(&first), window_of(&second), window_of(&third)];
    abandon(desk, first);
    abandon(desk, second);
    abandon(desk, third);
    windows
}

/// Checks all, again where that is refused memory: which windows were wanted before the last try, and how many that counted.
fn rechecked(alloc: Global, desk: &mut Desk<Counting>) -> ([Option<u64>; 3], Option<u64>) {
    let all = wanted(alloc, desk);
    match recheck(alloc, desk) {
        Some(count) => (all, Some(count)),
        None => {
            let left = wanted(alloc, desk);
            (left, recheck(alloc, desk))
        }
    }
}

/// Checks all, again where that is refused memory: how many windows the last try counted, and how many beats the monitor was given
/// before it, and by it.
fn rewatched(alloc: Global, desk: &mut Desk<Counting>, calls: &Calls) -> (Option<u64>, u64, u64) {
    if let Some(count) = recheck(alloc, desk) {
        return (Some(count), 0, calls.beats.load(Ordering::SeqCst));
    }
    let before = calls.beats.load(Ordering::SeqCst);
    let count = recheck(alloc, desk);
    let behind = calls.beats.load(Ordering::SeqCst);
    (count, before, behind.saturating_sub(before))
}

/// Whether a report is published, and has this version, edit and rows, and all is settled.
fn is_published(
    alloc: Global,
    desk: &mut Desk<Counting>,
    version: u64,
    edit: u64,
    rows: &[Row],
) -> bool {
    publish(alloc, desk) && is_reported(desk, version, edit, rows)
}

/// Whether the last report has this version, edit and rows, and all is settled.
fn is_reported(desk: &Desk<Counting>, version: u64, edit: u64, rows: &[Row]) -> bool {
    match desk.latest() {
        Some(report) => {
            desk.settled()
                && report.version() == version
                && report.edit() == edit
                && report.rows() == rows
        }
        None => false,
    }
}

/// Whether no window is wanted that has no ticket.
fn is_none_left(alloc: Global, desk: &mut Desk<Counting>) -> bool {
    match take(alloc, desk) {
        Some(job) => {
            abandon(desk, Some(job));
            false
        }
        None => true,
    }
}

/// Whether three windows go out that have no results, and are taken in, the last first; then not all is settled.
fn all_come_back(alloc: Global, desk: &mut Desk<Counting>) -> bool {
    let first = take(alloc, desk);
    let second = take(alloc, desk);
    let third = take(alloc, desk);
    let are_all = is_none_left(alloc, desk);
    let went_out = [seen(&first), seen(&second), seen(&third)];
    let third_is_taken = check(alloc, desk, third);
    let second_is_taken = check(alloc, desk, second);
    let first_is_taken = check(alloc, desk, first);
    matches!(went_out, [Some((1, 0)), Some((2, 1)), Some((3, 2))])
        && are_all
        && third_is_taken
        && second_is_taken
        && first_is_taken
        && !desk.settled()
}

/// Whether the last two of them go out again, since the first left them something else, and are taken in; then not all is settled.
fn two_come_back(alloc: Global, desk: &mut Desk<Counting>) -> bool {
    let first = take(alloc, desk);
    let second = take(alloc, desk);
    let are_all = is_none_left(alloc, desk);
    let went_out = [seen(&first), seen(&second)];
    let first_is_taken = check(alloc, desk, first);
    let second_is_taken = check(alloc, desk, second);
    matches!(went_out, [Some((4, 1)), Some((5, 2))])
        && are_all
        && first_is_taken
        && second_is_taken
        && !desk.settled()
}

/// Whether the last goes out once more, and is taken in; then all is settled.
fn one_comes_back(alloc: Global, desk: &mut Desk<Counting>) -> bool {
    let only = take(alloc, desk);
    let is_all = is_none_left(alloc, desk);
    let went_out = seen(&only);
    let is_taken = check(alloc, desk, only);
    went_out == Some((6, 2)) && is_all && is_taken && desk.settled()
}

#[test]
fn windows_without_results_are_checked_once_each(rt: HostRuntime) -> Result<(), Fail> {
    // Those before the first that is refused memory keep their results, and the next check counts the others.
    let alloc = rt.alloc();
    let mut desk = desk_of(alloc, &GRANTED_BLOCK)?;
    let checked = rechecked(alloc, &mut desk);
    let is_published = is_published(alloc, &mut desk, 1, 3, &[]);
    drop(desk);
    assert!(rt;
        matches!(
            checked,
            ([Some(0), Some(1), Some(2)], Some(3))
                | ([Some(1), Some(2), None], Some(2))
                | ([Some(2), None, None], Some(1))
        )
    );
    assert!(rt; is_published);
    Ok(())
}

#[test]
fn a_withdrawal_reaches_each_later_window_once(rt: HostRuntime) -> Result<(), Fail> {
    // Of the windows that have results the first that is wanted is known; its check shows that the next is wanted too.
    let (alloc, link) = (rt.alloc(), name("cpu0")?);
    let mut desk = desk_of(alloc, &GRANTED_BLOCK)?;
    let _ = rechecked(alloc, &mut desk);
    let is_published_before = is_published(alloc, &mut desk, 1, 3, &[]);
    let is_withdrawn = withdraw(alloc, &mut desk, link);
    let checked = rechecked(alloc, &mut desk);
    let is_published = is_published(alloc, &mut desk, 2, 4, &[UNASKED]);
    drop(desk);
    assert!(rt; is_published_before && is_withdrawn);
    assert!(rt;
        matches!(
            checked,
            ([Some(0), None, None], Some(3))
                | ([Some(1), None, None], Some(2))
                | ([Some(2), None, None], Some(1))
        )
    );
    assert!(rt; is_published);
    Ok(())
}

#[test]
fn a_monitor_is_given_no_window_again_that_has_its_result(rt: HostRuntime) -> Result<(), Fail> {
    // Three windows of a manager and then three of a monitor, each with two beats: a refusal in one of these costs its own at most.
    let (alloc, link) = (rt.alloc(), name("dma0")?);
    let calls = counters(alloc)?;
    let mut desk = desk_of(alloc, &GETS)?;
    let is_attached = attach(alloc, &mut desk, link, &calls);
    let checked = rewatched(alloc, &mut desk, &calls);
    drop(desk);
    drop(calls);
    assert!(rt; is_attached);
    assert!(rt;
        matches!(
            checked,
            (Some(3..=6), 0, 6) | (Some(3), 1..=2, 6) | (Some(2), 2..=4, 4) | (Some(1), 4..=6, 2)
        )
    );
    Ok(())
}

#[test]
fn windows_that_come_back_go_out_until_they_chain(rt: HostRuntime) -> Result<(), Fail> {
    // Each is checked at first as if nothing stood before it; what the last two begin with changes, of the last one twice.
    let alloc = rt.alloc();
    let mut desk = desk_of(alloc, &GRANTED_BLOCK)?;
    let three_came = all_come_back(alloc, &mut desk);
    let two_came = two_come_back(alloc, &mut desk);
    let one_came = one_comes_back(alloc, &mut desk);
    let is_published = is_published(alloc, &mut desk, 1, 3, &[]);
    drop(desk);
    assert!(rt; three_came);
    assert!(rt; two_came);
    assert!(rt; one_came);
    assert!(rt; is_published);
    Ok(())
}
