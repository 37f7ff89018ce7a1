//! Lists of steps that a desk runs by itself.

use crate::bench::{Answer, Step, change_of, monitor_of, run};
use crate::counting::{Calls, Counting};
use crate::retries::{counters, open_desk};
use crate::shelf::Shelf;
use crate::texts::{FIRST_GET, MISALIGNED_GET};
use std::alloc::Global;
use std::test::Fail;
use tl_desk::{Desk, Piece, PublishFault, Reply, Step as Played};
use tl_edits::EditFault;

/// A monitor that is attached, as a list has it.
fn attached(
    alloc: Global,
    calls: &Calls,
    number: u32,
    limit: u32,
) -> Result<Played<Counting>, Fail> {
    match monitor_of(alloc, calls, limit) {
        Ok(monitor) => Ok(Played::Attach(number, monitor)),
        Err(fail) => Err(fail),
    }
}

/// A change as a list has it.
fn changed(alloc: Global, step: Step<'_>) -> Result<Played<Counting>, Fail> {
    match change_of(alloc, step) {
        Ok(Some(change)) => Ok(Played::Edit(change)),
        Ok(None) => Err(Fail::new("no step of a list")),
        Err(fail) => Err(fail),
    }
}

/// A step as a list has it.
fn played(alloc: Global, calls: &Calls, step: Step<'_>) -> Result<Played<Counting>, Fail> {
    match step {
        Step::Attach(number, limit) => attached(alloc, calls, number, limit),
        Step::Take => Ok(Played::Take),
        Step::Work(place) => Ok(Played::Work(place)),
        Step::HandIn(place) => Ok(Played::HandIn(place)),
        Step::Abandon(place) => Ok(Played::Abandon(place)),
        Step::Recall(ticket) => Ok(Played::Recall(ticket)),
        Step::Publish => Ok(Played::Publish),
        _ => changed(alloc, step),
    }
}

/// Puts one more step into a list.
fn add_step(
    alloc: Global,
    calls: &Calls,
    list: &mut Vec<Played<Counting>>,
    step: Step<'_>,
) -> Result<(), Fail> {
    let step = played(alloc, calls, step)?;
    match list.push(step) {
        Ok(()) => Ok(()),
        Err(failed) => {
            drop(failed);
            Err(Fail::new("memory"))
        }
    }
}

/// Puts some steps into a list.
fn add_steps(
    alloc: Global,
    calls: &Calls,
    list: &mut Vec<Played<Counting>>,
    steps: &[(Step<'_>, Reply)],
) -> Result<(), Fail> {
    for (step, _) in steps {
        add_step(alloc, calls, list, *step)?;
    }
    Ok(())
}

/// The list of some steps.
fn list_of(
    alloc: Global,
    calls: &Calls,
    steps: &[(Step<'_>, Reply)],
) -> Result<Vec<Played<Counting>>, Fail> {
    let mut list = Vec::new(alloc);
    match add_steps(alloc, calls, &mut list, steps) {
        Ok(()) => Ok(list),
        Err(fail) => {
            drop(list);
            Err(fail)
        }
    }
}

/// The first step whose reply is another, by its place, and None where there is none.
fn first_other(replies: &[Reply], steps: &[(Step<'_>, Reply)]) -> Option<usize> {
    for (at, (_, wanted)) in steps.iter().enumerate() {
        if replies.get(at) != Some(wanted) {
            return Some(at);
        }
    }
    None
}

/// Has a desk run a list of steps: the first whose reply is another.
fn play(
    alloc: Global,
    desk: &mut Desk<Counting>,
    calls: &Calls,
    steps: &[(Step<'_>, Reply)],
) -> Result<Option<usize>, Fail> {
    let list = list_of(alloc, calls, steps)?;
    match desk.play(alloc, list) {
        Ok(replies) => Ok(first_other(&replies, steps)),
        Err(list) => {
            drop(list);
            Err(Fail::new("memory"))
        }
    }
}

/// Has a desk run a list of steps, and take further calls: the first step whose reply is another, and the first call that answers
/// otherwise.
fn play_and_run(
    alloc: Global,
    desk: &mut Desk<Counting>,
    calls: &Calls,
    shelf: &mut Shelf,
    list: &[(Step<'_>, Reply)],
    behind: &[(Step<'_>, Answer)],
) -> Result<(Option<usize>, Option<usize>), Fail> {
    let reply = play(alloc, desk, calls, list)?;
    let answer = run(alloc, desk, calls, shelf, behind)?;
    Ok((reply, answer))
}

/// The same on a desk without edits.
fn wrong_of_list(
    alloc: Global,
    list: &[(Step<'_>, Reply)],
    behind: &[(Step<'_>, Answer)],
) -> Result<(Option<usize>, Option<usize>), Fail> {
    let calls = counters(alloc)?;
    let mut desk = open_desk(alloc)?;
    let mut shelf = Shelf::new(alloc);
    let found = play_and_run(alloc, &mut desk, &calls, &mut shelf, list, behind);
    shelf.clear();
    drop(desk);
    drop(calls);
    found
}

#[test]
fn a_place_stays_empty(rt: HostRuntime) -> Result<(), Fail> {
    // An abandon of what was checked, and of what was spent, is nothing; the next job has a place of its own.
    let list = [
        (Step::Add(FIRST_GET), Reply::Edited(1)),
        (Step::Take, Reply::Took(1)),
        (Step::Work(0), Reply::Worked),
        (Step::Abandon(0), Reply::Nothing),
        (Step::Work(0), Reply::Nothing),
        (Step::HandIn(1), Reply::Nothing),
        (Step::Recall(1), Reply::Recalled(true)),
        (Step::Recall(1), Reply::Recalled(false)),
        (Step::HandIn(0), Reply::HandedIn { taken: false }),
        (Step::Work(0), Reply::Nothing),
        (Step::Take, Reply::Took(2)),
        (Step::Abandon(1), Reply::Abandoned),
        (Step::Abandon(1), Reply::Nothing),
        (Step::Take, Reply::Took(3)),
        (Step::Work(2), Reply::Worked),
        (Step::HandIn(2), Reply::HandedIn { taken: true }),
        (Step::Take, Reply::TookNone),
        (Step::Publish, Reply::Published(1)),
    ];
    let behind = [
        (Step::Settled, Answer::Settled(true)),
        (Step::Latest, Answer::Report(1, 1, 0, None)),
    ];
    let told = wrong_of_list(rt.alloc(), &list, &behind)?;
    assert_eq!(rt; told, (None, None));
    Ok(())
}

#[test]
fn what_a_list_refuses_is_dropped_and_what_it_leaves_abandoned(
    rt: HostRuntime,
) -> Result<(), Fail> {
    // Of two monitors the second was refused, and isn't closed. The window that was left is free again, and its ticket isn't live.
    let list = [
        (Step::Attach(5, 1), Reply::Edited(1)),
        (
            Step::Attach(5, 2),
            Reply::EditRefused(EditFault::MonitorExists),
        ),
        (Step::Add(MISALIGNED_GET), Reply::Edited(2)),
        (
            Step::Add(FIRST_GET),
            Reply::EditRefused(EditFault::FragmentExists),
        ),
        (Step::Detach(5), Reply::Edited(3)),
        (Step::Take, Reply::Took(1)),
        (Step::Publish, Reply::PublishRefused(PublishFault::NotReady)),
    ];
    let behind = [
        (Step::Ended, Answer::Ended(1, Some((5, 1, 3)))),
        (Step::Calls, Answer::Calls(0, 1)),
        (Step::Recall(1), Answer::None),
        (Step::Take, Answer::Out(2, Piece::Manager(0, 0))),
    ];
    let told = wrong_of_list(rt.alloc(), &list, &behind)?;
    assert_eq!(rt; told, (None, None));
    Ok(())
}
