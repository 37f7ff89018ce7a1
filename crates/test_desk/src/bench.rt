//! A desk that takes calls one after the other, and what each of them answers.

use crate::counting::{Calls, Counting};
use crate::retries::{add, counters, found, open_desk, take};
use crate::shelf::{Shelf, Shelved};
use crate::texts::FIRST_GET;
use std::alloc::Global;
use std::sync::Arc;
use std::sync::atomic::Ordering;
use std::test::Fail;
use tl_beats::{Row, Watch, parse_whole_fragment};
use tl_desk::{Desk, HandIn, Job, Piece, RecheckFault, Report, work};
use tl_edits::Change;
use tl_monitor::Settlement;
use tl_topology::Name;

/// A call on a desk.
#[derive(Clone, Copy)]
pub(crate) enum Step<'a> {
    /// Adds the fragment with this text.
    Add(&'a str),
    /// Puts the fragment with this text in the place of the one of its number.
    Replace(&'a str),
    /// Attaches a monitor of the Gets of dma0 under a number, with a limit.
    Attach(u32, u32),
    /// Takes a monitor off.
    Detach(u32),
    /// Takes fragment 1 of dma0 out.
    Withdraw,
    /// Checks all windows that are wanted.
    Recheck,
    /// Publishes.
    Publish,
    /// Reads the last report.
    Latest,
    /// Asks how often the monitors were called.
    Calls,
    /// Asks what monitors told that ended.
    Ended,
    /// Takes a window, which is put on the shelf.
    Take,
    /// Checks the job at a place of the shelf.
    Work(usize),
    /// Hands in what was checked at a place. A stranger stays there.
    HandIn(usize),
    /// Gives the job at a place back unchecked. A stranger stays there.
    Abandon(usize),
    /// Makes a job again of what was checked at a place.
    Back(usize),
    /// Puts a window on the shelf that another desk gave out, checked.
    Stray,
    /// Calls a ticket back.
    Recall(u64),
    /// Asks for the oldest live ticket.
    Oldest,
    /// Asks whether all windows are settled.
    Settled,
}

/// What a call answers.
#[derive(Clone, Copy, PartialEq)]
pub(crate) enum Answer {
    /// The edit of this number was accepted.
    Edit(u64),
    /// So many windows were checked.
    Checked(u64),
    /// The report of this version was published.
    Version(u64),
    /// The call was refused with this code.
    Refused(u8),
    /// A check was refused, since this monitor is out.
    BoxOut(u32),
    /// The version and the edit of a report, how many rows it has, and the first of them.
    Report(u64, u64, usize, Option<Row>),
    /// How many beats all monitors were given, and how many of these ended.
    Calls(u64, u64),
    /// How many monitors ended, and the number of the first, its limit, and the edit that ended it.
    Ended(usize, Option<(u32, u32, u64)>),
    /// A window went out under this ticket.
    Out(u64, Piece),
    /// The window was checked.
    Worked,
    /// Its result was taken.
    Taken,
    /// Its result was void.
    Void,
    /// The desk doesn't know it.
    Stranger,
    /// It was given back.
    Abandoned,
    /// It is a job again, or was put on the shelf.
    Back,
    /// The ticket was live.
    Recalled,
    /// The oldest live ticket.
    Oldest(u64),
    /// There is none, or nothing of the kind at that place.
    None,
    /// Whether all is settled.
    Settled(bool),
}

/// The name of a link.
pub(crate) fn name(word: &str) -> Result<Name, Fail> {
    found(Name::new(word.as_bytes()), "a name")
}

/// The change that a step asks for, if it asks for one.
pub(crate) fn change_of(alloc: Global, step: Step<'_>) -> Result<Option<Change>, Fail> {
    let text = match step {
        Step::Add(text) | Step::Replace(text) => text,
        Step::Detach(monitor) => return Ok(Some(Change::Detach(monitor))),
        Step::Withdraw => return Ok(Some(Change::Withdraw(name("dma0")?, 1))),
        _ => return Ok(None),
    };
    let fragment = Arc::new(alloc, parse_whole_fragment(alloc, text.as_bytes())?)?;
    Ok(Some(match step {
        Step::Replace(_) => Change::Replace(fragment),
        _ => Change::Add(fragment),
    }))
}

/// A change.
fn edit(alloc: Global, desk: &mut Desk<Counting>, change: Change) -> Answer {
    match desk.edit(alloc, change) {
        Ok(number) => Answer::Edit(number),
        Err(fault) => Answer::Refused(fault.code()),
    }
}

/// A monitor of dma0 with a limit.
pub(crate) fn monitor_of(alloc: Global, calls: &Calls, limit: u32) -> Result<Counting, Fail> {
    Ok(Counting::new(alloc, name("dma0")?, limit, calls)?)
}

/// A monitor that is attached.
fn attach(
    alloc: Global,
    desk: &mut Desk<Counting>,
    calls: &Calls,
    number: u32,
    limit: u32,
) -> Result<Answer, Fail> {
    let monitor = monitor_of(alloc, calls, limit)?;
    match desk.attach(alloc, number, monitor) {
        Ok(number) => Ok(Answer::Edit(number)),
        Err((fault, _)) => Ok(Answer::Refused(fault.code())),
    }
}

/// A check of all.
fn recheck(alloc: Global, desk: &mut Desk<Counting>) -> Answer {
    match desk.recheck_now(alloc) {
        Ok(count) => Answer::Checked(count),
        Err(RecheckFault::BoxOut(number)) => Answer::BoxOut(number),
        Err(fault) => Answer::Refused(fault.code()),
    }
}

/// A publish.
fn publish(alloc: Global, desk: &mut Desk<Counting>) -> Answer {
    match desk.publish(alloc) {
        Ok(version) => Answer::Version(version),
        Err(fault) => Answer::Refused(fault.code()),
    }
}

/// A report that is read.
fn report(report: Option<&Report>) -> Answer {
    match report {
        Some(report) => {
            let rows = report.rows();
            let first = rows.first().copied();
            Answer::Report(report.version(), report.edit(), rows.len(), first)
        }
        None => Answer::None,
    }
}

/// How often monitors were called.
fn called(calls: &Calls) -> Answer {
    let beats = calls.beats.load(Ordering::SeqCst);
    let ends = calls.ends.load(Ordering::SeqCst);
    Answer::Calls(beats, ends)
}

/// What monitors told.
fn ended(told: &[(u32, Settlement)]) -> Answer {
    let first = match told.first() {
        Some((monitor, told)) => match told.watch {
            Watch::Budget { limit, .. } => Some((*monitor, limit, told.closed_at)),
            Watch::After { .. } => None,
        },
        None => None,
    };
    Answer::Ended(told.len(), first)
}

/// A window that goes out.
fn take_out(alloc: Global, desk: &mut Desk<Counting>, shelf: &mut Shelf) -> Result<Answer, Fail> {
    match desk.take(alloc) {
        Ok(Some(job)) => shelve(shelf, job),
        Ok(None) => Ok(Answer::None),
        Err(fault) => Ok(Answer::Refused(fault.code())),
    }
}

/// Puts a job on the shelf.
fn shelve(shelf: &mut Shelf, job: Job<Counting>) -> Result<Answer, Fail> {
    let (ticket, piece) = (job.ticket(), job.piece());
    shelf.add(Shelved::Job(job))?;
    Ok(Answer::Out(ticket, piece))
}

/// A job that is checked.
fn work_at(alloc: Global, shelf: &mut Shelf, place: usize) -> Answer {
    let (held, answer) = match shelf.lift(place) {
        Shelved::Job(job) => match work(alloc, job) {
            Ok(done) => (Shelved::Done(done), Answer::Worked),
            Err(job) => (Shelved::Job(job), Answer::None),
        },
        other => (other, Answer::None),
    };
    shelf.put(place, held);
    answer
}

/// What was checked is handed in.
fn hand_in(desk: &mut Desk<Counting>, shelf: &mut Shelf, place: usize) -> Answer {
    let (held, answer) = match shelf.lift(place) {
        Shelved::Done(done) => match desk.hand_in(done) {
            HandIn::Taken => (Shelved::Gone, Answer::Taken),
            HandIn::Void => (Shelved::Gone, Answer::Void),
            HandIn::Stranger(done) => (Shelved::Done(done), Answer::Stranger),
        },
        other => (other, Answer::None),
    };
    shelf.put(place, held);
    answer
}

/// A job that is given back.
fn abandon(desk: &mut Desk<Counting>, shelf: &mut Shelf, place: usize) -> Answer {
    let (held, answer) = match shelf.lift(place) {
        Shelved::Job(job) => match desk.abandon(job) {
            Ok(()) => (Shelved::Gone, Answer::Abandoned),
            Err(job) => (Shelved::Job(job), Answer::Stranger),
        },
        other => (other, Answer::None),
    };
    shelf.put(place, held);
    answer
}

/// What was checked is a job again.
fn back(shelf: &mut Shelf, place: usize) -> Answer {
    let (held, answer) = match shelf.lift(place) {
        Shelved::Done(done) => (Shelved::Job(done.back()), Answer::Back),
        other => (other, Answer::None),
    };
    shelf.put(place, held);
    answer
}

/// The first window of another desk, checked.
fn stray(alloc: Global) -> Result<Shelved, Fail> {
    let mut desk = open_desk(alloc)?;
    add(alloc, &mut desk, FIRST_GET);
    let job = take(alloc, &mut desk);
    drop(desk);
    Ok(match job {
        Some(job) => match work(alloc, job) {
            Ok(done) => Shelved::Done(done),
            Err(job) => Shelved::Job(job),
        },
        None => Shelved::Gone,
    })
}

/// Puts it on the shelf.
fn shelve_stray(alloc: Global, shelf: &mut Shelf) -> Result<Answer, Fail> {
    let held = stray(alloc)?;
    shelf.add(held)?;
    Ok(Answer::Back)
}

/// A ticket that is called back.
fn recall(desk: &mut Desk<Counting>, ticket: u64) -> Answer {
    if desk.recall(ticket) {
        Answer::Recalled
    } else {
        Answer::None
    }
}

/// The oldest live ticket.
fn oldest(desk: &Desk<Counting>) -> Answer {
    match desk.oldest_live() {
        Some(ticket) => Answer::Oldest(ticket),
        None => Answer::None,
    }
}

/// A call about a window that is out.
fn call_out(
    alloc: Global,
    desk: &mut Desk<Counting>,
    shelf: &mut Shelf,
    step: Step<'_>,
) -> Result<Answer, Fail> {
    match step {
        Step::Take => take_out(alloc, desk, shelf),
        Step::Work(place) => Ok(work_at(alloc, shelf, place)),
        Step::HandIn(place) => Ok(hand_in(desk, shelf, place)),
        Step::Abandon(place) => Ok(abandon(desk, shelf, place)),
        Step::Back(place) => Ok(back(shelf, place)),
        Step::Stray => shelve_stray(alloc, shelf),
        Step::Recall(ticket) => Ok(recall(desk, ticket)),
        Step::Oldest => Ok(oldest(desk)),
        _ => Ok(Answer::Settled(desk.settled())),
    }
}

/// One call.
fn call(
    alloc: Global,
    desk: &mut Desk<Counting>,
    calls: &Calls,
    shelf: &mut Shelf,
    step: Step<'_>,
) -> Result<Answer, Fail> {
    if let Some(change) = change_of(alloc, step)? {
        return Ok(edit(alloc, desk, change));
    }
    match step {
        Step::Attach(number, limit) => attach(alloc, desk, calls, number, limit),
        Step::Recheck => Ok(recheck(alloc, desk)),
        Step::Publish => Ok(publish(alloc, desk)),
        Step::Latest => Ok(report(desk.latest())),
        Step::Calls => Ok(called(calls)),
        Step::Ended => Ok(ended(desk.settlements())),
        _ => call_out(alloc, desk, shelf, step),
    }
}

/// The first of some calls that answers otherwise, by its place; None where none does.
pub(crate) fn run(
    alloc: Global,
    desk: &mut Desk<Counting>,
    calls: &Calls,
    shelf: &mut Shelf,
    steps: &[(Step<'_>, Answer)],
) -> Result<Option<usize>, Fail> {
    for (at, (step, wanted)) in steps.iter().enumerate() {
        if call(alloc, desk, calls, shelf, *step)? != *wanted {
            return Ok(Some(at));
        }
    }
    Ok(None)
}

/// The same on a desk without edits.
pub(crate) fn wrong(alloc: Global, steps: &[(Step<'_>, Answer)]) -> Result<Option<usize>, Fail> {
    let calls = counters(alloc)?;
    let mut desk = open_desk(alloc)?;
    let mut shelf = Shelf::new(alloc);
    let found = run(alloc, &mut desk, &calls, &mut shelf, steps);
    shelf.clear();
    drop(desk);
    drop(calls);
    found
}
