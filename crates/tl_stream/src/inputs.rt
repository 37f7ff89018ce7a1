//! Inputs that are streamed, one or several.

ghost use Rattle.std.specs.Prelude.{◌≡◌, ◌<◌, ◌^◌, OnOk};

use crate::feed::{Cut, Feed};
use crate::listener::Listener;
use crate::parsers::Parsers;
use crate::share::Passed;
use crate::teller::{TellFault, Teller};
use std::alloc::Global;
use std::thread::Threads;
use tl_beats::{Fragment, FragmentFault};
use tl_check::RowForm;
use tl_text::{ByteIn, ByteOut, write_all};

/// The most reads of one input.
const MOST_READS: u64 = 1 << 61;

/// Where the text of an input is at fault.
#[derive(Drop)]
pub struct StreamStop {
    /// The code of the fault.
    pub code: u8,
    /// The line of the input, from 1.
    pub line: u64,
    /// What is noted after that.
    pub notes: String,
}

/// What one more step on an input came to.
#[derive(Drop)]
enum Step {
    /// A fragment was read that ends with this cycle, and checked if it is to be.
    Took(u64),
    /// Nothing is left.
    Ended,
    /// What is left begins with no fragment.
    Stopped(StreamStop),
}

/// Where an input has come.
#[derive(Drop)]
struct Place {
    feed: Feed,
    /// How many lines the fragments had that were read.
    lines: u64,
}

impl Place {
    fn new<R: Threads + Sync + AllocGlobal>(parsers: &Parsers<'_, R>) -> Place {
        Place {
            feed: Feed::new(parsers),
            lines: 0,
        }
    }

    /// Goes on after a fragment.
    fn pass(&mut self, fragment: &Fragment) {
        let lines = fragment.beats().len() as u64 + 2;
        self.lines = self.lines.saturating_add(lines);
    }

    /// Goes on after one that is not checked.
    fn pass_over(&mut self, passed: Passed) {
        self.lines = self.lines.saturating_add(passed.lines);
    }

    /// Where the fragment that comes next is at fault: on its first line where the fault names none.
    fn stop_at(&self, fault: FragmentFault, notes: String) -> StreamStop {
        let line = u64::from(fault.number().unwrap_or(1));
        StreamStop {
            code: fault.code(),
            line: self.lines.saturating_add(line),
            notes,
        }
    }
}

/// Reads the next fragment of an input and writes what comes of it.
fn take_step<R: Threads + Sync + AllocGlobal, I: ByteIn, F: RowForm, O: ByteOut, E: Listener>(
    parsers: &Parsers<'_, R>,
    place: &mut Place,
    input: &mut I,
    teller: &mut Teller<'_, F>,
    out: &mut O,
    err: &mut E,
) -> Result<Step, TellFault>
    requires out { O.failure_count out.old < 2 ^ 63 }
    requires err { E.failure_count err.old < 2 ^ 63 }
    ensures quiet { OnOk result (O.failure_count out.new ≡ O.failure_count out.old) }
    ensures err { E.failure_count err.new < 2 ^ 63 }
{
    if input.reads() >= MOST_READS || input.failures() >= MOST_READS {
        return Ok(Step::Ended);
    }
    let alloc = parsers.alloc();
    match place.feed.next(parsers, teller.sieve(), input) {
        Ok(Some(Cut::Fragment(fragment))) => {
            let last = fragment.last();
            place.pass(&fragment);
            teller.take(alloc, fragment, out, err)?;
            err.hear(teller.count());
            Ok(Step::Took(last))
        }
        Ok(Some(Cut::Passed(passed))) => {
            place.pass_over(passed);
            err.hear(teller.count());
            Ok(Step::Took(passed.last))
        }
        Ok(None) => Ok(Step::Ended),
        Err(FragmentFault::Memory) => Err(TellFault::Memory),
        Err(fault) => {
            let notes = teller.stop_notes(alloc, fault, place.feed.left());
            Ok(Step::Stopped(place.stop_at(fault, notes)))
        }
    }
}

/// One of several inputs.
#[derive(Drop)]
pub struct Source<I: ByteIn> {
    input: I,
    place: Place,
    /// The last cycle of its newest fragment.
    last: Option<u64>,
    has_ended: bool,
}

impl<I: ByteIn> Source<I> {
    /// An input of which nothing is read.
    pub fn new<R: Threads + Sync + AllocGlobal>(parsers: &Parsers<'_, R>, input: I) -> Source<I> {
        Source {
            input,
            place: Place::new(parsers),
            last: None,
            has_ended: false,
        }
    }

    /// Whether it is to be read before another, of which this is the last cycle: it has not come so far.
    fn is_behind(&self, last: Option<u64>) -> bool {
        !self.has_ended && self.last < last
    }
}

/// The number of the input that is read next: of those that have not ended the first whose newest fragment ends earliest.
fn next_of<I: ByteIn>(sources: &[Source<I>]) -> Option<usize> {
    let mut found: Option<usize> = None;
    for index in 0..sources.len() {
        let source = &sources[index];
        let is_next = match found {
            Some(best) if best < sources.len() => source.is_behind(sources[best].last),
            _ => !source.has_ended,
        };
        if is_next {
            found = Some(index);
        }
    }
    found
}

/// Streams one input, up to its end or to the first fault of its text. `err` hears of each fragment.
pub fn stream_input<
    R: Threads + Sync + AllocGlobal,
    I: ByteIn,
    F: RowForm,
    O: ByteOut,
    E: Listener,
>(
    parsers: &Parsers<'_, R>,
    teller: &mut Teller<'_, F>,
    input: &mut I,
    out: &mut O,
    err: &mut E,
) -> Result<Option<StreamStop>, TellFault>
    requires out { O.failure_count out.old < 2 ^ 63 }
    requires err { E.failure_count err.old < 2 ^ 63 }
    ensures quiet { OnOk result (O.failure_count out.new ≡ O.failure_count out.old) }
    ensures err { E.failure_count err.new < 2 ^ 63 }
{
    let mut place = Place::new(parsers);
    for _ in 0..u64::MAX {
        match take_step(parsers, &mut place, input, teller, out, err)? {
            Step::Took(_) => {}
            Step::Ended => return Ok(None),
            Step::Stopped(stop) => return Ok(Some(stop)),
        }
    }
    Ok(None)
}

/// Streams several inputs, up to the ends of all or to the first fault of a text. `err` hears of each fragment.
pub fn stream_sources<
    R: Threads + Sync + AllocGlobal,
    I: ByteIn,
    F: RowForm,
    O: ByteOut,
    E: Listener,
>(
    parsers: &Parsers<'_, R>,
    teller: &mut Teller<'_, F>,
    sources: &mut [Source<I>],
    out: &mut O,
    err: &mut E,
) -> Result<Option<StreamStop>, TellFault>
    requires out { O.failure_count out.old < 2 ^ 63 }
    requires err { E.failure_count err.old < 2 ^ 63 }
    ensures quiet { OnOk result (O.failure_count out.new ≡ O.failure_count out.old) }
    ensures err { E.failure_count err.new < 2 ^ 63 }
{
    for _ in 0..u64::MAX {
        let Some(source) = next_of(sources).and_then(|index| sources.get_mut(index)) else {
            return Ok(None);
        };
        match take_step(
            parsers,
            &mut source.place,
            &mut source.input,
            teller,
            out,
            err,
        )? {
            Step::Took(last) => source.last = Some(last),
            Step::Ended => source.has_ended = true,
            Step::Stopped(stop) => return Ok(Some(stop)),
        }
    }
    Ok(None)
}

/// Writes the line of a stop, and what is noted after it.
fn write_stop<O: ByteOut>(alloc: Global, stop: &StreamStop, out: &mut O) -> Result<(), TellFault>
    requires { O.failure_count out.old < 2 ^ 63 }
{
    let code = stop.code;
    let line = stop.line;
    let notes = stop.notes.as_str();
    let text = format!(in alloc; "stopped {code} {line}\n{notes}")?;
    write_all(out, text.as_bytes())?;
    Ok(())
}

/// Writes what a stream came to that reached its end, after the rows that are left and what else is told there.
fn write_count<F: RowForm, O: ByteOut>(
    alloc: Global,
    teller: Teller<'_, F>,
    told: &str,
    out: &mut O,
) -> Result<u64, TellFault>
    requires { O.failure_count out.old < 2 ^ 63 }
{
    let count = teller.end(alloc, out)?;
    write_all(out, told.as_bytes())?;
    let text = count.text(alloc)?;
    write_all(out, text.as_bytes())?;
    Ok(count.rows)
}

/// Writes the last line of a stream: where it stopped, or after the rows that are left and what else is told at the end what it came
/// to. Answers how many rows were written where it came to its end, and None where it stopped.
pub fn stream_end<F: RowForm, O: ByteOut>(
    alloc: Global,
    teller: Teller<'_, F>,
    stop: Option<StreamStop>,
    told: &str,
    out: &mut O,
) -> Result<Option<u64>, TellFault>
    requires { O.failure_count out.old < 2 ^ 63 }
{
    match stop {
        Some(stop) => {
            write_stop(alloc, &stop, out)?;
            Ok(None)
        }
        None => Ok(Some(write_count(alloc, teller, told, out)?)),
    }
}
