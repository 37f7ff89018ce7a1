//! How far a command is, told on standard error while it works.

ghost use Rattle.std.specs.Prelude.{◌≡◌, ◌<◌, ◌^◌};

use crate::files::line_ends;
use std::alloc::{AllocError, Global};
use std::rt::Clock;
use std::time::{Duration, Instant};
use tl_stream::{Listener, StreamCount};
use tl_text::{ByteOut, WriteFault, write_all};

/// The most seconds between two lines.
const LONGEST_PAUSE: u64 = 60;

/// So many writes that failed that none is tried any more.
const MANY_FAILURES: u64 = (1 << 63) - 1;

/// How far a command is.
#[derive(Clone, Copy, Debug, PartialEq, Eq)]
pub enum SoFar {
    /// So many of all files were read, and so many bytes.
    Files { read: usize, all: usize, bytes: u64 },
    /// A script of so many bytes was read.
    Script(usize),
    /// So many lines were written.
    Lines(u64),
    /// A stream came to this.
    Stream(StreamCount),
}

/// A number in decimal, with a comma before each three digits but the first.
fn grouped(alloc: Global, number: u64) -> Result<String, AllocError> {
    let digits = format!(in alloc; "{number}")?;
    let mut text = String::new(alloc);
    for (place, digit) in digits.chars().enumerate() {
        let left = digits.len().saturating_sub(place);
        if place > 0 && left % 3 == 0 {
            text.push(',')?;
        }
        text.push(digit)?;
    }
    Ok(text)
}

/// So many of a unit.
fn counted(alloc: Global, number: u64, unit: &str) -> Result<String, AllocError> {
    let ending = if number == 1 { "" } else { "s" };
    let digits = grouped(alloc, number)?;
    format!(in alloc; "{digits} {unit}{ending}")
}

impl SoFar {
    /// It in words.
    fn text(self, alloc: Global) -> Result<String, AllocError> {
        match self {
            SoFar::Files { read, all, bytes } => {
                let bytes = counted(alloc, bytes, "byte")?;
                format!(in alloc; "{read} of {all} files read, {bytes}")
            }
            SoFar::Script(bytes) => {
                let bytes = counted(alloc, bytes as u64, "byte")?;
                format!(in alloc; "a script of {bytes} read")
            }
            SoFar::Lines(count) => {
                let lines = counted(alloc, count, "line")?;
                format!(in alloc; "{lines} written")
            }
            SoFar::Stream(count) => {
                let beats = counted(alloc, count.beats, "beat")?;
                let rows = counted(alloc, count.rows, "row")?;
                format!(in alloc; "{beats} read, {rows}")
            }
        }
    }
}

/// The line of a command that is so far after this time.
fn line_of(alloc: Global, so_far: SoFar, elapsed: Duration) -> Result<String, AllocError> {
    let text = so_far.text(alloc)?;
    let seconds = elapsed.as_secs();
    let tenths = elapsed.subsec_millis() / 100;
    format!(in alloc; "tlcheck: {text}, {seconds}.{tenths} s\n")
}

/// What is told how far a command is.
pub trait Gauge {
    /// It is so far.
    fn tell(&mut self, so_far: SoFar);
}

/// Standard error of a command, where it may be told how far that is: after a second, then each time that it has taken twice as long,
/// and after a minute once a minute. A command that takes less than a second tells nothing.
#[derive(Drop)]
pub struct Progress<'r, 'e, R, E: ByteOut> {
    rt: &'r R,
    err: &'e mut E,
    /// When the command began; None where nothing is told.
    began: Option<Instant>,
    /// After how many seconds it is told next.
    due: u64,
}

impl<'r, 'e, R: Clock + AllocGlobal, E: ByteOut> Progress<'r, 'e, R, E> {
    /// A command that begins now. Nothing is told where that is not wanted, or where the clock can't be read.
    pub fn new(rt: &'r R, err: &'e mut E, is_wanted: bool) -> Progress<'r, 'e, R, E>
        ensures { result.err.now ≡ err.old }
    {
        let began = if is_wanted {
            Instant::now(rt).ok()
        } else {
            None
        };
        Progress {
            rt,
            err,
            began,
            due: 1,
        }
    }

    /// How long it has taken, where that is known and wanted.
    fn elapsed(&self) -> Option<Duration> {
        self.began?.elapsed(self.rt).ok()
    }

    /// Tells how far it is, if that is due; that this can't be written changes nothing.
    fn tell_due(&mut self, so_far: SoFar)
        ensures { E.failure_count self.old.err.now < 2 ^ 63 → E.failure_count self.new.err.now < 2 ^ 63 }
    {
        let Some(elapsed) = self.elapsed() else {
            return;
        };
        let seconds = elapsed.as_secs();
        if seconds < self.due {
            return;
        }
        self.due = seconds.saturating_add(seconds.min(LONGEST_PAUSE));
        if let Ok(line) = line_of(self.rt.alloc(), so_far, elapsed)
            && self.err.failures() < MANY_FAILURES
        {
            let _ = write_all(self.err, line.as_bytes());
        }
    }
}

impl<'r, 'e, R: Clock + AllocGlobal, E: ByteOut> Gauge for Progress<'r, 'e, R, E> {
    fn tell(&mut self, so_far: SoFar) {
        self.tell_due(so_far);
    }
}

impl<'r, 'e, R: Clock + AllocGlobal, E: ByteOut> ByteOut for Progress<'r, 'e, R, E> {
    ghost contents = { λ p. E.contents p.err.now };

    ghost failure_count = { λ p. E.failure_count p.err.now };

    fn write(&mut self, bytes: &[u8]) -> Result<usize, WriteFault> {
        self.err.write(bytes)
    }

    fn failures(&self) -> u64 {
        self.err.failures()
    }
}

impl<'r, 'e, R: Clock + AllocGlobal, E: ByteOut> Listener for Progress<'r, 'e, R, E> {
    fn hear(&mut self, count: StreamCount) {
        self.tell_due(SoFar::Stream(count));
    }
}

/// Nobody is told.
#[derive(Drop)]
pub struct Untold;

impl Gauge for Untold {
    fn tell(&mut self, _so_far: SoFar) {}
}

/// How many files were read of those that are to be.
#[derive(Drop)]
pub struct FilesRead<'g, G: Gauge> {
    gauge: &'g mut G,
    read: usize,
    all: usize,
    bytes: u64,
}

impl<'g, G: Gauge> FilesRead<'g, G> {
    /// None of so many.
    pub fn none_of(all: usize, gauge: &'g mut G) -> FilesRead<'g, G> {
        FilesRead {
            gauge,
            read: 0,
            all,
            bytes: 0,
        }
    }

    /// Counts a file of so many bytes, and tells how many were read.
    pub fn count(&mut self, bytes: u64) {
        self.read = self.read.saturating_add(1);
        self.bytes = self.bytes.saturating_add(bytes);
        self.gauge.tell(SoFar::Files {
            read: self.read,
            all: self.all,
            bytes: self.bytes,
        });
    }
}

/// Standard output of a run, whose lines are counted.
#[derive(Drop)]
pub struct LineCounter<'o, 'g, O: ByteOut, G: Gauge> {
    out: &'o mut O,
    gauge: &'g mut G,
    lines: u64,
}

impl<'o, 'g, O: ByteOut, G: Gauge> LineCounter<'o, 'g, O, G> {
    /// No line.
    pub fn new(out: &'o mut O, gauge: &'g mut G) -> LineCounter<'o, 'g, O, G>
        ensures { result.out.now ≡ out.old }
    {
        LineCounter {
            out,
            gauge,
            lines: 0,
        }
    }
}

impl<'o, 'g, O: ByteOut, G: Gauge> ByteOut for LineCounter<'o, 'g, O, G> {
    ghost contents = { λ c. O.contents c.out.now };

    ghost failure_count = { λ c. O.failure_count c.out.now };

    fn write(&mut self, bytes: &[u8]) -> Result<usize, WriteFault> {
        let taken = self.out.write(bytes)?;
        self.lines = self.lines.saturating_add(line_ends(&bytes[..taken]));
        self.gauge.tell(SoFar::Lines(self.lines));
        Ok(taken)
    }

    fn failures(&self) -> u64 {
        self.out.failures()
    }
}
