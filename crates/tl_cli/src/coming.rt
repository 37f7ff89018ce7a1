//! Runs of scripts whose commands are carried out as they come.

ghost use Rattle.std.specs.Prelude.{◌≡◌, ◌<◌, ◌^◌, [], OnOk};
ghost use Rattle.tl_run.specs.Output.{start};

use crate::monitors::Attached;
use crate::scripts::{ScriptRun, ending_told, write_settlements};
use crate::watcher::Watcher;
use std::alloc::{AllocError, Global};
use std::fs;
use std::io::Read;
use std::rt::Files;
use std::sync::{Arc, OnceLock};
use tl_beats::Watch;
use tl_check::Report;
use tl_commands::{Ending, Fault, Gauge, LineCounter, topology_of};
use tl_edits::Log;
use tl_options::How;
use tl_run::{ComingFault, Maker, Making, Showing, carry_out_coming, run_nothing};
use tl_script::{Outcome, Role};
use tl_text::{ByteIn, ByteOut, ReadFailed, TextFault};
use tl_topology::Topo;

/// An input that keeps what it gives, where that is wanted.
#[derive(Drop)]
struct Kept<'a, I: ByteIn> {
    input: &'a mut I,
    /// What it gave; None where that isn't kept, or memory was refused for it.
    text: Option<Vec<u8>>,
}

impl<'a, I: ByteIn> ByteIn for Kept<'a, I> {
    ghost remaining = { λ k. I.remaining k.input.now };

    ghost read_count = { λ k. I.read_count k.input.now };

    ghost failure_count = { λ k. I.failure_count k.input.now };

    fn read(&mut self, buffer: &mut [u8]) -> Result<usize, ReadFailed> {
        let taken = self.input.read(buffer)?;
        if let Some(text) = &mut self.text
            && text.extend_from_slice(&buffer[..taken]).is_err()
        {
            self.text = None;
        }
        Ok(taken)
    }

    fn reads(&self) -> u64 {
        self.input.reads()
    }

    fn failures(&self) -> u64 {
        self.input.failures()
    }
}

/// Makes monitors that each leave in a cell what they tell at their end.
#[derive(Drop)]
struct Watchers {
    attached: Vec<Attached>,
}

impl Maker for Watchers {
    type Made = Watcher;

    fn make(&mut self, alloc: Global, number: u32, watch: &Watch) -> Result<Watcher, AllocError> {
        let cell = Arc::new(alloc, OnceLock::new())?;
        let kept = Arc::try_clone(&cell)?;
        self.attached.push(Attached {
            number,
            watch: *watch,
            cell: kept,
        })?;
        Ok(Watcher::new(*watch, cell))
    }
}

/// The fault of a run without an outcome.
fn fault_of(fault: ComingFault) -> Fault {
    match fault {
        ComingFault::ReadFault => TextFault::ReadFault.into(),
        ComingFault::TooLong => TextFault::TooLong.into(),
        ComingFault::WriteFault => Fault::WRITE,
    }
}

/// The log by which a run on the topology is shown, if it is.
fn log_if(alloc: Global, topo: &Topo, show: bool) -> Result<Option<Log>, AllocError> {
    if show {
        Ok(Some(Log::new(alloc, topo.copy(alloc)?)?))
    } else {
        Ok(None)
    }
}

/// Carries out an input's commands on a run that makes monitors, of whatever kind, and gives the run back.
fn carried_out<K: Maker + Drop, I: ByteIn, O: ByteOut>(
    alloc: Global,
    making: Making<K>,
    log: Option<Log>,
    input: &mut I,
    out: &mut O,
) -> (Making<K>, Result<Outcome, ComingFault>)
    requires out { O.failure_count out.old < 2 ^ 63 }
    requires new { making.now ≡ start }
    requires none { making.boxes ≡ [] }
    ensures { OnOk result.1 (O.failure_count out.new ≡ O.failure_count out.old) }
{
    match log {
        Some(log) => {
            let mut showing = Showing::new(making, log);
            let told = carry_out_coming(alloc, &mut showing, input, out);
            (showing.into_runner(), told)
        }
        None => {
            let mut making = making;
            let told = carry_out_coming(alloc, &mut making, input, out);
            (making, told)
        }
    }
}

/// What a run leaves: what made its monitors, which are closed, and its last report; None where there was no memory to begin.
type Left<K> = Option<(K, Option<Report>)>;

/// The run of an input's commands with this maker.
fn outcome_of<K: Maker + Drop, I: ByteIn, O: ByteOut>(
    alloc: Global,
    topo: &Topo,
    maker: K,
    how: How,
    input: &mut I,
    out: &mut O,
) -> Result<(Outcome, Left<K>), Fault>
    requires { O.failure_count out.old < 2 ^ 63 }
    ensures { OnOk result (O.failure_count out.new ≡ O.failure_count out.old) }
{
    let Ok(log) = log_if(alloc, topo, how.show) else {
        return Ok((run_nothing(alloc, out)?, None));
    };
    let Ok(making) = Making::new(alloc, topo, how.midway, maker) else {
        return Ok((run_nothing(alloc, out)?, None));
    };
    let (making, told) = carried_out(alloc, making, log, input, out);
    let last = making.last().and_then(|report| report.copy().ok());
    let (maker, _) = making.finish();
    match told {
        Ok(outcome) => Ok((outcome, Some((maker, last)))),
        Err(fault) => Err(fault_of(fault)),
    }
}

/// Whether the text of a run is wanted at its end.
fn is_wanted(how: How) -> bool {
    how.summary || how.midway.is_some() || how.deny.refused || how.deny.empty
}

/// How many bytes of a file are looked at in one read.
const PIECE: usize = 65_536;

/// Whether a file can be read to its end, since a file's fault comes before anything is written, and is no longer than a script may be,
/// with a newline in each piece, so that none of its commands is too long to come.
fn can_come<R: Files>(rt: &R, path: &str) -> bool {
    let Ok(mut file) = fs::open(rt, path) else {
        return false;
    };
    let mut piece = [0u8; PIECE];
    let mut whole = 0u64;
    for _ in 0..=Role::Script.most() {
        let Ok(taken) = file.read(&mut piece) else {
            return false;
        };
        if taken == 0 {
            return whole <= Role::Script.most();
        }
        let read = piece.get(..taken).unwrap_or(&[]);
        if !read.contains(&b'\n') {
            return false;
        }
        whole = whole.saturating_add(taken as u64);
    }
    false
}

/// The file of a script, where its commands may be carried out as they are read, with the same lines, and the text isn't held. None for
/// a pipe, which can't be read twice, for a file that can't be read to its end or is longer than a script, and where workers read ahead
/// or the text is wanted at the end.
pub(crate) fn script_to_come<R: Files>(rt: &R, script: &str, how: How) -> Option<R::File> {
    let found = fs::metadata(rt, script).ok()?;
    if how.workers > 0 || is_wanted(how) || !found.is_file() || found.len() > Role::Script.most() {
        return None;
    }
    if can_come(rt, script) {
        fs::open(rt, script).ok()
    } else {
        None
    }
}

/// How a run ends that didn't stop, of which this text was kept.
fn ending_kept(
    alloc: Global,
    topo: &Topo,
    text: Option<&[u8]>,
    how: How,
    outcome: Outcome,
    last: Option<&Report>,
) -> Result<Ending, Fault> {
    match text {
        Some(text) => {
            let run = ScriptRun {
                topo,
                text,
                show: how.show,
                midway: how.midway,
            };
            ending_told(alloc, run, how, outcome, last)
        }
        None if how.deny.refused || how.deny.empty => Err(Fault::MEMORY),
        None => Ok(Ending::Came(outcome)),
    }
}

/// The run of an input's commands on a topology, and after a run that did not stop what each of its monitors told.
fn run_coming<I: ByteIn, O: ByteOut>(
    alloc: Global,
    topo: &Topo,
    input: &mut I,
    how: How,
    out: &mut O,
) -> Result<Ending, Fault>
    requires { O.failure_count out.old < 2 ^ 63 }
{
    let watchers = Watchers {
        attached: Vec::new(alloc),
    };
    let text = if is_wanted(how) {
        Some(Vec::new(alloc))
    } else {
        None
    };
    let mut kept = Kept { input, text };
    let (outcome, left) = outcome_of(alloc, topo, watchers, how, &mut kept, out)?;
    match left {
        Some((watchers, last)) if outcome.stop.is_none() => {
            write_settlements(alloc, &watchers.attached, out)?;
            ending_kept(
                alloc,
                topo,
                kept.text.as_deref(),
                how,
                outcome,
                last.as_ref(),
            )
        }
        _ => Ok(Ending::Came(outcome)),
    }
}

/// The run of an input's commands on a file's topology, each carried out as it comes. The gauge is told of the lines that were written.
pub(crate) fn run_of_coming<R: Files + AllocGlobal, I: ByteIn, G: Gauge, O: ByteOut>(
    rt: &R,
    topology: &str,
    input: &mut I,
    how: How,
    gauge: &mut G,
    out: &mut O,
) -> Result<Ending, Fault>
    requires { O.failure_count out.old < 2 ^ 63 }
{
    let topo = topology_of(rt, topology)?;
    let mut counted = LineCounter::new(out, gauge);
    run_coming(rt.alloc(), &topo, input, how, &mut counted)
}
