//! Runs of scripts, with the monitors that they attach.

ghost use Rattle.std.specs.Prelude.{◌≡◌, ◌<◌, ◌≤◌, ◌^◌, OnOk};

use crate::monitors::{Attached, attached_in, settlement_lines};
use std::alloc::Global;
use std::rt::Files;
use std::sync::{Arc, Wait};
use std::thread::Threads;
use tl_advice::run_summary;
use tl_beats::Watch;
use tl_check::Report;
use tl_commands::{
    Ending, Fault, Gauge, LineCounter, denial_of_run, edits_in, ending_of, midway_notes, script_of,
    topology_of,
};
use tl_midway::Midway;
use tl_monitor::{After, Budget, Monitor};
use tl_options::How;
use tl_script::{AuditFault, Outcome};
use tl_text::{ByteOut, WriteFault, write_all};
use tl_topology::{Topo, read_topo};
use tl_workers::{Script, run_with, show_with};

/// A script that is run.
#[derive(Clone, Copy)]
pub(crate) struct ScriptRun<'a> {
    /// The topology that it runs on.
    pub(crate) topo: &'a Topo,
    /// The script's text.
    pub(crate) text: &'a [u8],
    /// Whether its reports are shown.
    pub(crate) show: bool,
    /// By which law rows stand, where its capture begins in the middle of a run.
    pub(crate) midway: Option<Midway>,
}

/// The run of a script with these monitors, of whatever kind: a script of boxes is not seen through by the borrow checker. Leaves
/// its last report.
fn outcome_of<R: Threads + Wait + Sync + AllocGlobal, M: Monitor + Send, O: ByteOut>(
    rt: &R,
    run: ScriptRun<'_>,
    boxes: Vec<M>,
    workers: u8,
    last: &mut Option<Report>,
    out: &mut O,
) -> Result<Outcome, WriteFault>
    requires workers { workers ≤ 16 }
    requires out { O.failure_count out.old < 2 ^ 63 }
    ensures { OnOk result (O.failure_count out.new ≡ O.failure_count out.old) }
{
    let script = Script::new(run.topo, run.text, boxes).beginning(run.midway);
    if run.show {
        show_with(rt, rt.alloc(), script, out, workers, last)
    } else {
        run_with(rt, rt.alloc(), script, out, workers, last)
    }
}

/// The run of a script with the monitors that it attaches, which leave in their cells what they tell at their end.
fn run_boxed<R: Threads + Wait + Sync + AllocGlobal, O: ByteOut>(
    rt: &R,
    run: ScriptRun<'_>,
    attached: &[Attached],
    workers: u8,
    last: &mut Option<Report>,
    out: &mut O,
) -> Result<Outcome, Fault>
    requires workers { workers ≤ 16 }
    requires out { O.failure_count out.old < 2 ^ 63 }
    ensures { OnOk result (O.failure_count out.new ≡ O.failure_count out.old) }
{
    let alloc = rt.alloc();
    let mut boxes: Vec<Box<dyn Monitor + Send>> = Vec::new(alloc);
    for monitor in attached {
        let cell = Arc::try_clone(&monitor.cell)?;
        let boxed: Box<dyn Monitor + Send> = match monitor.watch {
            Watch::Budget { link, class, limit } => {
                Box::new(alloc, Budget::new(link, class, limit, cell))?
            }
            Watch::After {
                link,
                first,
                second,
            } => Box::new(alloc, After::new(link, first, second, cell))?,
        };
        boxes.push(boxed)?;
    }
    Ok(outcome_of(rt, run, boxes, workers, last, out)?)
}

/// Writes what these monitors told at their end, a line each.
pub(crate) fn write_settlements<O: ByteOut>(
    alloc: Global,
    attached: &[Attached],
    out: &mut O,
) -> Result<(), Fault>
    requires { O.failure_count out.old < 2 ^ 63 }
{
    let lines = settlement_lines(alloc, attached)?;
    write_all(out, lines.as_bytes())?;
    Ok(())
}

/// The run of a script with the monitors that it attaches, and after a run that did not stop what each of them told.
fn run_attached<R: Threads + Wait + Sync + AllocGlobal, O: ByteOut>(
    rt: &R,
    run: ScriptRun<'_>,
    attached: &[Attached],
    workers: u8,
    last: &mut Option<Report>,
    out: &mut O,
) -> Result<Outcome, Fault>
    requires workers { workers ≤ 16 }
    requires out { O.failure_count out.old < 2 ^ 63 }
{
    let outcome = run_boxed(rt, run, attached, workers, last, out)?;
    if outcome.stop.is_none() {
        write_settlements(rt.alloc(), attached, out)?;
    }
    Ok(outcome)
}

/// The run of a script, for which it makes the monitors that it attaches. So many workers check windows beside it. Leaves its last
/// report.
fn run_of_script<R: Threads + Wait + Sync + AllocGlobal, O: ByteOut>(
    rt: &R,
    run: ScriptRun<'_>,
    workers: u8,
    last: &mut Option<Report>,
    out: &mut O,
) -> Result<Outcome, Fault>
    requires workers { workers ≤ 16 }
    requires out { O.failure_count out.old < 2 ^ 63 }
{
    let attached = attached_in(rt.alloc(), run.text)?;
    run_attached(rt, run, &attached, workers, last, out)
}

/// What is told at the end of a run that does not stop: its summary, and what rows rest on where its capture begins in the middle of
/// a run, each where it is told.
fn closing(
    alloc: Global,
    run: ScriptRun<'_>,
    how: How,
    last: Option<&Report>,
) -> Result<String, AuditFault> {
    let mut text = match run.midway {
        Some(law) => midway_notes(alloc, run.topo, run.text, last, law, how)?,
        None => String::new(alloc),
    };
    if how.summary {
        let told = run_summary(alloc, run.topo, run.text, edits_in(run.text), last)?;
        text.push_str(&told)?;
    }
    Ok(text)
}

/// What is told at the end of a run that does not stop, if something is; None where memory is refused.
fn closing_of(
    alloc: Global,
    run: ScriptRun<'_>,
    how: How,
    last: Option<&Report>,
) -> Option<String> {
    match closing(alloc, run, how, last) {
        Ok(text) if !text.is_empty() => Some(text),
        _ => None,
    }
}

/// How the run of a script ends that came to this, with this last report: denied or not, and with what is told at its end.
pub(crate) fn ending_told(
    alloc: Global,
    run: ScriptRun<'_>,
    how: How,
    outcome: Outcome,
    last: Option<&Report>,
) -> Result<Ending, Fault> {
    if outcome.stop.is_some() {
        return Ok(Ending::Came(outcome));
    }
    let denial = denial_of_run(how.deny, alloc, run.topo, run.text)?;
    match closing_of(alloc, run, how, last) {
        Some(text) => Ok(Ending::Summed(outcome, denial, text)),
        None => Ok(ending_of(outcome, denial)),
    }
}

/// The most threads that check windows beside the first.
const MOST_WORKERS: u8 = 16;

/// The run of a script that is denied or not.
fn run_denied<R: Threads + Wait + Sync + AllocGlobal, O: ByteOut>(
    rt: &R,
    run: ScriptRun<'_>,
    how: How,
    out: &mut O,
) -> Result<Ending, Fault>
    requires out { O.failure_count out.old < 2 ^ 63 }
{
    let mut last = None;
    let workers = how.workers.min(MOST_WORKERS);
    let outcome = run_of_script(rt, run, workers, &mut last, out)?;
    ending_told(rt.alloc(), run, how, outcome, last.as_ref())
}

/// The run of a file's script on a topology.
fn run_on<R: Files + Threads + Wait + Sync + AllocGlobal, O: ByteOut>(
    rt: &R,
    topo: &Topo,
    script: &str,
    how: How,
    out: &mut O,
) -> Result<Ending, Fault>
    requires out { O.failure_count out.old < 2 ^ 63 }
{
    let text = script_of(rt, script)?;
    let run = ScriptRun {
        topo,
        text: &text,
        show: how.show,
        midway: how.midway,
    };
    run_denied(rt, run, how, out)
}

/// The run of a file's script on a file's topology. The gauge is told of the lines that were written.
pub(crate) fn run_of_files<R: Files + Threads + Wait + Sync + AllocGlobal, G: Gauge, O: ByteOut>(
    rt: &R,
    topology: &str,
    script: &str,
    how: How,
    gauge: &mut G,
    out: &mut O,
) -> Result<Ending, Fault>
    requires out { O.failure_count out.old < 2 ^ 63 }
{
    let topo = topology_of(rt, topology)?;
    let mut counted = LineCounter::new(out, gauge);
    run_on(rt, &topo, script, how, &mut counted)
}

/// The run of a script after its topology's text.
pub(crate) fn run_of_input<R: Threads + Wait + Sync + AllocGlobal, O: ByteOut>(
    rt: &R,
    text: &[u8],
    out: &mut O,
) -> Result<Outcome, Fault>
    requires { O.failure_count out.old < 2 ^ 63 }
{
    let (topo, used) = read_topo(rt.alloc(), text)?;
    let run = ScriptRun {
        topo: &topo,
        text: &text[used..],
        show: false,
        midway: None,
    };
    let mut last = None;
    run_of_script(rt, run, 0, &mut last, out)
}
