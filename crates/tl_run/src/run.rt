//! The run of a script.

ghost use Rattle.std.specs.Prelude.{Bool, ◌≡◌, ◌+◌, ◌<◌, ◌≤◌, ◌^◌, ℕ, List, Some, IfOk, OnOk, OnErr, length, drop, string_bytes, [], IfSome};
ghost use Rattle.std.specs.Result.{IsErrOf};
ghost use Rattle.tl_beats.specs.declared.watch.Watch.{Watch as AnyWatch};
ghost use Rattle.tl_check.specs.Notes.{Tells};
ghost use Rattle.tl_script.specs.Scripts.{commands_of};
ghost use Rattle.tl_script.specs.Text.{IsCommand};
ghost use Rattle.tl_run.specs.Boxes.{watches_in};
ghost use Rattle.tl_script.specs.Asked.{asked};
ghost use Rattle.tl_run.specs.Output.{Setting, start, whole, Steps, LacksBox};
ghost use Rattle.tl_run.specs.Stops.{SaysAs, HasRun, IsWritten, IsWrittenAs, FailsOnce, CutsAs, IsCut, IsRunCut, IsAnyCut};

use crate::lines::{LineFault, put_lines, write_end};
use crate::runner::Runner;
use crate::session::Session;
use std::alloc::Global;
use tl_monitor::Monitor;
use tl_script::{Command, Outcome, Stop, StopCause, read_command};
use tl_text::{ByteOut, WriteFault};
use tl_topology::Topo;

/// The lines of one command, before which so many bytes of the script are left, put after those that are gathered. Memory and
/// WrongBox write nothing.
pub(crate) fn run_command<S: Runner, O: ByteOut>(
    alloc: Global,
    runner: &mut S,
    command: &Command<'_>,
    left: usize,
    out: &mut O,
    gathered: &mut String,
) -> Result<(), LineFault>
    requires out { O.failure_count out.old < 2 ^ 63 }
    requires lawful { IsCommand command.now }
    ensures setting { (S.so_far runner.new).setting ≡ (S.so_far runner.old).setting }
    ensures quiet { OnOk result (O.failure_count out.new ≡ O.failure_count out.old) }
    ensures step { OnOk result (Steps S.so_far runner.old runner.new command.now
        (SaysAs S.noted O.contents out.old out.new gathered.old gathered.new)) }
    ensures memory { IsErrOf result LineFault.Memory → (out.new ≡ out.old) × (string_bytes gathered.new ≡ string_bytes gathered.old) }
    ensures lacks { IsErrOf result LineFault.WrongBox → LacksBox (S.so_far runner.old).boxes (asked command.now) × (out.new ≡ out.old) × (string_bytes gathered.new ≡ string_bytes gathered.old) }
    ensures failed { IsErrOf result LineFault.WriteFault → FailsOnce O.failure_count out.old out.new
        × Steps S.so_far runner.old runner.new command.now (CutsAs S.noted O.contents out.old out.new gathered.old) }
{
    let asked = runner.ask(alloc, command, left)?;
    let answer = runner.answer(alloc, asked)?;
    let lines = runner.text(alloc, &answer)?;
    let now = matches!(command, Command::Publish);
    put_lines(out, gathered, lines.as_str(), now)
}

/// What is left of a script.
fn behind(script: &[u8], taken: usize) -> &[u8]
    requires { taken ≤ length script.now }
    ensures { result.now ≡ drop taken script.now }
{
    &script[taken..]
}

/// How the commands of a script ended, before the rest of it.
#[derive(Drop)]
struct End<'s> {
    outcome: Outcome,
    rest: &'s [u8],
}

/// How a run ends that stops after so many commands, before the rest.
fn stopped(last_rows: u64, cause: StopCause, done: u64, rest: &[u8]) -> End<'_>
    requires { done < 2 ^ 63 }
    ensures { result.outcome ≡ record { last_rows = last_rows; stop = Some (record { cause = cause; command = done + 1 }) } }
{
    let outcome = Outcome {
        last_rows,
        stop: Some(Stop {
            cause,
            command: done + 1,
        }),
    };
    End { outcome, rest }
}

/// Runs the commands of a script up to its end or its stop.
fn run_commands<'s, S: Runner, O: ByteOut>(
    alloc: Global,
    runner: &mut S,
    script: &'s [u8],
    out: &mut O,
    gathered: &mut String,
) -> Result<End<'s>, WriteFault>
    requires out { O.failure_count out.old < 2 ^ 63 }
    requires new { (S.so_far runner.old).now ≡ start }
    requires empty { string_bytes gathered.old ≡ [] }
    ensures quiet { OnOk result (O.failure_count out.new ≡ O.failure_count out.old) }
    ensures come { IfOk result (λ end. HasRun S.noted (S.so_far runner.old) script.now (O.contents out.old) (O.contents out.new) (string_bytes gathered.new) end.outcome) }
    ensures failed { OnErr result (FailsOnce O.failure_count out.old out.new
        × IsRunCut S.noted (S.so_far runner.old) script.now O.contents out.old out.new) }
{
    let mut rest = script;
    let mut done = 0;
    loop {
        let last_rows = runner.last_rows();
        let read = match read_command(rest) {
            Ok(read) => read,
            Err(fault) => return Ok(stopped(last_rows, fault.into(), done, rest)),
        };
        let Some((command, taken)) = read else {
            let outcome = Outcome {
                last_rows,
                stop: None,
            };
            return Ok(End { outcome, rest });
        };
        match run_command(alloc, runner, &command, rest.len(), out, gathered) {
            Ok(()) => rest = behind(rest, taken),
            Err(LineFault::Memory) => return Ok(stopped(last_rows, StopCause::Memory, done, rest)),
            Err(LineFault::WrongBox) => {
                return Ok(stopped(last_rows, StopCause::WrongBox, done, rest));
            }
            Err(LineFault::WriteFault) => return Err(WriteFault),
        }
        done += 1;
    }
}

/// Notes after the line of a stop, if there is one.
pub(crate) fn last_notes<S: Runner>(
    alloc: Global,
    runner: &S,
    stop: Option<Stop>,
    rest: &[u8],
) -> String
    ensures { Tells S.noted [] (string_bytes result) }
{
    match stop {
        Some(stop) => runner.stop_notes(alloc, stop.cause, rest),
        None => String::new(alloc),
    }
}

/// Has a script carried out from its first command on, up to its end or its stop, and writes its lines as they come, those of a
/// report at once, and the line of its stop. WriteFault where a write fails; a front of the text was then written.
pub fn carry_out<S: Runner, O: ByteOut>(
    alloc: Global,
    runner: &mut S,
    script: &[u8],
    out: &mut O,
) -> Result<Outcome, WriteFault>
    requires out { O.failure_count out.old < 2 ^ 63 }
    requires new { (S.so_far runner.old).now ≡ start }
    ensures written { IfOk result (λ outcome. IsWrittenAs S.noted (S.so_far runner.old).setting script.now (S.so_far runner.old).boxes outcome (O.contents out.old) (O.contents out.new)) }
    ensures quiet { OnOk result (O.failure_count out.new ≡ O.failure_count out.old) }
    ensures failed { OnErr result (FailsOnce O.failure_count out.old out.new
        × IsRunCut S.noted (S.so_far runner.old) script.now O.contents out.old out.new) }
{
    let mut gathered = String::new(alloc);
    let End { outcome, rest } = run_commands(alloc, runner, script, out, &mut gathered)?;
    let notes = last_notes(alloc, runner, outcome.stop, rest);
    write_end(out, &mut gathered, outcome.stop, notes.as_str())?;
    Ok(outcome)
}

/// What a run writes and comes to that has no memory to begin, whatever its topology, its script and its monitors are: it stops at
/// its first command. WriteFault where a write fails.
pub fn run_nothing<O: ByteOut>(alloc: Global, out: &mut O) -> Result<Outcome, WriteFault>
    requires { O.failure_count out.old < 2 ^ 63 }
    ensures written { IfOk result (λ outcome. (noted : Bool) (setting : Setting) (script : List ℕ) (boxes : List AnyWatch)
        → IsWrittenAs noted setting script boxes outcome (O.contents out.old) (O.contents out.new)) }
    ensures quiet { OnOk result (O.failure_count out.new ≡ O.failure_count out.old) }
    ensures failed { OnErr result (FailsOnce O.failure_count out.old out.new × IsAnyCut O.contents out.old out.new) }
{
    let End { outcome, .. } = stopped(0, StopCause::Memory, 0, b"".as_slice());
    write_end(out, &mut String::new(alloc), outcome.stop, "")?;
    Ok(outcome)
}

/// Runs a script on a topology, with the monitors that its commands attach, in their order, and writes its lines as it goes, those
/// of a report at once. A run that stops writes the line of its stop, without taking memory, and nothing after it: Memory at the
/// command where memory is refused, at the first where there is none for a run; WrongBox at a command that attaches a monitor,
/// where the next one is missing or watches something else; BadCommand and Truncated at the command that they are of. At the end
/// each monitor that is still attached is closed with the number of the last edit, and all are dropped. WriteFault where a write
/// fails; a front of the text was then written.
pub fn run_script<M: Monitor, O: ByteOut>(
    alloc: Global,
    topo: &Topo,
    script: &[u8],
    boxes: Vec<M>,
    out: &mut O,
) -> Result<Outcome, WriteFault>
    requires { O.failure_count out.old < 2 ^ 63 }
    ensures written { IfOk result (λ outcome. IsWritten (whole topo.now) script.now (watches_in M.held boxes.items) outcome (O.contents out.old) (O.contents out.new)) }
    ensures quiet { OnOk result (O.failure_count out.new ≡ O.failure_count out.old) }
    ensures failed { OnErr result (FailsOnce O.failure_count out.old out.new
        × IsCut (whole topo.now) (commands_of script.now) (watches_in M.held boxes.items) (O.contents out.old) (O.contents out.new)) }
{
    let Ok(mut session) = Session::new(alloc, topo, None, boxes) else {
        return run_nothing(alloc, out);
    };
    let told = carry_out(alloc, &mut session, script, out);
    session.finish();
    told
}
