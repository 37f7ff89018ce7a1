//! The run of a script whose commands are carried out as they come.

ghost use Rattle.std.specs.Prelude.{◌≡◌, ◌+◌, ◌<◌, ◌^◌, Some, [], IfOk, IfSome, OnOk, string_bytes, false, true};
ghost use Rattle.std.specs.Result.{IsErrOf};
ghost use Rattle.tl_script.specs.Reading.{command_in};
ghost use Rattle.tl_script.specs.Text.{IsCommand};
ghost use Rattle.tl_stream.specs.Feeds.{all_left};
ghost use Rattle.tl_run.specs.Coming.{is_whole, IsPartial, IsCarriedOut, CutsOff, IsFirstOf, HasComeTo, KeepsAll, KeepsLeft, FailsMore};
ghost use Rattle.tl_run.specs.Output.{start, StepsSupplied};
ghost use Rattle.tl_run.specs.Stops.{SaysAs, FailsOnce, CutsAs};
ghost use Rattle.tl_run.specs.declared.coming.ComingFault.TheVariants.{WriteFault as Unwritten};

use crate::lines::{LineFault, write_end, write_gathered};
use crate::run::{last_notes, run_command};
use crate::runner::Runner;
use std::alloc::Global;
use thiserror::Error;
use tl_script::{Command, Outcome, ScriptFault, Stop, StopCause, read_command};
use tl_stream::Ahead;
use tl_text::{ByteIn, ByteOut, TextFault, WriteFault};

/// The most bytes of a command.
const MOST_COMMAND: usize = 16_777_216;

/// The most commands.
const MOST_COMMANDS: u64 = 1 << 61;

/// The most reads.
const MOST_READS: u64 = 1 << 61;

/// Why a run of commands as they come has no outcome.
#[derive(Clone, Copy, Debug, Drop, Error, PartialEq, Eq)]
pub enum ComingFault {
    /// A read failed.
    #[error("a read failed")]
    ReadFault,
    /// A command is longer than 16,777,216 bytes.
    #[error("a command is longer than 16777216 bytes")]
    TooLong,
    /// A write failed.
    #[error("a write failed")]
    WriteFault,
}

impl From<WriteFault> for ComingFault {
    ghost from_gives = { λ _ e. e ≡ Unwritten };

    fn from(_error: WriteFault) -> ComingFault {
        ComingFault::WriteFault
    }
}

/// Whether the first command doesn't go on in what comes.
fn is_whole(bytes: &[u8]) -> bool
    ensures { result ≡ is_whole (command_in bytes.now) }
{
    match read_command(bytes) {
        Ok(Some(_)) | Err(ScriptFault::BadCommand) => true,
        Ok(None) | Err(ScriptFault::Truncated) => false,
    }
}

/// Whether an input was read as often as is counted.
fn is_worn<I: ByteIn>(input: &I) -> bool
    ensures { result ≡ false → (I.read_count input.now < 2 ^ 63) × (I.failure_count input.now < 2 ^ 63) }
{
    input.reads() >= MOST_READS || input.failures() >= MOST_READS
}

/// Reads on until the first command is whole, or the input is at its end. TooLong where the command is longer than 16,777,216 bytes
/// and not whole, ReadFault where a read fails; what was read is then still there.
fn read_on<I: ByteIn>(ahead: &mut Ahead, input: &mut I) -> Result<(), TextFault>
    ensures kept { OnOk result (KeepsLeft I.remaining input.old input.new ahead.old ahead.new) }
    ensures first { OnOk result (IfSome (all_left ahead.new (I.remaining input.new)) (IsFirstOf ahead.new)) }
    ensures quiet { OnOk result (I.failure_count input.new ≡ I.failure_count input.old) }
    ensures unread { IsErrOf result TextFault.ReadFault → FailsOnce I.failure_count input.old input.new × IsPartial ahead.new
        × KeepsLeft I.remaining input.old input.new ahead.old ahead.new }
    ensures too_long { IsErrOf result TextFault.TooLong → IsPartial ahead.new
        × KeepsLeft I.remaining input.old input.new ahead.old ahead.new }
{
    for _ in 0..MOST_COMMAND + 2 {
        if is_whole(ahead.left()) {
            return Ok(());
        }
        if ahead.left().len() > MOST_COMMAND || is_worn(input) {
            return Err(TextFault::TooLong);
        }
        if ahead.read_more(input)? {
            return Ok(());
        }
    }
    if is_whole(ahead.left()) {
        Ok(())
    } else {
        Err(TextFault::TooLong)
    }
}

/// The lines of one command, for which its monitor is made, and which are written at once. Memory writes nothing.
fn run_at_once<S: Runner, O: ByteOut>(
    alloc: Global,
    runner: &mut S,
    command: &Command<'_>,
    left: usize,
    out: &mut O,
    gathered: &mut String,
) -> Result<(), LineFault>
    requires out { O.failure_count out.old < 2 ^ 63 }
    requires lawful { IsCommand command.now }
    requires supplies { S.supplies ≡ true }
    requires none { (S.so_far runner.old).boxes ≡ [] }
    ensures setting { (S.so_far runner.new).setting ≡ (S.so_far runner.old).setting }
    ensures none { OnOk result ((S.so_far runner.new).boxes ≡ []) }
    ensures quiet { OnOk result (O.failure_count out.new ≡ O.failure_count out.old) }
    ensures step { OnOk result (StepsSupplied S.so_far runner.old runner.new command.now
        (SaysAs S.noted O.contents out.old out.new gathered.old gathered.new)) }
    ensures written { OnOk result (string_bytes gathered.new ≡ []) }
    ensures memory { IsErrOf result LineFault.Memory → (out.new ≡ out.old) × (string_bytes gathered.new ≡ string_bytes gathered.old) }
    ensures boxes { IsErrOf result LineFault.WrongBox → ⊥ }
    ensures failed { IsErrOf result LineFault.WriteFault → FailsOnce O.failure_count out.old out.new
        × StepsSupplied S.so_far runner.old runner.new command.now (CutsAs S.noted O.contents out.old out.new gathered.old) }
{
    runner.supply(alloc, command)?;
    run_command(alloc, runner, command, left, out, gathered)?;
    write_gathered(out, gathered)?;
    Ok(())
}

/// How a run ends that stops after so many commands.
fn stopped(last_rows: u64, cause: StopCause, done: u64) -> Outcome
    requires { done < 2 ^ 63 }
    ensures { result ≡ record { last_rows = last_rows; stop = Some (record { cause = cause; command = done + 1 }) } }
{
    Outcome {
        last_rows,
        stop: Some(Stop {
            cause,
            command: done + 1,
        }),
    }
}

/// Runs commands as they come, up to the end of the input or to a stop.
fn run_coming<S: Runner, I: ByteIn, O: ByteOut>(
    alloc: Global,
    runner: &mut S,
    input: &mut I,
    out: &mut O,
    ahead: &mut Ahead,
    gathered: &mut String,
) -> Result<Outcome, ComingFault>
    requires out { O.failure_count out.old < 2 ^ 63 }
    requires new { (S.so_far runner.old).now ≡ start }
    requires supplies { S.supplies ≡ true }
    requires none { (S.so_far runner.old).boxes ≡ [] }
    requires unread { ahead.old ≡ [] }
    requires empty { string_bytes gathered.old ≡ [] }
    ensures quiet { OnOk result (O.failure_count out.new ≡ O.failure_count out.old) }
    ensures come { IfOk result (λ outcome. IfSome (I.remaining input.old)
        (HasComeTo S.noted (S.so_far runner.old).setting (O.contents out.old) (O.contents out.new) (string_bytes gathered.new) outcome)) }
    ensures failed { IsErrOf result ComingFault.WriteFault → FailsOnce O.failure_count out.old out.new
        × CutsOff S.noted (S.so_far runner.old) (I.remaining input.old) O.contents out.old out.new }
    ensures unread { IsErrOf result ComingFault.ReadFault → FailsMore I.failure_count input.old input.new
        × KeepsAll S.noted (S.so_far runner.old) I.remaining input.old input.new O.contents out.old out.new }
    ensures too_long { IsErrOf result ComingFault.TooLong
        → KeepsAll S.noted (S.so_far runner.old) I.remaining input.old input.new O.contents out.old out.new }
{
    for done in 0..MOST_COMMANDS {
        let last_rows = runner.last_rows();
        match read_on(ahead, input) {
            Ok(()) => {}
            Err(TextFault::Memory) => return Ok(stopped(last_rows, StopCause::Memory, done)),
            Err(TextFault::ReadFault) => return Err(ComingFault::ReadFault),
            Err(TextFault::TooLong) => return Err(ComingFault::TooLong),
        }
        let left = ahead.left();
        let read = match read_command(left) {
            Ok(read) => read,
            Err(fault) => return Ok(stopped(last_rows, fault.into(), done)),
        };
        let Some((command, taken)) = read else {
            return Ok(Outcome {
                last_rows,
                stop: None,
            });
        };
        match run_at_once(alloc, runner, &command, left.len(), out, gathered) {
            Ok(()) => ahead.pass(taken),
            Err(LineFault::Memory) => return Ok(stopped(last_rows, StopCause::Memory, done)),
            Err(LineFault::WrongBox) => unreachable!(),
            Err(LineFault::WriteFault) => return Err(ComingFault::WriteFault),
        }
    }
    Ok(stopped(runner.last_rows(), StopCause::Memory, MOST_COMMANDS))
}

/// Has the commands of an input carried out as they come, up to its end or their stop: it reads until the first of what is left is
/// whole, makes the monitor that this attaches, and writes its lines before it reads on; at the end the line of the stop. What it
/// writes is what `carry_out` writes of the whole input as one script, with a monitor for each that is attached; but it stops for
/// want of memory where what was read finds none, or after 2^61 commands. ReadFault where a read fails, and TooLong where a command
/// is longer than 16,777,216 bytes: the lines of all commands that were read whole are then written. WriteFault where a write fails;
/// a front of the text was then written.
pub fn carry_out_coming<S: Runner, I: ByteIn, O: ByteOut>(
    alloc: Global,
    runner: &mut S,
    input: &mut I,
    out: &mut O,
) -> Result<Outcome, ComingFault>
    requires out { O.failure_count out.old < 2 ^ 63 }
    requires new { (S.so_far runner.old).now ≡ start }
    requires supplies { S.supplies ≡ true }
    requires none { (S.so_far runner.old).boxes ≡ [] }
    ensures written { IfOk result (λ outcome. IfSome (I.remaining input.old)
        (IsCarriedOut S.noted (S.so_far runner.old).setting outcome (O.contents out.old) (O.contents out.new))) }
    ensures quiet { OnOk result (O.failure_count out.new ≡ O.failure_count out.old) }
    ensures failed { IsErrOf result ComingFault.WriteFault → FailsOnce O.failure_count out.old out.new
        × CutsOff S.noted (S.so_far runner.old) (I.remaining input.old) O.contents out.old out.new }

    // The lines of all commands that were read whole are written.
    ensures unread { IsErrOf result ComingFault.ReadFault → FailsMore I.failure_count input.old input.new
        × KeepsAll S.noted (S.so_far runner.old) I.remaining input.old input.new O.contents out.old out.new }
    ensures too_long { IsErrOf result ComingFault.TooLong
        → KeepsAll S.noted (S.so_far runner.old) I.remaining input.old input.new O.contents out.old out.new }
{
    let mut ahead = Ahead::new(alloc);
    let mut gathered = String::new(alloc);
    let outcome = run_coming(alloc, runner, input, out, &mut ahead, &mut gathered)?;
    let notes = last_notes(alloc, runner, outcome.stop, ahead.left());
    write_end(out, &mut gathered, outcome.stop, notes.as_str())?;
    Ok(outcome)
}
