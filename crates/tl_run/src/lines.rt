//! Lines on their way out, gathered so that a write has many of them.

ghost use Rattle.std.specs.Prelude.{◌≡◌, ◌<◌, ◌^◌, ◌++◌, [], OnOk, OnErr, length, string_bytes};
ghost use Rattle.std.specs.Io.KnownBytes.{Appends};
ghost use Rattle.tl_text.specs.Written.{Writes};
ghost use Rattle.std.specs.Result.{IsErrOf};
ghost use Rattle.tl_run.specs.Stops.{IsSaid, ForSaid, IsFront, FailsOnce, of_command, stop_front, stop_text, last_text};
ghost use Rattle.tl_run.specs.declared.lines.LineFault.TheVariants.{Memory, WriteFault as Unwritten};

use crate::session::CommandFault;
use std::alloc::AllocError;
use tl_script::{Stop, StopCause};
use tl_text::{ByteOut, Word, WriteFault, write_all, write_words};

/// The most bytes that are gathered before they are written, but for one line.
const MOST_GATHERED: usize = 65_536;

/// Why a line did not come through.
#[derive(Clone, Copy)]
pub enum LineFault {
    /// A growth was refused.
    Memory,
    /// A write failed.
    WriteFault,
    /// The next monitor is missing, or has another watch.
    WrongBox,
}

impl From<AllocError> for LineFault {
    ghost from_gives = { λ _ e. e ≡ Memory };

    fn from(_error: AllocError) -> LineFault {
        LineFault::Memory
    }
}

impl From<CommandFault> for LineFault {
    ghost from_gives = { λ found fault. fault ≡ of_command found };

    fn from(found: CommandFault) -> LineFault {
        match found {
            CommandFault::WrongBox => LineFault::WrongBox,
            CommandFault::Memory => LineFault::Memory,
        }
    }
}

impl From<WriteFault> for LineFault {
    ghost from_gives = { λ _ e. e ≡ Unwritten };

    fn from(_error: WriteFault) -> LineFault {
        LineFault::WriteFault
    }
}

/// Writes what was gathered.
pub(crate) fn write_gathered<O: ByteOut>(
    out: &mut O,
    gathered: &mut String,
) -> Result<(), WriteFault>
    requires { O.failure_count out.old < 2 ^ 63 }
    ensures quiet { OnOk result (O.failure_count out.new ≡ O.failure_count out.old) }
    ensures empty { OnOk result (string_bytes gathered.new ≡ []) }
    ensures said { OnOk result (ForSaid O.contents out.old gathered.old (λ old lines. IsSaid old (O.contents out.new) (string_bytes gathered.new) lines)) }
    ensures failed { OnErr result (FailsOnce O.failure_count out.old out.new
        × ForSaid O.contents out.old gathered.old (λ old lines. IsFront old (O.contents out.new) lines)) }
{
    write_all(out, gathered.as_bytes())?;
    gathered.clear();
    Ok(())
}

/// Adds lines to those that are gathered, and writes all where they must go out now, or are many. Memory changes nothing.
pub fn put_lines<O: ByteOut>(
    out: &mut O,
    gathered: &mut String,
    lines: &str,
    now: bool,
) -> Result<(), LineFault>
    requires { O.failure_count out.old < 2 ^ 63 }
    ensures quiet { OnOk result (O.failure_count out.new ≡ O.failure_count out.old) }
    ensures said { OnOk result (ForSaid O.contents out.old gathered.old
        (λ old before. IsSaid old (O.contents out.new) (string_bytes gathered.new) (before ++ lines.now))) }
    ensures boxes { IsErrOf result LineFault.WrongBox → ⊥ }
    ensures memory { IsErrOf result LineFault.Memory → (out.new ≡ out.old) × (string_bytes gathered.new ≡ string_bytes gathered.old) }
    ensures failed { IsErrOf result LineFault.WriteFault → FailsOnce O.failure_count out.old out.new
        × ForSaid O.contents out.old gathered.old (λ old before. IsFront old (O.contents out.new) (before ++ lines.now)) }
{
    gathered.push_str(lines)?;
    if now || gathered.len() > MOST_GATHERED {
        write_gathered(out, gathered)?;
    }
    Ok(())
}

/// The first words of the line of a stop.
fn front_of(cause: StopCause) -> &'static [u8]
    ensures { result.now ≡ stop_front cause }
{
    match cause {
        StopCause::Memory => b"stopped 20 at ".as_slice(),
        StopCause::BadCommand => b"stopped 41 at ".as_slice(),
        StopCause::Truncated => b"stopped 42 at ".as_slice(),
        StopCause::WrongBox => b"stopped 36 at ".as_slice(),
    }
}

/// Writes the line of a stop, without taking memory.
fn write_stop<O: ByteOut>(out: &mut O, stop: Stop) -> Result<(), WriteFault>
    requires { O.failure_count out.old < 2 ^ 63 }
    ensures { Writes (stop_text stop) (O.contents out.old) (O.contents out.new) (O.failure_count out.old) (O.failure_count out.new) result }
{
    write_all(out, front_of(stop.cause))?;
    write_words(out, &[Word::Decimal(stop.command)])
}

/// Writes notes.
fn write_notes<O: ByteOut>(out: &mut O, notes: &str) -> Result<(), WriteFault>
    requires { O.failure_count out.old < 2 ^ 63 }
    ensures { Writes notes.now (O.contents out.old) (O.contents out.new) (O.failure_count out.old) (O.failure_count out.new) result }
{
    write_all(out, notes.as_bytes())
}

/// Writes the line of a stop, if there is one, and the notes after it.
fn write_last<O: ByteOut>(out: &mut O, stop: Option<Stop>, notes: &str) -> Result<(), WriteFault>
    requires { O.failure_count out.old < 2 ^ 63 }
    ensures { Writes (last_text stop ++ notes.now) (O.contents out.old) (O.contents out.new) (O.failure_count out.old) (O.failure_count out.new) result }
{
    match stop {
        Some(stop) => {
            write_stop(out, stop)?;
            write_notes(out, notes)
        }
        None => write_notes(out, notes),
    }
}

/// Writes what was gathered, the line of a stop, and what follows that.
pub fn write_end<O: ByteOut>(
    out: &mut O,
    gathered: &mut String,
    stop: Option<Stop>,
    notes: &str,
) -> Result<(), WriteFault>
    requires { O.failure_count out.old < 2 ^ 63 }
    ensures quiet { OnOk result (O.failure_count out.new ≡ O.failure_count out.old) }
    ensures said { OnOk result (ForSaid O.contents out.old gathered.old
        (λ old lines. Appends old (O.contents out.new) (lines ++ (last_text stop ++ notes.now)))) }
    ensures failed { OnErr result (FailsOnce O.failure_count out.old out.new
        × ForSaid O.contents out.old gathered.old (λ old lines. IsFront old (O.contents out.new) (lines ++ (last_text stop ++ notes.now)))) }
{
    write_gathered(out, gathered)?;
    write_last(out, stop, notes)
}
