//! The text of a fragment, written.

ghost use Rattle.std.specs.Prelude.{◌≡◌, ◌+◌, ◌<◌, ◌^◌, ◌∷◌, [], codes, IfErr, OnOk, map};
ghost use Rattle.std.specs.List.{flat_map};
ghost use Rattle.std.specs.Result.{IsErrOf};
ghost use Rattle.std.specs.Io.KnownBytes.{Appends};
ghost use Rattle.tl_text.specs.Written.{Writes};
ghost use Rattle.tl_text.specs.Numbers.{numeral};
ghost use Rattle.tl_text.specs.Words.{◌␣◌, ended};
ghost use Rattle.tl_beats.specs.Text.{fields_text, beat_text, header_text, fragment_text, IsFront};

use crate::Beat;
use crate::fault::FragmentFault;
use crate::fragment::Fragment;
use tl_tables::Chan;
use tl_text::{ByteOut, Word, WriteFault, write_all, write_words};

fn write_header<O: ByteOut>(fragment: &Fragment, out: &mut O) -> Result<(), WriteFault>
    requires { O.failure_count out.old < 2 ^ 63 }
    ensures { Writes (ended (header_text fragment.now)) (O.contents out.old) (O.contents out.new) (O.failure_count out.old) (O.failure_count out.new) result }
{
    write_all(out, b"fragment ")?;
    write_all(out, fragment.link.as_bytes())?;
    write_all(out, b" ")?;
    let number = Word::Decimal(u64::from(fragment.number));
    write_words(
        out,
        &[
            number,
            Word::Decimal(fragment.first),
            Word::Decimal(fragment.last),
        ],
    )
}

/// The line of a beat of channel A or B, whose letter is given.
fn write_access<O: ByteOut>(letter: u8, beat: &Beat, out: &mut O) -> Result<(), WriteFault>
    requires { O.failure_count out.old < 2 ^ 63 }
    ensures { Writes (ended (numeral 10 beat.now.cycle ␣ letter ∷ [] ␣ fields_text Chan.A beat.now)) (O.contents out.old) (O.contents out.new) (O.failure_count out.old) (O.failure_count out.new) result }
{
    write_words(
        out,
        &[
            Word::Decimal(beat.cycle),
            Word::Letter(letter),
            Word::Decimal(u64::from(beat.opcode)),
            Word::Decimal(u64::from(beat.param)),
            Word::Decimal(u64::from(beat.size)),
            Word::Decimal(u64::from(beat.source)),
            Word::Hexadecimal(beat.address),
            Word::Hexadecimal(beat.mask),
            Word::Bit(beat.corrupt),
        ],
    )
}

/// The line of a beat of channel C.
fn write_release<O: ByteOut>(beat: &Beat, out: &mut O) -> Result<(), WriteFault>
    requires { O.failure_count out.old < 2 ^ 63 }
    ensures { Writes (ended (numeral 10 beat.now.cycle ␣ codes "C" ␣ fields_text Chan.C beat.now)) (O.contents out.old) (O.contents out.new) (O.failure_count out.old) (O.failure_count out.new) result }
{
    write_words(
        out,
        &[
            Word::Decimal(beat.cycle),
            Word::Letter(b'C'),
            Word::Decimal(u64::from(beat.opcode)),
            Word::Decimal(u64::from(beat.param)),
            Word::Decimal(u64::from(beat.size)),
            Word::Decimal(u64::from(beat.source)),
            Word::Hexadecimal(beat.address),
            Word::Bit(beat.corrupt),
        ],
    )
}

/// The line of a beat of channel D.
fn write_reply<O: ByteOut>(beat: &Beat, out: &mut O) -> Result<(), WriteFault>
    requires { O.failure_count out.old < 2 ^ 63 }
    ensures { Writes (ended (numeral 10 beat.now.cycle ␣ codes "D" ␣ fields_text Chan.D beat.now)) (O.contents out.old) (O.contents out.new) (O.failure_count out.old) (O.failure_count out.new) result }
{
    write_words(
        out,
        &[
            Word::Decimal(beat.cycle),
            Word::Letter(b'D'),
            Word::Decimal(u64::from(beat.opcode)),
            Word::Decimal(u64::from(beat.param)),
            Word::Decimal(u64::from(beat.size)),
            Word::Decimal(u64::from(beat.source)),
            Word::Decimal(u64::from(beat.sink)),
            Word::Bit(beat.denied),
            Word::Bit(beat.corrupt),
        ],
    )
}

/// The line of a beat of channel E.
fn write_grant_ack<O: ByteOut>(beat: &Beat, out: &mut O) -> Result<(), WriteFault>
    requires { O.failure_count out.old < 2 ^ 63 }
    ensures { Writes (ended (numeral 10 beat.now.cycle ␣ codes "E" ␣ fields_text Chan.E beat.now)) (O.contents out.old) (O.contents out.new) (O.failure_count out.old) (O.failure_count out.new) result }
{
    write_words(
        out,
        &[
            Word::Decimal(beat.cycle),
            Word::Letter(b'E'),
            Word::Decimal(u64::from(beat.sink)),
        ],
    )
}

#[tactic(auto, unfolding(crate::specs::Text::beat_text))]
fn write_beat<O: ByteOut>(beat: &Beat, out: &mut O) -> Result<(), WriteFault>
    requires { O.failure_count out.old < 2 ^ 63 }
    ensures { Writes (ended (beat_text beat.now)) (O.contents out.old) (O.contents out.new) (O.failure_count out.old) (O.failure_count out.new) result }
{
    match beat.chan {
        Chan::A => write_access(b'A', beat, out),
        Chan::B => write_access(b'B', beat, out),
        Chan::C => write_release(beat, out),
        Chan::D => write_reply(beat, out),
        Chan::E => write_grant_ack(beat, out),
    }
}

fn write_beats<O: ByteOut>(beats: &[Beat], out: &mut O) -> Result<(), WriteFault>
    requires { O.failure_count out.old < 2 ^ 63 }
    ensures { Writes (flat_map ended (map beat_text beats.now)) (O.contents out.old) (O.contents out.new) (O.failure_count out.old) (O.failure_count out.new) result }
{
    for beat in beats {
        write_beat(beat, out)?;
    }
    Ok(())
}

fn write_text<O: ByteOut>(fragment: &Fragment, out: &mut O) -> Result<(), WriteFault>
    requires { O.failure_count out.old < 2 ^ 63 }
    ensures { Writes (fragment_text fragment.now) (O.contents out.old) (O.contents out.new) (O.failure_count out.old) (O.failure_count out.new) result }
{
    write_header(fragment, out)?;
    write_beats(fragment.beats(), out)?;
    write_all(out, b"end\n")
}

/// Writes the text of the fragment and nothing else, without taking memory. WriteFault, its only fault, at the first write
/// that fails: a front of the text has then been written.
pub fn write_fragment<O: ByteOut>(fragment: &Fragment, out: &mut O) -> Result<(), FragmentFault>
    requires { O.failure_count out.old < 2 ^ 63 }
    ensures wrote { OnOk result (Appends (O.contents out.old) (O.contents out.new) (fragment_text fragment.now)) }
    ensures quiet { OnOk result (O.failure_count out.new ≡ O.failure_count out.old) }
    ensures failed { IsErrOf result FragmentFault.WriteFault → (O.failure_count out.new ≡ O.failure_count out.old + 1)
        × IsFront (O.contents out.old) (O.contents out.new) (fragment_text fragment.now) }
    ensures fault { IfErr result (λ e. e ≡ FragmentFault.WriteFault) }
{
    write_text(fragment, out)?;
    Ok(())
}
