//! The signals of a waveform: one for each field of each channel of each link.

ghost use Rattle.std.specs.Prelude.{◌<◌};

use crate::scene::{Lane, Scene};
use std::alloc::{AllocError, Global};
use tl_rows::chan_text;
use tl_tables::{Chan, Level, chan_index, rule_text};

/// A field of a channel.
#[derive(Clone, Copy, Debug, PartialEq, Eq)]
pub(crate) enum Field {
    /// Whether a beat is accepted.
    Valid,
    /// The message, by its name.
    Opcode,
    /// Its param, by its name where it has one.
    Param,
    /// The exponent of its bytes.
    Size,
    Source,
    Sink,
    Address,
    Mask,
    Denied,
    Corrupt,
}

/// All fields, in the order of a group.
pub(crate) const FIELDS: [Field; 10] = [
    Field::Valid,
    Field::Opcode,
    Field::Param,
    Field::Size,
    Field::Source,
    Field::Sink,
    Field::Address,
    Field::Mask,
    Field::Denied,
    Field::Corrupt,
];

/// All channels.
pub(crate) const CHANNELS: [Chan; 5] = [Chan::A, Chan::B, Chan::C, Chan::D, Chan::E];

/// What a signal holds.
#[derive(Clone, Copy, Debug, PartialEq, Eq)]
pub(crate) enum Kind {
    /// One bit.
    Bit,
    /// A number of so many bits.
    Number(u8),
    /// A word.
    Word,
}

impl Field {
    /// What it is called.
    pub(crate) fn name(self) -> &'static str {
        match self {
            Field::Valid => "valid",
            Field::Opcode => "opcode",
            Field::Param => "param",
            Field::Size => "size",
            Field::Source => "source",
            Field::Sink => "sink",
            Field::Address => "address",
            Field::Mask => "mask",
            Field::Denied => "denied",
            Field::Corrupt => "corrupt",
        }
    }

    /// What its signal holds.
    pub(crate) fn kind(self) -> Kind {
        match self {
            Field::Valid | Field::Denied | Field::Corrupt => Kind::Bit,
            Field::Opcode | Field::Param => Kind::Word,
            Field::Size => Kind::Number(4),
            Field::Source | Field::Sink => Kind::Number(16),
            Field::Address | Field::Mask => Kind::Number(64),
        }
    }

    /// Whether a channel has it.
    pub(crate) fn is_of(self, chan: Chan) -> bool {
        match self {
            Field::Valid | Field::Opcode => true,
            Field::Param | Field::Size | Field::Source | Field::Corrupt => chan != Chan::E,
            Field::Sink => matches!(chan, Chan::D | Chan::E),
            Field::Address => matches!(chan, Chan::A | Chan::B | Chan::C),
            Field::Mask => matches!(chan, Chan::A | Chan::B),
            Field::Denied => chan == Chan::D,
        }
    }

    /// Its place among all fields.
    fn place(self) -> usize {
        match self {
            Field::Valid => 0,
            Field::Opcode => 1,
            Field::Param => 2,
            Field::Size => 3,
            Field::Source => 4,
            Field::Sink => 5,
            Field::Address => 6,
            Field::Mask => 7,
            Field::Denied => 8,
            Field::Corrupt => 9,
        }
    }
}

/// Whether a beat that is shown is on a channel of a link.
pub(crate) fn has_beat(scene: &Scene, lane: &Lane, chan: Chan) -> bool {
    scene.shown.iter().any(|shown| shown.place.link == lane.link && shown.place.beat.chan == chan)
}

/// Whether a link has a channel: by its level, or since a beat that is shown is on it.
pub(crate) fn has_channel(scene: &Scene, lane: &Lane, chan: Chan) -> bool {
    lane.level == Level::C || matches!(chan, Chan::A | Chan::D) || has_beat(scene, lane, chan)
}

/// A field of a channel of a link.
#[derive(Clone, Copy, Debug)]
pub(crate) struct Signal {
    /// The place of the link's lane.
    pub(crate) lane: usize,
    /// The channel.
    pub(crate) chan: Chan,
    /// The field.
    pub(crate) field: Field,
}

/// How many signals come before those of links: that of the row's beat, and that of the earlier one.
const OWN_SIGNALS: usize = 2;

/// The code of the signal that is high at the row's beat, and that of the one that is high at the earlier beat.
pub(crate) const BROKEN_CODE: &str = "!";

/// That of the signal that is high at the earlier beat.
pub(crate) const EARLIER_CODE: &str = "\"";

/// How many characters a code can be made of, from `!` on.
const DIGITS: usize = 94;

/// The digit with this number below 94.
fn digit(number: usize) -> char
    requires { number < 94 }
{
    char::from(b'!' + number as u8)
}

/// The code with this number: its digits, the least first.
fn code_of(alloc: Global, number: usize) -> Result<String, AllocError> {
    let mut code = String::new(alloc);
    let mut rest = number;
    for _ in 0..10 {
        code.push(digit(rest % DIGITS))?;
        rest /= DIGITS;
        if rest == 0 {
            return Ok(code);
        }
    }
    Ok(code)
}

impl Signal {
    /// What stands for it in a dump.
    pub(crate) fn code(self, alloc: Global) -> Result<String, AllocError> {
        let group = self
            .lane
            .saturating_mul(CHANNELS.len())
            .saturating_add(chan_index(self.chan));
        let number = group
            .saturating_mul(FIELDS.len())
            .saturating_add(self.field.place());
        code_of(alloc, number.saturating_add(OWN_SIGNALS))
    }
}

/// The name of the signal that is high at the row's beat.
pub(crate) fn broken_name(alloc: Global, scene: &Scene) -> Result<String, AllocError> {
    let rule = rule_text(scene.told.row.rule);
    format!(in alloc; "breaks_{rule}")
}

/// The bits of a number's signal, as they stand after its name.
fn bits_text(alloc: Global, kind: Kind) -> Result<String, AllocError> {
    match kind {
        Kind::Number(bits) => {
            let high = bits.saturating_sub(1);
            format!(in alloc; "[{high}:0]")
        }
        Kind::Bit | Kind::Word => Ok(String::new(alloc)),
    }
}

/// The path of a signal, as a viewer has it.
pub(crate) fn path_of(
    alloc: Global,
    lane: &Lane,
    chan: Chan,
    field: Field,
) -> Result<String, AllocError> {
    let link = lane.name;
    let chan = chan_text(chan);
    let name = field.name();
    let bits = bits_text(alloc, field.kind())?;
    format!(in alloc; "tlcheck.{link}.{chan}.{name}{bits}")
}
