//! One beat line at the front of a text.

ghost use Rattle.std.specs.Prelude.{◌≡◌, ◌≤◌, [], ◌∷◌, ◌++◌, Some, IfSome};
ghost use Rattle.tl_text.specs.Words.{◌␣◌, ended};
ghost use Rattle.tl_text.specs.Names.{bit};
ghost use Rattle.tl_text.specs.Numbers.{numeral};
ghost use Rattle.tl_tables.specs.declared.Chan.TheVariants.{A, C, D, E};
ghost use Rattle.tl_beats.specs.Beats.{IsWellFormed, HasMask};
ghost use Rattle.tl_beats.specs.Text.{chan_text, fields_text, beat_text};
ghost use Rattle.tl_beats.specs.Fronts.{after_cycle, beat_line_at, IsFrontLine};

use crate::Beat;
use crate::front_number::{decimal_digit, decimal_front, hexadecimal_front, mask_front};
use crate::front_words::{long_decimal_front, rest_of};
use tl_tables::Chan;

const LAST_CODE: u8 = 7;

/// A size of two digits is passed on.
const LAST_DIGIT: u8 = 9;

const LAST_SOURCE: u64 = 65_535;

/// A message of at most 2 to this power bytes has one beat on links of 8 bytes, so the next line is not compared with its.
const ONE_BEAT: u8 = 3;

/// What a beat of channels A to D begins with.
#[derive(Clone, Copy)]
struct Opening {
    opcode: u8,
    param: u8,
    size: u8,
    source: u16,
}

/// A source or a sink, and what stands after the stop.
#[inline(always)]
fn number_front(words: &[u8], stop: u8) -> Option<(u16, &[u8])>
    ensures { IfSome result (λ x. words.now ≡ numeral 10 x.0 ++ stop ∷ x.1.now) }
{
    let (number, words) = decimal_front(words, stop)?;
    if number <= LAST_SOURCE {
        Some((number as u16, words))
    } else {
        None
    }
}

/// A bit, and what stands after the stop.
#[inline(always)]
fn bit_front(words: &[u8], stop: u8) -> Option<(bool, &[u8])>
    ensures { IfSome result (λ x. words.now ≡ bit x.0 ++ stop ∷ x.1.now) }
{
    match words {
        [digit, end, rest @ ..] if *end == stop && *digit & !1 == b'0' => {
            Some((*digit == b'1', rest))
        }
        _ => None,
    }
}

/// Opcode, param and size, a digit each, and the source; and the words after them.
#[inline(always)]
fn opening_front(words: &[u8]) -> Option<(Opening, &[u8])>
    ensures opcode { IfSome result (λ x. x.0.opcode ≤ 7) }
    ensures param { IfSome result (λ x. x.0.param ≤ 7) }
    ensures size { IfSome result (λ x. x.0.size ≤ 15) }
    ensures spelled { IfSome result (λ x. words.now ≡ numeral 10 x.0.opcode ␣ numeral 10 x.0.param ␣ numeral 10 x.0.size ␣ numeral 10 x.0.source ␣ x.1.now) }
{
    let [opcode, b' ', param, b' ', size, b' ', words @ ..] = words else {
        return None;
    };
    let opcode = decimal_digit(*opcode);
    let param = decimal_digit(*param);
    let size = decimal_digit(*size);
    if opcode > LAST_CODE || param > LAST_CODE || size > LAST_DIGIT {
        return None;
    }
    let (source, words) = number_front(words, b' ')?;
    let opening = Opening {
        opcode,
        param,
        size,
        source,
    };
    Some((opening, words))
}

/// The beat of channel A or B that the words after the channel spell, and what stands after their newline.
#[inline(always)]
fn access_front(chan: Chan, cycle: u64, words: &[u8]) -> Option<(Beat, &[u8])>
    requires { HasMask chan }
    ensures formed { IfSome result (λ x. IsWellFormed x.0) }
    ensures chan { IfSome result (λ x. x.0.chan ≡ chan) }
    ensures cycle { IfSome result (λ x. x.0.cycle ≡ cycle) }
    ensures spelled { IfSome result (λ x. words.now ≡ fields_text A x.0 ++ 10 ∷ x.1.now) }
{
    let (opening, words) = opening_front(words)?;
    let (address, words) = hexadecimal_front(words)?;
    let (mask, words) = mask_front(words)?;
    let (corrupt, rest) = bit_front(words, b'\n')?;
    let beat = Beat {
        cycle,
        chan,
        opcode: opening.opcode,
        param: opening.param,
        size: opening.size,
        source: opening.source,
        sink: 0,
        address,
        mask,
        denied: false,
        corrupt,
    };
    Some((beat, rest))
}

/// The beat of channel C that the words after the channel spell, and what stands after their newline.
#[inline(always)]
fn release_front(cycle: u64, words: &[u8]) -> Option<(Beat, &[u8])>
    ensures formed { IfSome result (λ x. IsWellFormed x.0) }
    ensures chan { IfSome result (λ x. x.0.chan ≡ C) }
    ensures cycle { IfSome result (λ x. x.0.cycle ≡ cycle) }
    ensures spelled { IfSome result (λ x. words.now ≡ fields_text C x.0 ++ 10 ∷ x.1.now) }
{
    let (opening, words) = opening_front(words)?;
    let (address, words) = hexadecimal_front(words)?;
    let (corrupt, rest) = bit_front(words, b'\n')?;
    let beat = Beat {
        cycle,
        chan: Chan::C,
        opcode: opening.opcode,
        param: opening.param,
        size: opening.size,
        source: opening.source,
        sink: 0,
        address,
        mask: 0,
        denied: false,
        corrupt,
    };
    Some((beat, rest))
}

/// The beat of channel D that the words after the channel spell, and what stands after their newline.
#[inline(always)]
fn reply_front(cycle: u64, words: &[u8]) -> Option<(Beat, &[u8])>
    ensures formed { IfSome result (λ x. IsWellFormed x.0) }
    ensures chan { IfSome result (λ x. x.0.chan ≡ D) }
    ensures cycle { IfSome result (λ x. x.0.cycle ≡ cycle) }
    ensures spelled { IfSome result (λ x. words.now ≡ fields_text D x.0 ++ 10 ∷ x.1.now) }
{
    let (opening, words) = opening_front(words)?;
    let (sink, words) = number_front(words, b' ')?;
    let (denied, words) = bit_front(words, b' ')?;
    let (corrupt, rest) = bit_front(words, b'\n')?;
    let beat = Beat {
        cycle,
        chan: Chan::D,
        opcode: opening.opcode,
        param: opening.param,
        size: opening.size,
        source: opening.source,
        sink,
        address: 0,
        mask: 0,
        denied,
        corrupt,
    };
    Some((beat, rest))
}

/// The beat of channel E that the word after the channel spells, and what stands after its newline.
#[inline(always)]
fn grant_ack_front(cycle: u64, words: &[u8]) -> Option<(Beat, &[u8])>
    ensures formed { IfSome result (λ x. IsWellFormed x.0) }
    ensures chan { IfSome result (λ x. x.0.chan ≡ E) }
    ensures cycle { IfSome result (λ x. x.0.cycle ≡ cycle) }
    ensures spelled { IfSome result (λ x. words.now ≡ fields_text E x.0 ++ 10 ∷ x.1.now) }
{
    let (sink, rest) = number_front(words, b'\n')?;
    let beat = Beat {
        cycle,
        chan: Chan::E,
        opcode: 0,
        param: 0,
        size: 0,
        source: 0,
        sink,
        address: 0,
        mask: 0,
        denied: false,
        corrupt: false,
    };
    Some((beat, rest))
}

/// The beat that the words after this channel's letter spell, and what stands after their newline.
#[inline(always)]
fn fields_front(name: u8, cycle: u64, words: &[u8]) -> Option<(Beat, &[u8])>
    ensures formed { IfSome result (λ x. IsWellFormed x.0) }
    ensures name { IfSome result (λ x. chan_text x.0.chan ≡ name ∷ []) }
    ensures cycle { IfSome result (λ x. x.0.cycle ≡ cycle) }
    ensures spelled { IfSome result (λ x. words.now ≡ fields_text x.0.chan x.0 ++ 10 ∷ x.1.now) }
{
    match name {
        b'A' => access_front(Chan::A, cycle, words),
        b'B' => access_front(Chan::B, cycle, words),
        b'C' => release_front(cycle, words),
        b'D' => reply_front(cycle, words),
        b'E' => grant_ack_front(cycle, words),
        _ => None,
    }
}

/// A line that was read: its beat, its bytes before the channel, and its text from the channel on, with the newline.
#[derive(Clone, Copy)]
pub(crate) struct FrontLine<'a> {
    pub(crate) beat: Beat,
    cycle_bytes: usize,
    after_cycle: &'a [u8],
}

impl FrontLine<'_> {
    /// Whether a burst may go on with this text: its first line has the channel at the same place. It only saves time.
    #[inline(always)]
    fn is_like(&self, text: &[u8]) -> bool {
        match (text.get(self.cycle_bytes), self.after_cycle.first()) {
            (Some(found), Some(channel)) => *found == *channel,
            _ => false,
        }
    }

    /// The beat of the line that differs in the cycle alone.
    #[inline(always)]
    fn beat_at(&self, cycle: u64) -> Beat
        requires { IsFrontLine self.now }
        ensures formed { IsWellFormed result }
        ensures cycle { result.cycle ≡ cycle }
        ensures same { after_cycle result ≡ after_cycle self.now.beat }
    {
        Beat { cycle, ..self.beat }
    }

    /// Whether a later beat of its burst may be on the next line.
    #[inline(always)]
    pub(crate) fn may_go_on(&self, text: &[u8]) -> bool {
        self.beat.size > ONE_BEAT && self.is_like(text)
    }
}

/// The line of this cycle, with these words after it, and what stands after the line.
#[inline(always)]
fn fields_line(cycle: u64, cycle_bytes: usize, words: &[u8]) -> Option<(FrontLine<'_>, &[u8])>
    ensures line { IfSome result (λ x. IsFrontLine x.0) }
    ensures cycle { IfSome result (λ x. x.0.beat.cycle ≡ cycle) }
    ensures text { IfSome result (λ x. words.now ≡ ended (after_cycle x.0.beat) ++ x.1.now) }
{
    let [name, b' ', fields @ ..] = words else {
        return None;
    };
    let (beat, rest) = fields_front(*name, cycle, fields)?;
    let line = FrontLine {
        beat,
        cycle_bytes,
        after_cycle: &words[..words.len() - rest.len()],
    };
    Some((line, rest))
}

/// The first line of a text, where it spells a beat, and what stands after it; None for a line that is passed on.
#[inline(always)]
pub(crate) fn beat_front(text: &[u8]) -> Option<(FrontLine<'_>, &[u8])>
    ensures line { IfSome result (λ x. IsFrontLine x.0) }
    ensures spelled { IfSome result (λ x. text.now ≡ beat_text x.0.beat ++ 10 ∷ x.1.now) }
    ensures read { IfSome result (λ x. beat_line_at text.now ≡ Some (x.0.beat, x.1.now)) }
{
    let (cycle, words) = long_decimal_front(text, b' ')?;
    fields_line(cycle, text.len() - words.len(), words)
}

/// The beat of a text's first line, where the line differs from this one in the cycle alone, and what stands after it.
#[inline(always)]
pub(crate) fn later_front<'a>(text: &'a [u8], line: &FrontLine<'_>) -> Option<(Beat, &'a [u8])>
    requires { IsFrontLine line.now }
    ensures formed { IfSome result (λ x. IsWellFormed x.0) }
    ensures spelled { IfSome result (λ x. text.now ≡ beat_text x.0 ++ 10 ∷ x.1.now) }
{
    if !line.is_like(text) {
        return None;
    }
    let (cycle, words) = long_decimal_front(text, b' ')?;
    let rest = rest_of(words, line.after_cycle)?;
    Some((line.beat_at(cycle), rest))
}
