//! The text of a whole fragment.

ghost use Rattle.std.specs.Prelude.{◌≡◌, ◌↔◌, ◌+◌, ◌<◌, ◌≤◌, ◌^◌, ◌++◌, ℕ, List, [], drop, take, length, option_map, Ok, IfErr, IfOk, IfSome, OnOk, true};
ghost use Rattle.std.specs.Result.{IsErrOf, IsErrAnd};
ghost use Rattle.tl_text.specs.Words.{lines_of, IsBehind};
ghost use Rattle.tl_text.specs.Readings.{Fails, Gives};
ghost use Rattle.tl_beats.specs.Beats.{IsWellFormed};
ghost use Rattle.tl_beats.specs.Faults.{is_memory, is_outside};
ghost use Rattle.tl_beats.specs.Fragments.{AreBeats, Frag, IsFragment};
ghost use Rattle.tl_beats.specs.Fronts.{IsFrontLine};
ghost use Rattle.tl_beats.specs.Text.{fragment_text};
ghost use Rattle.tl_beats.specs.Reading.{range_at, header_at, next_at, beats_from, read_on, fragment_behind, fragment_in, whole_fragment_in};

use crate::Beat;
use crate::beat_line::beat_of;
use crate::fault::FragmentFault;
use crate::fragment::Fragment;
use crate::front_line::{FrontLine, beat_front, later_front};
use crate::places::placed;
use std::alloc::Global;
use tl_text::{ByteIn, Name, decimal, line, read_text, word};

/// The most bytes of a fragment's text.
const MOST_BYTES: u64 = 8_388_608;

/// The parts of a header line.
#[derive(Clone, Copy)]
pub(crate) struct Header {
    pub(crate) link: Name,
    pub(crate) number: u32,
    pub(crate) first: u64,
    pub(crate) last: u64,
}

/// Number, first and last cycle, the first not above the last.
#[tactic(auto, unfolding(crate::specs::Reading::range_at))]
fn range_of(words: &[u8]) -> Option<(u32, u64, u64)>
    ensures exact { result ≡ range_at words.now }
    ensures order { IfSome result (λ x. x.1 ≤ x.2) }
{
    let (number, words) = word(words)?;
    let number = decimal(number, u64::from(u32::MAX))? as u32;
    let (first, last) = word(words)?;
    let first = decimal(first, u64::MAX)?;
    let last = decimal(last, u64::MAX)?;
    if last < first {
        None
    } else {
        Some((number, first, last))
    }
}

#[tactic(auto, unfolding(crate::specs::Reading::header_at))]
fn header_of(line: &[u8]) -> Option<Header>
    ensures exact { result ≡ header_at line.now }
    ensures order { IfSome result (λ header. header.first ≤ header.last) }
{
    let (fragment, words) = word(line)?;
    if fragment != b"fragment".as_slice() {
        return None;
    }
    let (link, words) = word(words)?;
    let link = Name::new(link)?;
    let (number, first, last) = range_of(words)?;
    Some(Header {
        link,
        number,
        first,
        last,
    })
}

/// The beat of a line, in the range and after the beats before it.
#[tactic(auto, unfolding(crate::specs::Reading::next_at))]
fn next_of(
    line: &[u8],
    number: u32,
    first: u64,
    last: u64,
    before: &[Beat],
) -> Result<Beat, FragmentFault>
    ensures exact { Gives is_memory (λ beat. beat) result (next_at first last number before.now line.now) }
    ensures formed { IfOk result IsWellFormed }
    ensures inside { IfErr result (λ e. is_outside e ≡ is_memory e) }
{
    match beat_of(line) {
        Some(beat) => placed(number, first, last, before, beat),
        None => Err(FragmentFault::BadField(number)),
    }
}

/// Takes the later beats of a line's burst, whose lines differ from it in the cycle alone, and gives what stands after them.
#[inline(never)]
fn burst_of<'a>(
    beats: &mut Vec<Beat>,
    first: u64,
    last: u64,
    line: &FrontLine<'_>,
    text: &'a [u8],
) -> Result<&'a [u8], FragmentFault>
    requires line { IsFrontLine line.now }
    requires kept { AreBeats first last beats.old.items }
    ensures read { IfOk result (λ rest. read_on first last beats.new.items rest.now ≡ read_on first last beats.old.items text.now) }
    ensures kept { IfOk result (λ rest. AreBeats first last beats.new.items) }
    ensures behind { IfOk result (λ rest. IsBehind text.now rest.now) }
    ensures fault { IfErr result (λ e. Fails is_memory e (read_on first last beats.old.items text.now)) }
    ensures inside { IfErr result (λ e. is_outside e ≡ is_memory e) }
{
    let mut rest = text;
    loop {
        let Some((beat, after)) = later_front(rest, line) else {
            return Ok(rest);
        };
        let number = beats.len() as u32 + 2;
        beats.push(placed(number, first, last, beats, beat)?)?;
        rest = after;
    }
}

/// The same, after a look whether there are such beats.
#[inline(always)]
fn later_beats<'a>(
    beats: &mut Vec<Beat>,
    first: u64,
    last: u64,
    line: &FrontLine<'_>,
    text: &'a [u8],
) -> Result<&'a [u8], FragmentFault>
    requires line { IsFrontLine line.now }
    requires kept { AreBeats first last beats.old.items }
    ensures read { IfOk result (λ rest. read_on first last beats.new.items rest.now ≡ read_on first last beats.old.items text.now) }
    ensures kept { IfOk result (λ rest. AreBeats first last beats.new.items) }
    ensures behind { IfOk result (λ rest. IsBehind text.now rest.now) }
    ensures fault { IfErr result (λ e. Fails is_memory e (read_on first last beats.old.items text.now)) }
    ensures inside { IfErr result (λ e. is_outside e ≡ is_memory e) }
{
    if line.may_go_on(text) {
        burst_of(beats, first, last, line, text)
    } else {
        Ok(text)
    }
}

/// The beats up to the line `end`, and what stands after it.
fn beats_of(
    alloc: Global,
    first: u64,
    last: u64,
    bytes: &[u8],
) -> Result<(Vec<Beat>, &[u8]), FragmentFault>
    ensures exact { Gives is_memory (λ x. (x.0.items, lines_of x.1.now)) result (beats_from first last 2 [] (lines_of bytes.now)) }
    ensures behind { IfOk result (λ x. IsBehind bytes.now x.1.now) }
    ensures kept { IfOk result (λ x. AreBeats first last x.0.items) }
    ensures inside { IfErr result (λ e. is_outside e ≡ is_memory e) }
{
    let mut beats = Vec::new(alloc);
    let mut rest = bytes;
    loop {
        let number = beats.len() as u32 + 2;
        if let Some((front, after)) = beat_front(rest) {
            beats.push(placed(number, first, last, &beats, front.beat)?)?;
            rest = later_beats(&mut beats, first, last, &front, after)?;
            continue;
        }
        let Some((next, after)) = line(rest) else {
            return Err(FragmentFault::Truncated(number));
        };
        rest = after;
        if next == b"end".as_slice() {
            return Ok((beats, rest));
        }
        beats.push(next_of(next, number, first, last, &beats)?)?;
    }
}

/// The fragment whose lines stand at the front, and what follows its last line.
#[tactic(auto, unfolding(crate::specs::Reading::fragment_in, crate::specs::Reading::fragment_behind))]
fn fragment_of(alloc: Global, bytes: &[u8]) -> Result<(Fragment, &[u8]), FragmentFault>
    ensures exact { Gives is_memory (λ x. (x.0, lines_of x.1.now)) result (fragment_in (lines_of bytes.now)) }
    ensures behind { IfOk result (λ x. IsBehind bytes.now x.1.now) }
    ensures inside { IfErr result (λ e. is_outside e ≡ is_memory e) }
{
    let Some((first, rest)) = line(bytes) else {
        return Err(FragmentFault::Truncated(1));
    };
    let Some(header) = header_of(first) else {
        return Err(FragmentFault::BadHeader);
    };
    let (beats, rest) = beats_of(alloc, header.first, header.last, rest)?;
    let fragment = Fragment {
        link: header.link,
        number: header.number,
        first: header.first,
        last: header.last,
        beats,
    };
    Ok((fragment, rest))
}

/// The fragment whose text stands at the front, and the number of its bytes.
fn front_of(alloc: Global, bytes: &[u8]) -> Result<(Fragment, usize), FragmentFault>
    ensures exact { Gives is_memory (λ x. (x.0, lines_of (drop x.1 bytes.now))) result (fragment_in (lines_of bytes.now)) }
    ensures used { IfOk result (λ x. x.1 ≤ length bytes.now) }
{
    let (fragment, rest) = fragment_of(alloc, bytes)?;
    Ok((fragment, bytes.len() - rest.len()))
}

/// The fragment whose text stands at the front, and the number of its bytes. A refusal names the first faulty line and,
/// in that line, the first cause in the order of its newline, header, fields, number of beats, range, order, memory.
pub fn parse_fragment(alloc: Global, bytes: &[u8]) -> Result<(Fragment, usize), FragmentFault>
    // It is what reading the lines gives, and the bytes after those used are the lines that reading leaves.
    ensures exact { Gives is_memory (λ x. (x.0, lines_of (drop x.1 bytes.now))) result (fragment_in (lines_of bytes.now)) }
    ensures used { IfOk result (λ x. x.1 ≤ length bytes.now) }
    // The bytes used are the text of the fragment.
    ensures found { IfOk result (λ x. take x.1 bytes.now ≡ fragment_text x.0) }
    // Where the text of a fragment stands at the front, that fragment is found.
    ensures only { (f : Frag) (rest : List ℕ) → IsFragment f → bytes.now ≡ fragment_text f ++ rest → Gives is_memory (λ x. x) result (Ok (f, length (fragment_text f))) }
{
    front_of(alloc, bytes)
}

/// The fragment whose text is the whole text.
fn whole_fragment(alloc: Global, bytes: &[u8]) -> Result<Fragment, FragmentFault>
    ensures exact { Gives is_memory (λ f. f) result (whole_fragment_in (lines_of bytes.now)) }
    ensures inside { IfErr result (λ e. is_outside e ≡ is_memory e) }
{
    let (fragment, rest) = fragment_of(alloc, bytes)?;
    if rest.is_empty() {
        Ok(fragment)
    } else {
        Err(FragmentFault::BadField(fragment.beats().len() as u32 + 3))
    }
}

/// The fragment whose text is all the bytes. TooLong where they are more than 8,388,608, before anything is parsed; bytes
/// after the last line are BadField of the next line.
pub fn parse_whole_fragment(alloc: Global, bytes: &[u8]) -> Result<Fragment, FragmentFault>
    ensures exact { length bytes.now ≤ 8388608 → Gives is_memory (λ f. f) result (whole_fragment_in (lines_of bytes.now)) }
    ensures too_long { IsErrOf result FragmentFault.TooLong ↔ (8388608 < length bytes.now) }
    ensures inside { length bytes.now ≤ 8388608 → IfErr result (λ e. is_outside e ≡ is_memory e) }
    // The bytes are the text of the fragment, and the text of a fragment is read as that fragment.
    ensures found { IfOk result (λ f. bytes.now ≡ fragment_text f) }
    ensures only { (f : Frag) → IsFragment f → length bytes.now ≤ 8388608 → bytes.now ≡ fragment_text f → Gives is_memory (λ f. f) result (Ok f) }
{
    if bytes.len() as u64 > MOST_BYTES {
        return Err(FragmentFault::TooLong);
    }
    whole_fragment(alloc, bytes)
}

/// Reads the input to its end, in at most 8,388,610 reads, as the text of one fragment. TooLong where it has more than
/// 8,388,608 bytes, before anything is parsed; ReadFault exactly where a read failed. What was read is lost.
pub fn read_fragment<I: ByteIn>(alloc: Global, input: &mut I) -> Result<Fragment, FragmentFault>
    requires reads { I.read_count input.old < 2 ^ 63 }
    requires failures { I.failure_count input.old < 2 ^ 63 }
    ensures exact { IfSome (I.remaining input.old) (λ bytes. Gives is_outside (λ f. f) result (whole_fragment_in (lines_of bytes))) }
    // The input was the text of the fragment, and the text of a fragment is read as that fragment.
    ensures found { IfSome (I.remaining input.old) (λ bytes. IfOk result (λ f. bytes ≡ fragment_text f)) }
    ensures only { IfSome (I.remaining input.old) (λ bytes. (f : Frag) → IsFragment f → bytes ≡ fragment_text f → Gives is_outside (λ f. f) result (Ok f)) }
    ensures too_long { IsErrOf result FragmentFault.TooLong → IfSome (I.remaining input.old) (λ bytes. 8388608 < length bytes) }
    // A longer input is not parsed: its fault is none of a text.
    ensures unparsed { IfSome (I.remaining input.old) (λ bytes. 8388608 < length bytes → IsErrAnd result (λ e. is_outside e ≡ true)) }
    ensures failed { IsErrOf result FragmentFault.ReadFault ↔ (I.failure_count input.old < I.failure_count input.new) }
    ensures quiet { OnOk result (I.failure_count input.new ≡ I.failure_count input.old) }
    ensures reads { I.read_count input.new ≤ I.read_count input.old + 8388610 }
{
    let text = read_text(alloc, input, MOST_BYTES)?;
    whole_fragment(alloc, &text)
}
