//! Decimal numbers and equal texts, eight bytes at a time.

ghost use Rattle.std.specs.Prelude.{◌≡◌, ℕ, ◌+◌, ◌-◌, ◌*◌, ◌%◌, ◌^◌, ◌<◌, ◌≤◌, ◌∷◌, ◌++◌, List, length, take, drop, nat_le, IfSome, IsTrue};
ghost use Rattle.std.specs.Int.{w64, to_le_bytes};
ghost use Rattle.core.specs.Str.Parse.{digits_value};
ghost use Rattle.core.specs.Slice.Scan.{digits_from, flag_word, little_endian};
ghost use Rattle.core.specs.Dec2flt.Digits.{IsEightBytes, IsEightDigits};
ghost use Rattle.core.specs.Float.Numeral.{digits_len};
ghost use Rattle.core.specs.Int.Digits.{number_from_digits};
ghost use lib.Lanes.{number_l};
ghost use Rattle.tl_text.specs.Numbers.{numeral};

use core::dec2flt::read_digits;

/// The most digits whose number is below 2 ^ 64, whatever they are.
const MOST_DIGITS: usize = 19;

/// The bytes of a word of 64 bits. A number with fewer digits is read with one word.
const WORD: usize = 8;

/// The eight bytes at this place, the first in the lowest byte.
#[inline(always)]
fn word_at(text: &[u8], at: usize) -> u64
    requires { at + 8 ≤ length text.now }
    ensures bytes { to_le_bytes w64 result ≡ take 8 (drop at text.now) }
    ensures number { result ≡ little_endian text.now at }
{
    u64::from_le_bytes([
        text[at],
        text[at + 1],
        text[at + 2],
        text[at + 3],
        text[at + 4],
        text[at + 5],
        text[at + 6],
        text[at + 7],
    ])
}

/// The high bit of each byte that is 10 or more. No sum carries into the next byte.
#[inline(always)]
fn flags_from_ten(word: u64) -> u64
    ensures { (byte : ℕ → ℕ) → ((k : ℕ) → byte k < 256) → word ≡ digits_from byte 0 8 → result ≡ flag_word (λ k. nat_le 10 (byte k)) }
{
    ((word & 0x7f7f_7f7f_7f7f_7f7f) + 0x7676_7676_7676_7676 | word) & 0x8080_8080_8080_8080
}

/// The word with its first bytes moved up to the end, and zeros below them.
#[inline(always)]
fn first_bytes(word: u64, count: u32) -> u64
    requires { count < 8 }
    ensures { result ≡ word * 256 ^ (8 - count) % 2 ^ 64 }
{
    // Two shifts, since a shift by 64 is not defined.
    word << (56 - 8 * count) << 8
}

/// The number that eight digits write, the first of them in the lowest byte.
#[inline(always)]
fn eight_digits(word: u64) -> u64
    ensures { (ds : List ℕ) → IsEightDigits ds → word ≡ number_l 256 ds → result ≡ number_from_digits 10 ds }
{
    let pairs = word.wrapping_mul(10).wrapping_add(word >> 8);
    let first = (pairs & 0x0000_00ff_0000_00ff).wrapping_mul(100 + (1_000_000 << 32));
    let second = ((pairs >> 16) & 0x0000_00ff_0000_00ff).wrapping_mul(1 + (10_000 << 32));
    first.wrapping_add(second) >> 32
}

/// How many of the word's bytes are digits, from the lowest on, and the number that they write; None where all eight are.
/// It is what `read_digits` does for one word, without its loop.
#[inline(always)]
fn word_digits(word: u64) -> Option<(usize, u64)>
    ensures few { IfSome result (λ x. x.0 < 8) }
    ensures read { IfSome result (λ x. (xs : List ℕ) → IsEightBytes xs → word ≡ number_l 256 xs → (x.0 ≡ digits_len xs) × (x.1 ≡ digits_value 10 (take x.0 xs))) }
{
    let lanes = word ^ 0x3030_3030_3030_3030;
    let others = flags_from_ten(lanes);
    if others == 0 {
        return None;
    }
    let count = others.trailing_zeros() / 8;
    Some((count as usize, eight_digits(first_bytes(lanes, count))))
}

/// The decimal number of at most 7 digits at the front and what stands after the stop that ends it; None where there are
/// more digits, where none is spelled, and in texts of fewer than 8 bytes.
#[inline(always)]
fn word_decimal_front(text: &[u8], stop: u8) -> Option<(u64, &[u8])>
    ensures { IfSome result (λ x. text.now ≡ numeral 10 x.0 ++ stop ∷ x.1.now) }
{
    if text.len() < WORD {
        return None;
    }
    let (end, value) = word_digits(word_at(text, 0))?;
    if end == 0 || text[end] != stop || (end > 1 && text[0] == b'0') {
        return None;
    }
    Some((value, &text[end + 1..]))
}

/// The decimal number at the front and what stands after the stop that ends it; None where there are more than 19
/// digits, and where none is spelled.
#[inline(never)]
fn many_decimal_front(text: &[u8], stop: u8) -> Option<(u64, &[u8])>
    ensures { IfSome result (λ x. text.now ≡ numeral 10 x.0 ++ stop ∷ x.1.now) }
{
    let (end, value) = read_digits(text, 0, 0);
    if end == 0 || end > MOST_DIGITS || (end > 1 && text[0] == b'0') {
        return None;
    }
    match &text[end..] {
        [first, rest @ ..] if *first == stop => Some((value, rest)),
        _ => None,
    }
}

/// The same. Most numbers have few digits, so they are tried with one word first.
#[inline(always)]
pub(crate) fn long_decimal_front(text: &[u8], stop: u8) -> Option<(u64, &[u8])>
    ensures { IfSome result (λ x. text.now ≡ numeral 10 x.0 ++ stop ∷ x.1.now) }
{
    match word_decimal_front(text, stop) {
        Some(found) => Some(found),
        None => many_decimal_front(text, stop),
    }
}

/// Whether two texts of the same length are the same. The last bytes are looked at first: lines mostly differ there.
#[inline(always)]
fn are_same(text: &[u8], other: &[u8]) -> bool
    requires long { 8 ≤ length text.now }
    requires as_long { length text.now ≡ length other.now }
    ensures { IsTrue result → text.now ≡ other.now }
{
    let last = text.len() - WORD;
    if word_at(text, last) != word_at(other, last) {
        return false;
    }
    let mut at = 0;
    while at < last {
        if word_at(text, at) != word_at(other, at) {
            return false;
        }
        at += WORD;
    }
    true
}

/// What stands after a text's front, where it has that front; None also for a front of fewer than 8 bytes.
#[inline(always)]
pub(crate) fn rest_of<'a>(text: &'a [u8], front: &[u8]) -> Option<&'a [u8]>
    ensures { IfSome result (λ rest. text.now ≡ front.now ++ rest.now) }
{
    let count = front.len();
    if count < WORD || text.len() < count || !are_same(&text[..count], front) {
        return None;
    }
    Some(&text[count..])
}
