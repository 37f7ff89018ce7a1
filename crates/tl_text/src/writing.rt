//! Words and lines that go out, each in its one spelling.

ghost use Rattle.std.specs.Prelude.{◌≡◌, ◌+◌, ◌<◌, ◌≤◌, ◌^◌, ◌∷◌, ◌++◌, [], false, length};
ghost use Rattle.std.specs.Fmt.{digit_glyph};
ghost use Rattle.arrayvec.specs.ArrayVec.{array_vec_len};
ghost use Rattle.tl_text.specs.Numbers.{numeral};
ghost use Rattle.tl_text.specs.Spelled.{word_text, line_text};
ghost use Rattle.tl_text.specs.Written.{Writes};

use crate::output::{ByteOut, WriteFault, write_all};
use arrayvec::ArrayVec;

/// Room for nine words of at most 20 bytes, with the byte after each.
const ROOM: usize = 192;

type Line = ArrayVec<u8, ROOM>;

/// A word of a line.
#[derive(Clone, Copy, Debug, PartialEq, Eq)]
pub enum Word {
    /// A number in decimal.
    Decimal(u64),
    /// A number in lower-case hexadecimal, without prefix.
    Hexadecimal(u64),
    /// `0` or `1`.
    Bit(bool),
    /// One byte, as it is.
    Letter(u8),
}

/// The digit of a value below 16.
fn glyph(value: u64) -> u8
    requires { value < 16 }
    ensures { result ≡ digit_glyph false value }
{
    if value < 10 {
        b'0' + value as u8
    } else {
        b'a' + (value - 10) as u8
    }
}

/// Puts a number at the end of the line, in this base.
fn put_number(line: &mut Line, number: u64, base: u64)
    requires low { 2 ≤ base }
    requires high { base ≤ 16 }
    requires room { array_vec_len line.old + length (numeral base number) ≤ 192 }
    ensures { line.new.items ≡ line.old.items ++ numeral base number }
{
    if number < base {
        line.push(glyph(number));
    } else {
        put_number(line, number / base, base);
        line.push(glyph(number % base));
    }
}

/// Puts a word at the end of the line.
fn put_word(line: &mut Line, word: Word)
    requires { array_vec_len line.old + 20 ≤ 192 }
    ensures items { line.new.items ≡ line.old.items ++ word_text word }
    ensures short { array_vec_len line.new ≤ array_vec_len line.old + 20 }
{
    match word {
        Word::Decimal(number) => put_number(line, number, 10),
        Word::Hexadecimal(number) => put_number(line, number, 16),
        Word::Bit(bit) => line.push(if bit { b'1' } else { b'0' }),
        Word::Letter(byte) => line.push(byte),
    }
}

/// Puts a word at the end of the line, after a space unless it is the first.
fn put_next(line: &mut Line, index: usize, word: Word)
    requires { array_vec_len line.old + 21 ≤ 192 }
    ensures first { index ≡ 0 → line.new.items ≡ line.old.items ++ word_text word }
    ensures behind { 0 < index → line.new.items ≡ line.old.items ++ 32 ∷ word_text word }
    ensures short { array_vec_len line.new ≤ array_vec_len line.old + 21 }
{
    if index > 0 {
        line.push(b' ');
    }
    put_word(line, word);
}

/// The line of at most nine words, without its newline.
fn line_of(words: &[Word]) -> Line
    requires { length words.now ≤ 9 }
    ensures items { result.items ++ 10 ∷ [] ≡ line_text words.now }
    ensures room { array_vec_len result < 192 }
{
    let mut line = ArrayVec::new();
    for (index, word) in words.iter().enumerate() {
        put_next(&mut line, index, *word);
    }
    line
}

/// Writes the line of at most nine words, with one space between them and its newline, without taking memory. WriteFault at
/// the first write that fails: a front of the line has then been written.
pub fn write_words<O: ByteOut>(out: &mut O, words: &[Word]) -> Result<(), WriteFault>
    requires failures { O.failure_count out.old < 2 ^ 63 }
    requires few { length words.now ≤ 9 }
    ensures { Writes (line_text words.now) (O.contents out.old) (O.contents out.new) (O.failure_count out.old) (O.failure_count out.new) result }
{
    let mut line = line_of(words);
    line.push(b'\n');
    write_all(out, line.as_slice())
}
