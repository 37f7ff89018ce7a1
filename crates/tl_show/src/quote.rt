//! Lines of a text, as they can be shown.

ghost use Rattle.std.specs.Prelude.{◌≡◌, true};
ghost use Rattle.tl_check.specs.Notes.{is_unbroken};

use std::str;
use tl_text::line;

/// The most bytes of a line that are shown.
const MOST_SHOWN: usize = 100;

const RETURN: u8 = b'\r';

const DELETE: u8 = 0x7f;

/// What stands for bytes that can't be shown.
const NO_TEXT: &str = "bytes that are no text";

/// The first bytes of a line, at most 100, without a carriage return at their end.
fn front_of(bytes: &[u8]) -> &[u8]
    requires { is_unbroken bytes.now ≡ true }
    ensures { is_unbroken result.now ≡ true }
{
    let length = match bytes.last() {
        Some(last) if *last == RETURN => bytes.len() - 1,
        _ => bytes.len(),
    };
    &bytes[..length.min(MOST_SHOWN)]
}

/// A line as it can be shown: at most 100 bytes of it, without a carriage return at the end; none with control characters.
pub fn quoted(bytes: &[u8]) -> &str
    requires { is_unbroken bytes.now ≡ true }
    ensures { is_unbroken result.now ≡ true }
{
    let start = front_of(bytes);
    if start.iter().any(|byte| *byte < b' ' || *byte == DELETE) {
        return NO_TEXT;
    }
    match str::from_utf8(start) {
        Ok(text) => text,
        Err(_) => NO_TEXT,
    }
}

/// The first line of a text, or all of it where it has no newline.
pub fn first_line(text: &[u8]) -> &[u8]
    ensures { is_unbroken result.now ≡ true }
{
    match line(text) {
        Some((found, _)) => found,
        None => text,
    }
}

/// A text from the line with this number on, from 1; from its last line on where it has fewer.
pub fn lines_from(text: &[u8], number: u64) -> &[u8] {
    let mut rest = text;
    for _ in 1..number {
        if let Some((_, after)) = line(rest) {
            rest = after;
        }
    }
    rest
}

/// The line of a text with this number, from 1, without its newline.
pub fn line_at(text: &[u8], number: u64) -> &[u8]
    ensures { is_unbroken result.now ≡ true }
{
    first_line(lines_from(text, number))
}
