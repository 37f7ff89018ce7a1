//! Where the text of a fragment ends.

ghost use Rattle.std.specs.Prelude.{◌≡◌, ◌≤◌, length, drop, if◌then◌else◌};
ghost use Rattle.tl_text.specs.Words.{lines_of};
ghost use Rattle.tl_stream.specs.Shares.{end_from};

use tl_text::line;

/// How far a search for the last line of a fragment came.
#[derive(Clone, Copy)]
pub(crate) struct Search {
    /// Whether it found that line.
    pub has_end: bool,
    /// How many lines it read.
    pub lines: usize,
    /// The place after them.
    pub place: usize,
}

/// Reads lines from a place on, up to the first that is the last of a fragment; else up to the one that no newline ends.
pub(crate) fn sought(bytes: &[u8], from: usize) -> Search
    requires { from ≤ length bytes.now }
    ensures after { from ≤ result.place }
    ensures within { result.place ≤ length bytes.now }
    ensures exact { end_from 0 from (lines_of (drop from bytes.now)) ≡ (if result.has_end then Some (result.lines, result.place) else None) }
{
    let mut place = from;
    for lines in 0..bytes.len() - from {
        let Some((next, _)) = line(&bytes[place..]) else {
            return Search {
                has_end: false,
                lines,
                place,
            };
        };
        place += next.len() + 1;
        if next == b"end".as_slice() {
            return Search {
                has_end: true,
                lines: lines + 1,
                place,
            };
        }
    }
    Search {
        has_end: false,
        lines: bytes.len() - from,
        place,
    }
}
