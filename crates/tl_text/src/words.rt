//! Lines and words.

ghost use Rattle.std.specs.Prelude.{◌≡◌, ◌==◌, ◌<◌, ◌∷◌, ◌++◌, ℕ, length, IfSome, option_map};
ghost use Rattle.std.specs.List.{position};
ghost use Rattle.tl_text.specs.Words.{before_stop, word_at, line_at, lines_of, first_line};

use memchr::memchr;

/// The place of the first space. A word is short, most often one byte, so its bytes are looked at one by one.
fn space(line: &[u8]) -> Option<usize>
    ensures { result ≡ position (λ byte. byte == 32) line.now }
{
    match line {
        [first, b' ', ..] if *first != b' ' => Some(1),
        _ => line.iter().position(|byte| *byte == b' '),
    }
}

/// The place of the first newline.
#[tactic(auto, using(crate::proofs::Cuts::found_place))]
fn newline(bytes: &[u8]) -> Option<usize>
    ensures { result ≡ position (λ byte. byte == 10) bytes.now }
{
    memchr(b'\n', bytes)
}

/// The bytes before the first stop, which stands at this place, and those after it; None where there is none.
fn cut(bytes: &[u8], place: Option<usize>) -> Option<(&[u8], &[u8])>
    requires { IfSome place (λ at. at < length bytes.now) }
    ensures { (stop : ℕ) → place ≡ position (λ byte. byte == stop) bytes.now
        → option_map (λ x. (x.0.now, x.1.now)) result ≡ before_stop stop bytes.now }
{
    match place {
        Some(at) => Some((&bytes[..at], &bytes[at + 1..])),
        None => None,
    }
}

/// The first word of a line and what follows the one space after it, or None where the line has no space. The word
/// can be empty: no spelling of anything is, so two spaces, or one at either end, are found there.
#[tactic(auto, unfolding(crate::specs::Words::word_at))]
pub fn word(line: &[u8]) -> Option<(&[u8], &[u8])>
    ensures exact { option_map (λ x. (x.0.now, x.1.now)) result ≡ word_at line.now }
    ensures joins { IfSome result (λ x. line.now ≡ x.0.now ++ 32 ∷ x.1.now) }
{
    cut(line, space(line))
}

/// The first line of a text, without its newline (byte 10), and what follows, or None where no newline follows.
#[tactic(auto, unfolding(crate::specs::Words::line_at))]
pub fn line(bytes: &[u8]) -> Option<(&[u8], &[u8])>
    ensures exact { option_map (λ x. (x.0.now, x.1.now)) result ≡ line_at bytes.now }
    ensures joins { IfSome result (λ x. bytes.now ≡ x.0.now ++ 10 ∷ x.1.now) }
    // The same on the text as its lines.
    ensures lines { option_map (λ x. (x.0.now, lines_of x.1.now)) result ≡ first_line (lines_of bytes.now) }
{
    cut(bytes, newline(bytes))
}
