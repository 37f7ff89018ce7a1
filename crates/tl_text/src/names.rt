//! Bits and names.

ghost use Rattle.std.specs.Prelude.{◌≡◌, ◌≤◌, length, true};
ghost use Rattle.std.specs.List.{list_all};
ghost use Rattle.tl_text.specs.Names.{bit_at, is_name, is_name_byte};

/// The bit that a word spells: `0` or `1`; None for any other word.
#[tactic(auto, unfolding(crate::specs::Names::bit_at))]
pub fn bit(word: &[u8]) -> Option<bool>
    ensures { result ≡ bit_at word.now }
{
    match word {
        [b'0'] => Some(false),
        [b'1'] => Some(true),
        _ => None,
    }
}

fn are_name_bytes(bytes: &[u8]) -> bool
    ensures { result ≡ list_all is_name_byte bytes.now }
{
    bytes.iter().all(|byte| byte.is_ascii_lowercase() || byte.is_ascii_digit() || *byte == b'_')
}

/// Whether a word is a name: a lower-case letter and up to 15 lower-case letters, digits or `_`.
#[tactic(auto, unfolding(crate::specs::Names::is_name))]
pub fn is_name(word: &[u8]) -> bool
    ensures exact { result ≡ is_name word.now }
    ensures short { result ≡ true → length word.now ≤ 16 }
{
    match word {
        [first, rest @ ..] => first.is_ascii_lowercase()
            && rest.len() <= 15
            && are_name_bytes(rest),
        [] => false,
    }
}
