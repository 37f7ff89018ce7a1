//! Numbers, in decimal and hexadecimal.

ghost use Rattle.std.specs.Prelude.{◌≡◌, ◌≤◌, ◌^◌, ◌-◌, ◌<◌, ℕ, Some, None, IfSome, nat_le, if◌then◌else◌};
ghost use Rattle.tl_text.specs.Numbers.{digit, number_at, is_led, numeral};

#[tactic(auto, unfolding(crate::specs::Numbers::digit))]
fn digit(byte: u8, base: u64) -> Option<u64>
    requires { base ≤ 16 }
    ensures { result ≡ digit base byte }
{
    let decimal = byte.wrapping_sub(b'0');
    let letter = byte.wrapping_sub(b'a');
    let value = if decimal < 10 {
        decimal
    } else if letter < 6 {
        letter + 10
    } else {
        return None;
    };
    let value = u64::from(value);
    if value < base { Some(value) } else { None }
}

/// Whether there is a digit, and no zero before others.
fn is_led(word: &[u8]) -> bool
    ensures { result ≡ is_led word.now }
{
    match word {
        [] => false,
        [_] => true,
        [first, ..] => *first != b'0',
    }
}

/// A number, where it is at most `most`.
fn at_most(value: u64, most: u64) -> Option<u64>
    ensures { result ≡ (if nat_le value most then Some value else None) }
{
    if value <= most { Some(value) } else { None }
}

/// The number that two digits or more spell.
#[tactic(auto, unfolding(crate::specs::Numbers::number_at))]
fn long_number(word: &[u8], base: u64, most: u64) -> Option<u64>
    requires low { 2 ≤ base }
    requires high { base ≤ 16 }
    ensures exact { result ≡ number_at base most word.now }
    ensures within { IfSome result (λ n. n ≤ most) }
{
    if !is_led(word) {
        return None;
    }
    let mut value = 0u64;
    for byte in word {
        let digit = digit(*byte, base)?;
        value = value.checked_mul(base)?.checked_add(digit)?;
    }
    at_most(value, most)
}

/// The number that a word spells in this base, where it is at most `most`. Most words have one digit.
#[tactic(auto, unfolding(crate::specs::Numbers::number_at))]
fn number(word: &[u8], base: u64, most: u64) -> Option<u64>
    requires low { 2 ≤ base }
    requires high { base ≤ 16 }
    ensures exact { result ≡ number_at base most word.now }
    ensures within { IfSome result (λ n. n ≤ most) }
{
    match word {
        [byte] => at_most(digit(*byte, base)?, most),
        _ => long_number(word, base, most),
    }
}

/// The number of at most `most` that a word spells in decimal with no leading zero; None where it spells none.
pub fn decimal(word: &[u8], most: u64) -> Option<u64>
    ensures exact { result ≡ number_at 10 most word.now }
    ensures within { IfSome result (λ n. n ≤ most) }
    // What is read is the number's spelling, and each spelling is read.
    ensures spelled { IfSome result (λ n. word.now ≡ numeral 10 n) }
    ensures every { (n : ℕ) → n ≤ most → word.now ≡ numeral 10 n → result ≡ Some n }
{
    number(word, 10, most)
}

/// The number that a word spells in hexadecimal: 1 to 16 lower-case digits, no leading zero, no prefix; None where it
/// spells none.
pub fn hexadecimal(word: &[u8]) -> Option<u64>
    ensures exact { result ≡ number_at 16 (2 ^ 64 - 1) word.now }
    // What is read is the number's spelling, and each spelling is read.
    ensures spelled { IfSome result (λ n. word.now ≡ numeral 16 n) }
    ensures every { (n : ℕ) → n < 2 ^ 64 → word.now ≡ numeral 16 n → result ≡ Some n }
{
    number(word, 16, u64::MAX)
}
