//! Numbers at the front of a text, each read in one pass up to the byte that ends it.

ghost use Rattle.std.specs.Prelude.{◌≡◌, ◌≤◌, ◌<◌, ◌^◌, ◌∷◌, ◌++◌, [], IfSome};
ghost use Rattle.tl_text.specs.Numbers.{numeral};

/// Where a number is this or more, one more digit might not fit.
const LAST_ROOM: u64 = 1 << 60;

/// The value of a decimal digit; above 9 for any other byte.
#[tactic(auto, using(crate::proofs::Fronts::decimal_glyph))]
#[inline(always)]
pub(crate) fn decimal_digit(byte: u8) -> u8
    ensures { result ≤ 9 → numeral 10 result ≡ byte ∷ [] }
{
    byte.wrapping_sub(b'0')
}

/// The values of hexadecimal digits by their bytes, and 255 for any other byte.
static HEXADECIMAL: [u8; 256] = [
    255, 255, 255, 255, 255, 255, 255, 255, 255, 255, 255, 255, 255, 255, 255, 255, 255, 255, 255,
    255, 255, 255, 255, 255, 255, 255, 255, 255, 255, 255, 255, 255, 255, 255, 255, 255, 255, 255,
    255, 255, 255, 255, 255, 255, 255, 255, 255, 255, 0, 1, 2, 3, 4, 5, 6, 7, 8, 9, 255, 255, 255,
    255, 255, 255, 255, 255, 255, 255, 255, 255, 255, 255, 255, 255, 255, 255, 255, 255, 255, 255,
    255, 255, 255, 255, 255, 255, 255, 255, 255, 255, 255, 255, 255, 255, 255, 255, 255, 10, 11,
    12, 13, 14, 15, 255, 255, 255, 255, 255, 255, 255, 255, 255, 255, 255, 255, 255, 255, 255, 255,
    255, 255, 255, 255, 255, 255, 255, 255, 255, 255, 255, 255, 255, 255, 255, 255, 255, 255, 255,
    255, 255, 255, 255, 255, 255, 255, 255, 255, 255, 255, 255, 255, 255, 255, 255, 255, 255, 255,
    255, 255, 255, 255, 255, 255, 255, 255, 255, 255, 255, 255, 255, 255, 255, 255, 255, 255, 255,
    255, 255, 255, 255, 255, 255, 255, 255, 255, 255, 255, 255, 255, 255, 255, 255, 255, 255, 255,
    255, 255, 255, 255, 255, 255, 255, 255, 255, 255, 255, 255, 255, 255, 255, 255, 255, 255, 255,
    255, 255, 255, 255, 255, 255, 255, 255, 255, 255, 255, 255, 255, 255, 255, 255, 255, 255, 255,
    255, 255, 255, 255, 255, 255, 255, 255, 255, 255, 255, 255, 255, 255, 255, 255, 255, 255, 255,
    255, 255, 255, 255,
];

/// The value of a hexadecimal digit; above 15 for any other byte. A table costs fewer instructions than two ranges.
#[inline(always)]
fn hexadecimal_digit(byte: u8) -> u8
    ensures { result ≤ 15 → numeral 16 result ≡ byte ∷ [] }
{
    HEXADECIMAL[byte as usize]
}

/// What stands after the stop, where the text begins with it.
#[inline(always)]
fn behind(text: &[u8], stop: u8) -> Option<&[u8]>
    ensures { IfSome result (λ rest. text.now ≡ stop ∷ rest.now) }
{
    match text {
        [first, rest @ ..] if *first == stop => Some(rest),
        _ => None,
    }
}

/// The decimal number of one or two digits at the front and what stands after the stop that ends it; None for any other.
#[inline(always)]
fn short_decimal_front(text: &[u8], stop: u8) -> Option<(u64, &[u8])>
    ensures { IfSome result (λ x. text.now ≡ numeral 10 x.0 ++ stop ∷ x.1.now) }
{
    match text {
        [ones, end, rest @ ..] if *end == stop => {
            let ones = decimal_digit(*ones);
            if ones > 9 {
                return None;
            }
            Some((u64::from(ones), rest))
        }
        [tens, ones, end, rest @ ..] if *end == stop => {
            let tens = decimal_digit(*tens);
            let ones = decimal_digit(*ones);
            if tens == 0 || tens > 9 || ones > 9 {
                return None;
            }
            Some((u64::from(tens) * 10 + u64::from(ones), rest))
        }
        _ => None,
    }
}

/// The decimal number at the front and what stands after the stop that ends it; None for some numbers of 60 bits and
/// more, and where none is spelled.
#[inline(always)]
fn any_decimal_front(text: &[u8], stop: u8) -> Option<(u64, &[u8])>
    ensures { IfSome result (λ x. text.now ≡ numeral 10 x.0 ++ stop ∷ x.1.now) }
{
    let [first, rest @ ..] = text else {
        return None;
    };
    let mut value = u64::from(decimal_digit(*first));
    if value > 9 {
        return None;
    }
    if value == 0 {
        return Some((0, behind(rest, stop)?));
    }
    let mut rest = rest;
    while let [byte, after @ ..] = rest {
        let digit = decimal_digit(*byte);
        if digit > 9 {
            return if *byte == stop {
                Some((value, after))
            } else {
                None
            }
        };
        if value >= LAST_ROOM {
            return None;
        }
        value = value * 10 + u64::from(digit);
        rest = after;
    }
    None
}

/// The same. Most sources and sinks have one digit or two, so these are tried first.
#[inline(always)]
pub(crate) fn decimal_front(text: &[u8], stop: u8) -> Option<(u64, &[u8])>
    ensures { IfSome result (λ x. text.now ≡ numeral 10 x.0 ++ stop ∷ x.1.now) }
{
    match short_decimal_front(text, stop) {
        Some(found) => Some(found),
        None => any_decimal_front(text, stop),
    }
}

/// The hexadecimal number at the front and what stands after the space that ends it; None where none is spelled.
#[inline(always)]
pub(crate) fn hexadecimal_front(text: &[u8]) -> Option<(u64, &[u8])>
    ensures { IfSome result (λ x. text.now ≡ numeral 16 x.0 ++ 32 ∷ x.1.now) }
{
    let [first, rest @ ..] = text else {
        return None;
    };
    let mut value = u64::from(hexadecimal_digit(*first));
    if value > 15 {
        return None;
    }
    if value == 0 {
        return Some((0, behind(rest, b' ')?));
    }
    let mut rest = rest;
    while let [byte, after @ ..] = rest {
        let digit = hexadecimal_digit(*byte);
        if digit > 15 {
            return if *byte == b' ' {
                Some((value, after))
            } else {
                None
            }
        };
        if value >= LAST_ROOM {
            return None;
        }
        value = value * 16 + u64::from(digit);
        rest = after;
    }
    None
}

/// The same of a mask. That of all lanes of a link of 8 bytes is by far the most common one.
#[inline(always)]
pub(crate) fn mask_front(text: &[u8]) -> Option<(u64, &[u8])>
    ensures { IfSome result (λ x. text.now ≡ numeral 16 x.0 ++ 32 ∷ x.1.now) }
{
    match text {
        [b'f', b'f', b' ', rest @ ..] => Some((0xff, rest)),
        _ => hexadecimal_front(text),
    }
}
