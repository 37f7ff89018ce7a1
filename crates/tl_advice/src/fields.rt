//! The lines of the texts, field by field.

use std::fmt;
use tl_text::{bit, decimal, hexadecimal, is_name, word};

/// What a field is spelled as.
#[derive(Clone, Copy)]
pub enum Spelling {
    /// A word that the form of the line fixes.
    Fixed,
    Name,
    Decimal { least: u64, most: u64 },
    Power { least: u64, most: u64 },
    Exponent,
    Hexadecimal,
    Bit,
    Channel,
    Level,
    Permits,
}

/// The greatest exponent of a size.
const MOST_EXPONENT: u64 = 15;

/// The greatest number that the line of a topology may have.
const MOST_IN_TOPOLOGY: u64 = 65_536;

/// What each place of a region's permits may be, beside `-`.
const PERMITS: [u8; 5] = [b'g', b'p', b'a', b'h', b'c'];

/// The permits of a region, each its letter or `-`.
fn are_permits(own: &[u8]) -> bool {
    own.len() == PERMITS.len()
        && own
            .iter()
            .zip(PERMITS.iter())
            .all(|(found, letter)| *found == *letter || *found == b'-')
}

/// Whether a word is a power of two in a range.
fn is_power(own: &[u8], least: u64, most: u64) -> bool {
    match decimal(own, most) {
        Some(found) => least <= found && found.is_power_of_two(),
        None => false,
    }
}

impl Spelling {
    /// Whether a word is spelled so.
    fn fits(self, own: &[u8]) -> bool {
        match self {
            Spelling::Fixed => true,
            Spelling::Name => is_name(own),
            Spelling::Decimal { least, most } => match decimal(own, most) {
                Some(found) => least <= found,
                None => false,
            },
            Spelling::Power { least, most } => is_power(own, least, most),
            Spelling::Exponent => decimal(own, MOST_EXPONENT).is_some(),
            Spelling::Hexadecimal => hexadecimal(own).is_some(),
            Spelling::Bit => bit(own).is_some(),
            Spelling::Channel => own.len() == 1 && b'A' <= own[0] && own[0] <= b'E',
            Spelling::Level => {
                own == b"ul".as_slice() || own == b"uh".as_slice() || own == b"c".as_slice()
            }
            Spelling::Permits => are_permits(own),
        }
    }

    /// What is wrong with a word that is not spelled so.
    fn flaw(self, own: &[u8]) -> &'static str {
        match self {
            Spelling::Fixed => "is another word",
            Spelling::Name => name_flaw(own),
            Spelling::Decimal { .. } | Spelling::Exponent => decimal_flaw(own),
            Spelling::Power { .. } if decimal(own, MOST_IN_TOPOLOGY).is_some() => {
                "is no power of two in range"
            }
            Spelling::Power { .. } => decimal_flaw(own),
            Spelling::Hexadecimal => hexadecimal_flaw(own),
            Spelling::Bit => "is neither 0 nor 1",
            Spelling::Channel => "is no channel",
            Spelling::Level => "is no level",
            Spelling::Permits => "is no list of permits",
        }
    }
}

impl fmt::Display for Spelling {
    fn fmt<W: fmt::Write>(&self, f: &mut fmt::Formatter<W>) -> fmt::Result {
        match self {
            Spelling::Fixed => f.write_str("the word of the form"),
            Spelling::Name => f.write_str(
                "a name: a lower-case letter, then up to 15 lower-case letters, digits or _",
            ),
            Spelling::Decimal { most, .. } if *most == u64::MAX => {
                f.write_str("a decimal number below 2^64, without leading zeros")
            }
            Spelling::Decimal { least, most } => {
                write!(
                    f,
                    "a decimal number from {least} to {most}, without leading zeros"
                )
            }
            Spelling::Power { least, most } => write!(f, "a power of two from {least} to {most}"),
            Spelling::Exponent => f.write_str("an exponent from 0 to 15 (3 is 8 bytes)"),
            Spelling::Hexadecimal => f.write_str(
                "lower-case hexadecimal of at most 16 digits, without 0x or leading zeros",
            ),
            Spelling::Bit => f.write_str("0 or 1"),
            Spelling::Channel => f.write_str("A, B, C, D or E"),
            Spelling::Level => f.write_str("ul, uh or c"),
            Spelling::Permits => f.write_str("gpahc, each its letter or -"),
        }
    }
}

/// Whether a word has the prefix of hexadecimal numbers in C.
fn is_prefixed(own: &[u8]) -> bool {
    own.starts_with(b"0x".as_slice()) || own.starts_with(b"0X".as_slice())
}

/// Whether a word has a digit that a simulator writes for a bit that it does not know.
fn has_unknown_bits(own: &[u8]) -> bool {
    own.iter()
        .any(|byte| matches!(*byte, b'x' | b'X' | b'z' | b'Z'))
}

/// Whether a word has a zero before other digits.
fn is_led_by_zero(own: &[u8]) -> bool {
    own.len() > 1 && own[0] == b'0'
}

fn name_flaw(own: &[u8]) -> &'static str {
    if own.iter().any(|byte| byte.is_ascii_uppercase()) {
        "has upper-case letters"
    } else if own.len() > 16 {
        "has more than 16 characters"
    } else {
        "is no name"
    }
}

fn decimal_flaw(own: &[u8]) -> &'static str {
    if own.iter().all(|byte| byte.is_ascii_digit()) {
        if is_led_by_zero(own) {
            "has a leading zero"
        } else {
            "is out of range"
        }
    } else if is_prefixed(own) {
        "begins with 0x"
    } else if has_unknown_bits(own) {
        "has unknown bits (x or z)"
    } else {
        "is no decimal number"
    }
}

fn hexadecimal_flaw(own: &[u8]) -> &'static str {
    if is_prefixed(own) {
        "begins with 0x"
    } else if has_unknown_bits(own) {
        "has unknown bits (x or z)"
    } else if !own.iter().all(|byte| byte.is_ascii_hexdigit()) {
        "is no hexadecimal number"
    } else if own.iter().any(|byte| byte.is_ascii_uppercase()) {
        "is in upper case"
    } else if is_led_by_zero(own) {
        "has a leading zero"
    } else {
        "has more than 16 digits"
    }
}

/// A field of a line.
#[derive(Clone, Copy)]
pub struct Field {
    /// Its name, as the README's forms have it.
    pub name: &'static str,
    /// How it is spelled.
    pub spelling: Spelling,
}

/// The form of a line, as `tlcheck explain` writes it, with its fields in order.
#[derive(Clone, Copy)]
pub struct Form {
    /// The form as the README writes it.
    pub text: &'static str,
    /// Its fields, in order.
    pub fields: &'static [Field],
}

/// What is wrong with a line that has another form.
#[derive(Clone, Copy)]
pub enum Slip<'a> {
    /// It has this many fields.
    Count {
        /// How many it has.
        found: usize,
        /// The form that it is to have.
        form: Form,
    },
    /// This field of it is spelled wrong.
    Field {
        /// The field.
        field: Field,
        /// What stands there.
        own: &'a [u8],
    },
}

impl Slip<'_> {
    /// What is wrong with the word that is spelled wrong.
    pub fn flaw(&self) -> &'static str {
        match self {
            Slip::Count { .. } => "",
            Slip::Field { field, own } => field.spelling.flaw(own),
        }
    }
}

/// The first word of a line, and what follows it.
fn first_word(line: &[u8]) -> (&[u8], &[u8]) {
    match word(line) {
        Some(found) => found,
        None => (line, &[]),
    }
}

/// The field of a line at a place from 0; empty where it has none there.
pub fn field_at(line: &[u8], place: usize) -> &[u8] {
    let mut rest = line;
    for _ in 0..place {
        rest = first_word(rest).1;
    }
    first_word(rest).0
}

/// How many fields a line has.
pub fn field_count(line: &[u8]) -> usize {
    let spaces = line.iter().filter(|byte| **byte == b' ').count();
    spaces.saturating_add(1)
}

/// What is wrong with a line of this form, if anything is.
pub fn slip_in<'a>(form: Form, line: &'a [u8]) -> Option<Slip<'a>> {
    let found = field_count(line);
    if found != form.fields.len() {
        return Some(Slip::Count { found, form });
    }
    let mut rest = line;
    for field in form.fields {
        let (own, after) = first_word(rest);
        if !field.spelling.fits(own) {
            return Some(Slip::Field { field: *field, own });
        }
        rest = after;
    }
    None
}
