//! Causes of faults in words: what was found, and what would be right.

use crate::fields::{Form, Slip};
use std::fmt;
use tl_topology::Topo;

/// The most bytes of a line that are shown.
const MOST_SHOWN: usize = 100;

/// The most links that are named.
const MOST_LINKS: u16 = 16;

/// Bytes as they can be shown: what is no character of ASCII as an escape, and the first 100 alone; where there are none, that.
#[derive(Clone, Copy)]
pub struct Quoted<'a>(pub &'a [u8]);

/// Writes one byte as it can be shown.
fn write_byte<W: fmt::Write>(f: &mut fmt::Formatter<W>, byte: u8) -> fmt::Result {
    match byte {
        b'\t' => f.write_str("\\t"),
        b'\r' => f.write_str("\\r"),
        b' '..=b'~' => f.write_char(char::from(byte)),
        _ => write!(f, "\\x{byte:02x}"),
    }
}

impl fmt::Display for Quoted<'_> {
    fn fmt<W: fmt::Write>(&self, f: &mut fmt::Formatter<W>) -> fmt::Result {
        if self.0.is_empty() {
            return f.write_str("(empty)");
        }
        for byte in self.0.iter().take(MOST_SHOWN) {
            write_byte(f, *byte)?;
        }
        if self.0.len() > MOST_SHOWN {
            f.write_str("..")?;
        }
        Ok(())
    }
}

/// A cause whose words need nothing from the text.
#[derive(Clone, Copy)]
pub struct Advice {
    found: &'static str,
    wanted: &'static str,
}

impl Advice {
    /// What was found, and what would be right.
    pub fn new(found: &'static str, wanted: &'static str) -> Advice {
        Advice { found, wanted }
    }
}

/// Why a text, a file or an edit is refused.
#[derive(Clone, Copy)]
pub enum Cause<'a> {
    /// What its words alone say.
    Plain(Advice),
    /// A line has another form.
    Slip(Slip<'a>),
    /// The cycle of a beat is outside the range of this first line.
    Range(&'a [u8]),
    /// A manager has no earlier line.
    Manager(&'a [u8]),
    /// A command announces more bytes than follow.
    Short {
        /// How many, as it is spelled.
        announced: &'a [u8],
        /// How many follow.
        behind: usize,
    },
    /// The topology has no such link.
    Link(&'a Topo),
    /// Another fragment of the link has a cycle of this one.
    Overlap(u32),
    /// Another region of the manager has an address of this one.
    Region(u8),
    /// Fewer edits were accepted than were asked for.
    Edits {
        /// The number that was asked for.
        asked: u64,
        /// How many were accepted.
        accepted: u64,
    },
}

/// The links of a topology by name, the first of them.
#[derive(Clone, Copy)]
struct Links<'a>(&'a Topo);

impl fmt::Display for Links<'_> {
    fn fmt<W: fmt::Write>(&self, f: &mut fmt::Formatter<W>) -> fmt::Result {
        for number in 0..MOST_LINKS {
            let Some(link) = self.0.link(number) else {
                return Ok(());
            };
            let between = if number == 0 { "" } else { ", " };
            let name = link.name;
            write!(f, "{between}{name}")?;
        }
        f.write_str(", ..")
    }
}

/// Writes how many fields a line has, and its form.
fn write_count<W: fmt::Write>(f: &mut fmt::Formatter<W>, found: usize, form: &Form) -> fmt::Result {
    let wanted = form.fields.len();
    let text = form.text;
    let field = if found == 1 { "field" } else { "fields" };
    write!(
        f,
        "  found: {found} {field}, not {wanted}\n  wanted: {text}\n"
    )
}

/// Writes what is wrong with a line of another form.
fn write_slip<W: fmt::Write>(f: &mut fmt::Formatter<W>, slip: &Slip<'_>) -> fmt::Result {
    match slip {
        Slip::Count { found, form } => write_count(f, *found, form),
        Slip::Field { field, own } => {
            let name = field.name;
            let flaw = slip.flaw();
            let spelling = field.spelling;
            let own = Quoted(own);
            write!(
                f,
                "  found: {name} '{own}' {flaw}\n  wanted: {name} as {spelling}\n"
            )
        }
    }
}

/// Writes why a line of a text is refused.
fn write_line_cause<W: fmt::Write>(f: &mut fmt::Formatter<W>, cause: &Cause<'_>) -> fmt::Result {
    match cause {
        Cause::Range(header) => {
            let header = Quoted(header);
            write!(
                f,
                "  found: a cycle outside the range of the first line\n  wanted: a cycle from FIRST to LAST of: {header}\n"
            )
        }
        Cause::Manager(name) => {
            let name = Quoted(name);
            write!(
                f,
                "  found: manager '{name}', which no earlier line declares\n  wanted: its line, manager NAME BLOCK, before this one\n"
            )
        }
        Cause::Short { announced, behind } => {
            let announced = Quoted(announced);
            write!(
                f,
                "  found: {behind} bytes after this line, not {announced}\n  wanted: as BYTES the size of the fragment (wc -c tells it)\n"
            )
        }
        _ => Ok(()),
    }
}

/// Writes why an edit is refused.
fn write_edit_cause<W: fmt::Write>(f: &mut fmt::Formatter<W>, cause: &Cause<'_>) -> fmt::Result {
    match cause {
        Cause::Link(topo) => {
            let links = Links(topo);
            write!(
                f,
                "  found: a link that the topology does not have\n  wanted: one of its links: {links}\n"
            )
        }
        Cause::Overlap(number) => write!(
            f,
            "  found: a range that shares a cycle with fragment {number} of its link\n  wanted: ranges that follow one another, such as 0 to 99, then 100 to 199\n"
        ),
        Cause::Region(number) => write!(
            f,
            "  found: addresses that region {number} of this manager has too\n  wanted: regions that share no address\n"
        ),
        Cause::Edits { asked, accepted } => write!(
            f,
            "  found: EDIT {asked}, but the script has {accepted} accepted edits\n  wanted: EDIT of at most {accepted}\n"
        ),
        _ => Ok(()),
    }
}

impl fmt::Display for Cause<'_> {
    fn fmt<W: fmt::Write>(&self, f: &mut fmt::Formatter<W>) -> fmt::Result {
        match self {
            Cause::Plain(Advice { found, wanted }) => {
                write!(f, "  found: {found}\n  wanted: {wanted}\n")
            }
            Cause::Slip(slip) => write_slip(f, slip),
            Cause::Range(_) | Cause::Manager(_) | Cause::Short { .. } => write_line_cause(f, self),
            Cause::Link(_) | Cause::Overlap(_) | Cause::Region(_) | Cause::Edits { .. } => {
                write_edit_cause(f, self)
            }
        }
    }
}
