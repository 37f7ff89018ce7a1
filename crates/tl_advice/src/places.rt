//! Where a fault is, and the whole sentence that tells of it.

use crate::causes::{Cause, Quoted};
use std::alloc::{AllocError, Global};
use std::fmt;

/// A line of a text.
#[derive(Clone, Copy)]
pub struct Line<'a> {
    /// Its number, from 1.
    pub number: u64,
    /// What it says, without its newline.
    pub text: &'a [u8],
}

/// Where in a file a fault is.
#[derive(Clone, Copy)]
pub enum Place<'a> {
    /// The file is at fault as a whole.
    File,
    /// In a line.
    Line(Line<'a>),
    /// In a command of a script.
    Command {
        /// Its number, from 1.
        command: u64,
        /// Its line.
        line: Line<'a>,
    },
    /// In the fragment that follows a command's line.
    Fragment {
        /// The number of the command, from 1.
        command: u64,
        /// The line of the command.
        line: Line<'a>,
        /// The line of the fragment.
        own: Line<'a>,
    },
}

/// How the first line of a sentence looks.
#[derive(Clone, Copy, Debug, PartialEq, Eq)]
pub enum Look {
    Plain,
    /// As a terminal shows it that takes colours.
    Bold,
}

impl Look {
    /// What a terminal is told before the line.
    fn front(self) -> &'static str {
        match self {
            Look::Plain => "",
            Look::Bold => "\x1b[1m",
        }
    }

    /// What a terminal is told after the line.
    fn back(self) -> &'static str {
        match self {
            Look::Plain => "",
            Look::Bold => "\x1b[0m",
        }
    }
}

/// A fault, as it is told to a person.
#[derive(Clone, Copy)]
pub struct Sentence<'a> {
    /// The file, as the words name it.
    pub path: &'a str,
    /// Where in the file.
    pub place: Place<'a>,
    /// Why.
    pub cause: Cause<'a>,
    /// The number of the refusal.
    pub code: u8,
    /// How its first line looks.
    pub look: Look,
}

/// Writes where the fault is, in one line without its newline.
fn write_place<W: fmt::Write>(
    f: &mut fmt::Formatter<W>,
    path: &str,
    place: &Place<'_>,
) -> fmt::Result {
    match place {
        Place::File => write!(f, "  {path}"),
        Place::Line(Line { number, text }) => {
            let text = Quoted(text);
            write!(f, "  {path} line {number}: {text}")
        }
        Place::Command { command, line } | Place::Fragment { command, line, .. } => {
            let number = line.number;
            let text = Quoted(line.text);
            write!(f, "  {path} line {number}, command {command}: {text}")
        }
    }
}

/// Writes the line of a fragment inside a script, where the fault is there.
fn write_own<W: fmt::Write>(f: &mut fmt::Formatter<W>, place: &Place<'_>) -> fmt::Result {
    match place {
        Place::Fragment { line, own, .. } => {
            let number = own.number;
            let behind = line.number.saturating_add(number);
            let text = Quoted(own.text);
            write!(
                f,
                "  line {number} of its fragment, line {behind} of the script: {text}\n"
            )
        }
        _ => Ok(()),
    }
}

impl fmt::Display for Sentence<'_> {
    fn fmt<W: fmt::Write>(&self, f: &mut fmt::Formatter<W>) -> fmt::Result {
        f.write_str(self.look.front())?;
        write_place(f, self.path, &self.place)?;
        f.write_str(self.look.back())?;
        f.write_str("\n")?;
        write_own(f, &self.place)?;
        let cause = self.cause;
        let more = More(self.code);
        write!(f, "{cause}{more}")
    }
}

/// The last line of a sentence.
#[derive(Clone, Copy)]
pub struct More(pub u8);

impl fmt::Display for More {
    fn fmt<W: fmt::Write>(&self, f: &mut fmt::Formatter<W>) -> fmt::Result {
        let code = self.0;
        write!(f, "  tlcheck explain {code} has more\n")
    }
}

impl More {
    /// The line as a text.
    pub fn text(&self, alloc: Global) -> Result<String, AllocError> {
        format!(in alloc; "{self}")
    }
}

impl Sentence<'_> {
    /// The sentence as a text.
    pub fn text(&self, alloc: Global) -> Result<String, AllocError> {
        format!(in alloc; "{self}")
    }
}
