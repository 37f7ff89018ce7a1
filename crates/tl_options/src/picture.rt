//! The words of `view`.

use crate::capture::fragments;
use crate::usage::{Draft, setting};
use crate::view::{refusal, rule_asked};
use crate::words::{Command, described, explain_faults, paths_asked, topology};
use clap::{Arg, ArgMatches, Error};
use std::alloc::Global;
use tl_rows::{Drawing, RowName};

/// Which row is drawn, and as what.
#[derive(Clone, Copy)]
pub struct Picture<'a> {
    /// The name of its link.
    pub link: &'a str,
    /// Its name there.
    pub row: RowName,
    /// What it is drawn as.
    pub drawing: Drawing,
    /// The path of the file that is written; without one, standard output.
    pub out: Option<&'a str>,
}

const EXAMPLE: &str =
    "Example: tlcheck view examples/one_manager.topo examples/late_write_back.fragment --row 'cpu0 1 21 P2'";

fn row_option<'a>(alloc: Global) -> Arg<'a> {
    setting(
        alloc,
        "row",
        "ROW",
        "The row, as the report writes it: LINK FRAGMENT LINE RULE, as one word of the shell",
    )
    .required(true)
}

fn out_option<'a>(alloc: Global) -> Arg<'a> {
    setting(
        alloc,
        "out",
        "FILE",
        "Writes a file, by its end: .txt, .svg for an image, or .vcd for a waveform, with a savefile for GTKWave beside it; text on \
standard output without this option",
    )
}

/// The command.
pub(crate) fn view<'a>(alloc: Global) -> Draft<'a> {
    let about = "Draws a row: the messages from the earlier beat that makes it so to its own";
    described(alloc, "view", about, EXAMPLE)
        .arg(topology(alloc))
        .arg(fragments(alloc))
        .arg(row_option(alloc))
        .arg(out_option(alloc))
        .arg(explain_faults(alloc))
}

/// A row as its words have it.
#[derive(Clone, Copy)]
struct RowWords<'a> {
    link: &'a str,
    fragment: u32,
    line: u32,
    rule: &'a str,
}

/// The words of a row, if these are some.
fn row_words(text: &str) -> Option<RowWords<'_>> {
    let mut words = text.split_whitespace();
    let link = words.next()?;
    let fragment = words.next()?.parse::<u32>().ok()?;
    let line = words.next()?.parse::<u32>().ok()?;
    let rule = words.next()?;
    if words.next().is_some() {
        return None;
    }
    Some(RowWords {
        link,
        fragment,
        line,
        rule,
    })
}

/// What is told of words that are no row.
fn no_row(alloc: Global, program: &mut clap::Command<'_>, text: &str) -> Result<Error, Error> {
    let text = format!(in alloc;
        "'{text}' is no row: LINK FRAGMENT LINE RULE, as the report writes it"
    )?;
    refusal(program, text.as_str())
}

/// The words of the row; others are refused.
fn words_asked<'a>(
    alloc: Global,
    program: &mut clap::Command<'a>,
    text: &'a str,
) -> Result<RowWords<'a>, Error> {
    match row_words(text) {
        Some(words) => Ok(words),
        None => Err(no_row(alloc, program, text)?),
    }
}

/// What is drawn in a file, by the end of its name.
fn drawing_at(path: &str) -> Option<Drawing> {
    if path.ends_with(".txt") {
        Some(Drawing::Ladder)
    } else if path.ends_with(".svg") {
        Some(Drawing::Image)
    } else if path.ends_with(".vcd") {
        Some(Drawing::Waveform)
    } else {
        None
    }
}

/// What is drawn in a file, or on standard output without one; a file with another end is refused.
fn drawing_asked(program: &mut clap::Command<'_>, out: Option<&str>) -> Result<Drawing, Error> {
    let Some(path) = out else {
        return Ok(Drawing::Ladder);
    };
    match drawing_at(path) {
        Some(drawing) => Ok(drawing),
        None => Err(refusal(
            program,
            "--out wants a FILE that ends in .txt, .svg or .vcd",
        )?),
    }
}

/// What its words ask for.
pub(crate) fn picture_asked<'a>(
    alloc: Global,
    program: &mut clap::Command<'a>,
    found: &ArgMatches<'a>,
) -> Result<Command<'a>, Error> {
    let words = words_asked(alloc, program, found.get_str("row").unwrap_or(""))?;
    let rule = rule_asked(alloc, program, words.rule)?;
    let out = found.get_str("out");
    let drawing = drawing_asked(program, out)?;
    let picture = Picture {
        link: words.link,
        row: RowName {
            fragment: words.fragment,
            line: words.line,
            rule,
        },
        drawing,
        out,
    };
    Ok(Command::View {
        topology: found.get_str("TOPO").unwrap_or(""),
        fragments: paths_asked(alloc, found, "FRAGMENT")?,
        picture,
        explain_faults: found.get_flag("explain-faults"),
    })
}
