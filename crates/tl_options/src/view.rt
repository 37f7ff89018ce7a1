//! Which rows the words want to be written, and how.

use crate::usage::{Draft, setting};
use clap::builder::ValueParser;
use clap::error::ErrorKind;
use clap::{Arg, ArgAction, ArgMatches, Error};
use std::alloc::Global;
use tl_rows::{Cycles, Format, rule_named};
use tl_tables::Rule;

/// Which rows are to be written, and how.
#[derive(Drop)]
pub struct View<'a> {
    /// The format.
    pub format: Format,
    /// The rules; none are all.
    pub rules: Vec<Rule>,
    /// The names of the links; none are all.
    pub links: Vec<&'a str>,
    /// The cycles.
    pub cycles: Cycles,
    /// The path of a text of waivers.
    pub waive: Option<&'a str>,
}

impl View<'_> {
    /// Whether all rows are to be written, as text.
    pub fn is_whole(&self) -> bool {
        matches!(self.format, Format::Text | Format::Shown)
            && self.rules.is_empty()
            && self.links.is_empty()
            && self.cycles == Cycles::ALL
            && self.waive.is_none()
    }
}

/// The formats of rows.
const FORMATS: &[&str] = &["text", "json", "junit", "html"];

fn format_option<'a>(alloc: Global) -> Arg<'a> {
    setting(
        alloc,
        "format",
        "FORMAT",
        "Writes rows as text, as JSON, a line for each (json), as a JUnit report (junit) or as a page for a browser (html); text without this option",
    )
    .value_parser(FORMATS)
    .hide_possible_values(true)
}

fn rule_option<'a>(alloc: Global) -> Arg<'a> {
    setting(
        alloc,
        "rule",
        "RULE",
        "Writes only rows of this rule, named in any case, or of one of several",
    )
    .action(ArgAction::Append)
}

fn link_option<'a>(alloc: Global) -> Arg<'a> {
    setting(
        alloc,
        "link",
        "NAME",
        "Writes only rows of this link, or of one of several",
    )
    .action(ArgAction::Append)
}

fn cycle_option<'a>(alloc: Global, name: &'a str, help: &'a str) -> Arg<'a> {
    setting(alloc, name, "CYCLE", help).value_parser(ValueParser::unsigned(0, u64::MAX))
}

fn waive_option<'a>(alloc: Global) -> Arg<'a> {
    setting(
        alloc,
        "waive",
        "FILE",
        "Leaves out rows that a line of this file accepts: RULE LINK FROM TO and a reason",
    )
}

/// A command with what chooses the rows that are written, and how.
pub(crate) fn with_view<'a>(alloc: Global, command: Draft<'a>) -> Draft<'a> {
    command
        .arg(format_option(alloc))
        .arg(rule_option(alloc))
        .arg(link_option(alloc))
        .arg(cycle_option(
            alloc,
            "from",
            "Writes only rows of this cycle and those after it",
        ))
        .arg(cycle_option(
            alloc,
            "to",
            "Writes only rows of this cycle and those before it",
        ))
        .arg(waive_option(alloc))
}

/// The format that the words want.
fn format_asked(found: &ArgMatches<'_>) -> Format {
    match found.get_str("format").unwrap_or("").as_bytes() {
        b"json" => Format::Json,
        b"junit" => Format::Junit,
        b"html" => Format::Html,
        _ if found.get_flag("show") => Format::Shown,
        _ => Format::Text,
    }
}

/// What is told of words that are refused, with how the program is used.
pub(crate) fn refusal(program: &mut clap::Command<'_>, text: &str) -> Result<Error, Error> {
    Ok(program.error(ErrorKind::InvalidValue, text)?)
}

/// What is told of a word that is no rule.
fn unknown_rule(
    alloc: Global,
    program: &mut clap::Command<'_>,
    word: &str,
) -> Result<Error, Error> {
    let text = format!(in alloc; "'{word}' is no rule: tlcheck explain lists them")?;
    refusal(program, text.as_str())
}

/// The rule of a word; another word is refused.
pub(crate) fn rule_asked(
    alloc: Global,
    program: &mut clap::Command<'_>,
    word: &str,
) -> Result<Rule, Error> {
    match rule_named(word.as_bytes()) {
        Some(rule) => Ok(rule),
        None => Err(unknown_rule(alloc, program, word)?),
    }
}

/// The rules that the words name.
fn rules_asked<'a>(
    alloc: Global,
    program: &mut clap::Command<'a>,
    found: &ArgMatches<'a>,
) -> Result<Vec<Rule>, Error> {
    let mut rules = Vec::new(alloc);
    let Some(names) = found.get_strs("rule") else {
        return Ok(rules);
    };
    for name in names {
        rules.push(rule_asked(alloc, program, *name)?)?;
    }
    Ok(rules)
}

/// The links that the words name.
fn links_asked<'a>(alloc: Global, found: &ArgMatches<'a>) -> Result<Vec<&'a str>, Error> {
    let mut links = Vec::new(alloc);
    if let Some(names) = found.get_strs("link") {
        links.extend_from_slice(names)?;
    }
    Ok(links)
}

/// The cycles that the words name; where the first is above the last, they are refused.
fn cycles_asked<'a>(
    program: &mut clap::Command<'a>,
    found: &ArgMatches<'a>,
) -> Result<Cycles, Error> {
    let first = found.get_one("from").unwrap_or(Cycles::ALL.first);
    let last = found.get_one("to").unwrap_or(Cycles::ALL.last);
    if last < first {
        return Err(refusal(program, "the cycle of --from is after that of --to")?);
    }
    Ok(Cycles { first, last })
}

/// Which rows the words want, and how.
pub(crate) fn view_asked<'a>(
    alloc: Global,
    program: &mut clap::Command<'a>,
    found: &ArgMatches<'a>,
) -> Result<View<'a>, Error> {
    let cycles = cycles_asked(program, found)?;
    let rules = rules_asked(alloc, program, found)?;
    let links = links_asked(alloc, found)?;
    Ok(View {
        format: format_asked(found),
        rules,
        links,
        cycles,
        waive: found.get_str("waive"),
    })
}
