//! The words of the command line.

use crate::capture::{Capture, capture_asked, fragments, managers};
use crate::doctor::{doctor, doctor_asked};
use crate::explain::entry_of;
use crate::merge::{merge, merge_asked};
use crate::midway::{midway_asked, midway_option};
use crate::picture::{Picture, picture_asked, view};
use crate::stream::{StreamOptions, stream, stream_asked};
use crate::usage::{Draft, flag, setting, word};
use crate::view::{View, refusal, view_asked, with_view};
use clap::builder::ValueParser;
use clap::error::ErrorKind;
use clap::{Arg, ArgAction, ArgMatches, Error};
use std::alloc::{AllocError, Global};
use tl_midway::Midway;

/// What `--deny` makes a fault.
#[derive(Clone, Copy)]
pub struct Deny {
    /// That an edit or a report is refused.
    pub refused: bool,
    /// That no beat is checked.
    pub empty: bool,
}

/// How a command is to be done.
#[derive(Clone, Copy)]
pub struct How {
    /// Whether rows are shown.
    pub show: bool,
    /// Whether faults are told in sentences.
    pub explain_faults: bool,
    /// What is a fault besides.
    pub deny: Deny,
    /// Whether what was checked and found is told at the end.
    pub summary: bool,
    /// Whether beats that rules leave unjudged are counted: that takes longer than judging, so only where a summary is asked for.
    pub unjudged: bool,
    /// How many threads work beside the first, 0 to 16.
    pub workers: u8,
    /// By which law rows stand of a capture from the middle of a run; None where the capture is a whole run's.
    pub midway: Option<Midway>,
}

/// What the words of `once` ask for.
#[derive(Drop)]
pub struct OnceWords<'a> {
    /// The path of the topology.
    pub topology: &'a str,
    /// The fragments.
    pub capture: Capture<'a>,
    /// How their report is made.
    pub how: How,
    /// Which rows are written.
    pub view: View<'a>,
}

/// What the words of `run` ask for.
#[derive(Clone, Copy)]
pub struct RunWords<'a> {
    /// The path of the topology.
    pub topology: &'a str,
    /// The path of the script, or `-`.
    pub script: &'a str,
    /// How it is run.
    pub how: How,
}

impl RunWords<'_> {
    /// Whether the script comes by standard input, command by command.
    pub fn comes(&self) -> bool {
        self.script == "-"
    }
}

/// What the words of `audit` ask for.
#[derive(Drop)]
pub struct AuditWords<'a> {
    /// The path of the topology.
    pub topology: &'a str,
    /// The path of the script.
    pub script: &'a str,
    /// How many of its accepted edits.
    pub edit: u64,
    /// How they are checked.
    pub how: How,
    /// Which rows are written.
    pub view: View<'a>,
}

/// What the words ask for.
#[derive(Drop)]
pub enum Command<'a> {
    /// No words: a topology and a script on standard input.
    Input,
    /// The report of fragments, from files.
    Once(OnceWords<'a>),
    /// The run of a script, from files.
    Run(RunWords<'a>),
    /// What the first edits of a script leave, from files.
    Audit(AuditWords<'a>),
    /// The rows of fragments as they come.
    Stream {
        topology: &'a str,
        options: StreamOptions<'a>,
    },
    /// The report of all managers, from files of reports of some.
    Merge {
        topology: &'a str,
        reports: Vec<&'a str>,
        explain_faults: bool,
    },
    /// What looks wrong in a topology or in how fragments were made, from files.
    Doctor {
        topology: &'a str,
        fragments: Vec<&'a str>,
        explain_faults: bool,
    },
    /// A row as a picture, from files.
    View {
        topology: &'a str,
        fragments: Vec<&'a str>,
        picture: Picture<'a>,
        explain_faults: bool,
    },
    /// The entry of a rule or of a refusal, or without one the first line of each.
    Explain {
        entry: Option<&'static str>,
    },
}

impl Command<'_> {
    /// How it is to be done; None where its words say nothing of that.
    fn how(&self) -> Option<How> {
        match self {
            Command::Once(words) => Some(words.how),
            Command::Run(words) => Some(words.how),
            Command::Audit(words) => Some(words.how),
            Command::Input
            | Command::Stream { .. }
            | Command::Merge { .. }
            | Command::Doctor { .. }
            | Command::View { .. }
            | Command::Explain { .. } => None,
        }
    }

    /// Whether its rows are to be shown.
    pub fn shows(&self) -> bool {
        match self {
            Command::Stream { options, .. } => options.show,
            _ => self.how().is_some_and(|how| how.show),
        }
    }

    /// Whether its faults are to be told in sentences.
    pub fn explains_faults(&self) -> bool {
        match self {
            Command::Stream { options, .. } => options.explain_faults,
            Command::Merge { explain_faults, .. }
            | Command::Doctor { explain_faults, .. }
            | Command::View { explain_faults, .. } => { *explain_faults }
            _ => self.how().is_some_and(|how| how.explain_faults),
        }
    }
}

/// The greatest number of an edit that words may name.
const MOST_EDIT: u64 = (1 << 63) - 1;

/// The most threads that work beside the first.
const MOST_WORKERS: u64 = 16;

pub(crate) fn topology<'a>(alloc: Global) -> Arg<'a> {
    word(
        alloc,
        "TOPO",
        "Path of the topology text, at most 1,048,576 bytes",
    )
}

fn script<'a>(alloc: Global) -> Arg<'a> {
    word(
        alloc,
        "SCRIPT",
        "Path of the script, at most 67,108,864 bytes",
    )
}

pub(crate) fn show<'a>(alloc: Global) -> Arg<'a> {
    flag(
        alloc,
        "show",
        "Puts after each row its beat in words and the earlier beat that makes it so",
    )
}

pub(crate) fn explain_faults<'a>(alloc: Global) -> Arg<'a> {
    flag(
        alloc,
        "explain-faults",
        "Says on standard error what is wrong in a file and what would be right, as at a terminal",
    )
}

/// What can be denied.
const DENIED: &[&str] = &["refused", "empty"];

fn denied<'a>(alloc: Global) -> Arg<'a> {
    setting(
        alloc,
        "deny",
        "WHAT",
        "Ends with status 2 where an edit or a report was refused (refused) or no beat was checked (empty)",
    )
    .action(ArgAction::Append)
    .value_parser(DENIED)
    .hide_possible_values(true)
}

fn summary<'a>(alloc: Global) -> Arg<'a> {
    flag(
        alloc,
        "summary",
        "Says on standard error how far a long run is, and after it what was checked and found, as at a terminal",
    )
}

/// A command with the options of how it is to be done.
fn with_how<'a>(alloc: Global, command: Draft<'a>) -> Draft<'a> {
    command
        .arg(show(alloc))
        .arg(explain_faults(alloc))
        .arg(summary(alloc))
        .arg(denied(alloc))
}

/// A command with these words in its help.
pub(crate) fn described<'a>(
    alloc: Global,
    name: &'a str,
    about: &'a str,
    example: &'a str,
) -> Draft<'a> {
    Draft::new(
        clap::Command::new(alloc, name)
            .about(about)
            .after_help(example),
    )
}

fn once<'a>(alloc: Global) -> Draft<'a> {
    let about = "Checks the fragments of a capture together and writes the report";
    let once = described(alloc, "once", about, ONCE_EXAMPLE)
        .arg(topology(alloc))
        .arg(fragments(alloc))
        .arg(workers(
            alloc,
            "How many threads read files and judge beside the first, 0 to 16; 0 without this option",
        ))
        .arg(managers(alloc));
    with_view(alloc, with_how(alloc, once)).arg(midway_option(alloc))
}

pub(crate) fn workers<'a>(alloc: Global, help: &'a str) -> Arg<'a> {
    setting(alloc, "workers", "N", help).value_parser(ValueParser::unsigned(0, MOST_WORKERS))
}

fn run_script<'a>(alloc: Global) -> Arg<'a> {
    word(
        alloc,
        "SCRIPT",
        "Path of the script, at most 67,108,864 bytes; - for standard input, of any length, each command of which is carried out as it \
comes",
    )
}

fn run<'a>(alloc: Global) -> Draft<'a> {
    let about = "Runs a script of edits and publishes, and writes what each comes to";
    let run = described(alloc, "run", about, RUN_EXAMPLE)
        .arg(topology(alloc))
        .arg(run_script(alloc))
        .arg(workers(
            alloc,
            "How many threads check windows beside the first, 0 to 16; 0 without this option, and with - for the script",
        ));
    with_how(alloc, run).arg(midway_option(alloc))
}

fn edit<'a>(alloc: Global) -> Arg<'a> {
    word(
        alloc,
        "EDIT",
        "How many accepted edits of the script to check, a whole number below 2^63",
    )
    .value_parser(ValueParser::unsigned(0, MOST_EDIT))
}

fn audit<'a>(alloc: Global) -> Draft<'a> {
    let about = "Checks anew what the first accepted edits of a script leave";
    let audit = described(alloc, "audit", about, AUDIT_EXAMPLE)
        .arg(topology(alloc))
        .arg(script(alloc))
        .arg(edit(alloc))
        .arg(workers(
            alloc,
            "How many threads judge beside the first, 0 to 16; 0 without this option",
        ));
    with_view(alloc, with_how(alloc, audit)).arg(midway_option(alloc))
}

fn entry<'a>(alloc: Global) -> Arg<'a> {
    Arg::new(alloc, "WORD").action(ArgAction::Set).help(
        "Name of a rule, in any case, or code of a refusal; without it all are listed, one line each",
    )
}

fn explain<'a>(alloc: Global) -> Draft<'a> {
    let about = "Says what a rule or a refusal means, and what to look at";
    described(alloc, "explain", about, EXPLAIN_EXAMPLE).arg(entry(alloc))
}

fn program<'a>(alloc: Global) -> Result<clap::Command<'a>, AllocError> {
    let program = clap::Command::new(alloc, "tlcheck")
        .about("Checks recorded beats of SiFive TileLink 1.8")
        .version(VERSION)
        .after_help(HELP)
        .subcommand_required(true);
    Draft::new(program)
        .subcommand(once(alloc))
        .subcommand(run(alloc))
        .subcommand(audit(alloc))
        .subcommand(stream(alloc))
        .subcommand(merge(alloc))
        .subcommand(doctor(alloc))
        .subcommand(view(alloc))
        .subcommand(explain(alloc))
        .finish()
}

const VERSION: &str = "0.1.0";

const ONCE_EXAMPLE: &str =
    "Example: tlcheck once examples/one_manager.topo examples/late_write_back.fragment";

const RUN_EXAMPLE: &str = "Example: tlcheck run examples/one_manager.topo examples/edits.script";

const AUDIT_EXAMPLE: &str =
    "Example: tlcheck audit examples/one_manager.topo examples/edits.script 2";

const EXPLAIN_EXAMPLE: &str = "Examples: tlcheck explain, tlcheck explain P2, tlcheck explain 12";

const HELP: &str =
    "tlcheck once TOPO FRAGMENT.. checks the fragments of a capture together, from files: TOPO is a topology text \
of at most 1,048,576 bytes, each FRAGMENT a fragment text of at most 8,388,608 bytes.\n\
tlcheck run TOPO SCRIPT runs a script of at most 67,108,864 bytes: edits of fragments, regions and monitors, and \
reports between them; with - for SCRIPT commands are carried out as they come. tlcheck audit TOPO SCRIPT EDIT checks anew what its first EDIT accepted edits leave.\n\
tlcheck stream TOPO [FILE..] checks fragments as they come: of each link with rising numbers and ranges, as long as they come.\n\
tlcheck merge TOPO REPORT.. makes one report of those that once --manager wrote of different managers.\n\
tlcheck doctor TOPO FRAGMENT.. says what looks wrong in a topology or in how the capture was made: status 1 where something does.\n\
tlcheck view TOPO FRAGMENT.. --row ROW draws a row of the report with the messages that led to it: status 0 where it is drawn.\n\
Without words tlcheck reads a topology and a script right after it from standard input, at most 67,108,864 bytes, \
and does as run.\n\n\
Exit status: 0 no rule is broken, 1 the last report has rows, 2 a fault, told on standard error as `tlcheck: CODE` \
or `tlcheck: CODE NUMBER`, or a script that stops, told as its last line on standard output; \
tlcheck explain CODE says more.\n\n\
Example: cat examples/one_manager.topo examples/edits.script | tlcheck";

/// Whether this is denied.
fn is_denied(found: &ArgMatches<'_>, what: &str) -> bool {
    match found.get_strs("deny") {
        Some(all) => all.iter().any(|word| *word == what),
        None => false,
    }
}

/// How the words want a command to be done.
fn how_asked(found: &ArgMatches<'_>, workers: u8) -> How {
    How {
        show: found.get_flag("show"),
        explain_faults: found.get_flag("explain-faults"),
        deny: Deny {
            refused: is_denied(found, "refused"),
            empty: is_denied(found, "empty"),
        },
        summary: found.get_flag("summary"),
        unjudged: found.get_flag("summary"),
        workers,
        midway: midway_asked(found),
    }
}

/// The paths or names that words have.
pub(crate) fn paths_asked<'a>(
    alloc: Global,
    found: &ArgMatches<'a>,
    name: &str,
) -> Result<Vec<&'a str>, Error> {
    let mut all = Vec::new(alloc);
    if let Some(paths) = found.get_strs(name) {
        all.extend_from_slice(paths)?;
    }
    Ok(all)
}

/// What the words of `once` ask for.
fn once_asked<'a>(
    alloc: Global,
    program: &mut clap::Command<'a>,
    found: &ArgMatches<'a>,
) -> Result<Command<'a>, Error> {
    let view = view_asked(alloc, program, found)?;
    let capture = capture_asked(alloc, found)?;
    Ok(Command::Once(OnceWords {
        topology: found.get_str("TOPO").unwrap_or(""),
        capture,
        how: how_asked(found, workers_of(found)),
        view,
    }))
}

/// The number of workers that words name.
pub(crate) fn workers_of(found: &ArgMatches<'_>) -> u8 {
    let workers = found.get_one("workers").unwrap_or(0);
    u8::try_from(workers).unwrap_or(0)
}

/// The number of workers that the words of `run` name; above 0 it is refused for a script from standard input.
fn workers_asked(program: &mut clap::Command<'_>, found: &ArgMatches<'_>) -> Result<u8, Error> {
    let workers = workers_of(found);
    if workers > 0 && found.get_str("SCRIPT") == Some("-") {
        return Err(refusal(program, "--workers wants the script in a file")?);
    }
    Ok(workers)
}

/// What the words of `run` ask for.
fn run_asked<'a>(
    program: &mut clap::Command<'a>,
    found: &ArgMatches<'a>,
) -> Result<Command<'a>, Error> {
    Ok(Command::Run(RunWords {
        topology: found.get_str("TOPO").unwrap_or(""),
        script: found.get_str("SCRIPT").unwrap_or(""),
        how: how_asked(found, workers_asked(program, found)?),
    }))
}

/// What the words of `audit` ask for.
fn audit_asked<'a>(
    alloc: Global,
    program: &mut clap::Command<'a>,
    found: &ArgMatches<'a>,
) -> Result<Command<'a>, Error> {
    let view = view_asked(alloc, program, found)?;
    Ok(Command::Audit(AuditWords {
        topology: found.get_str("TOPO").unwrap_or(""),
        script: found.get_str("SCRIPT").unwrap_or(""),
        edit: found.get_one("EDIT").unwrap_or(0),
        how: how_asked(found, workers_of(found)),
        view,
    }))
}

/// What is told of a word that `explain` doesn't know.
fn unknown_word(
    alloc: Global,
    program: &mut clap::Command<'_>,
    word: &str,
) -> Result<Error, Error> {
    let text = format!(in alloc; "'{word}' is no rule and no code of a refusal")?;
    refusal(program, text.as_str())
}

/// The entry that the words of `explain` name, or none; another word is refused.
fn explain_asked<'a>(
    alloc: Global,
    program: &mut clap::Command<'a>,
    found: &ArgMatches<'a>,
) -> Result<Command<'a>, Error> {
    let Some(word) = found.get_str("WORD") else {
        return Ok(Command::Explain { entry: None });
    };
    match entry_of(word) {
        Some(entry) => Ok(Command::Explain { entry: Some(entry) }),
        None => Err(unknown_word(alloc, program, word)?),
    }
}

/// What the words of the command with this name ask for.
fn command_named<'a>(
    alloc: Global,
    program: &mut clap::Command<'a>,
    name: &str,
    found: &ArgMatches<'a>,
) -> Result<Command<'a>, Error> {
    if name == "run" {
        run_asked(program, found)
    } else if name == "audit" {
        audit_asked(alloc, program, found)
    } else if name == "stream" {
        stream_asked(alloc, found)
    } else if name == "merge" {
        merge_asked(alloc, found)
    } else if name == "doctor" {
        doctor_asked(alloc, found)
    } else if name == "view" {
        picture_asked(alloc, program, found)
    } else if name == "explain" {
        explain_asked(alloc, program, found)
    } else {
        once_asked(alloc, program, found)
    }
}

/// The command that was found in the words.
fn command_found<'a>(
    alloc: Global,
    program: &mut clap::Command<'a>,
    matches: &ArgMatches<'a>,
) -> Result<Command<'a>, Error> {
    match matches.subcommand() {
        Some((name, found)) => command_named(alloc, program, name, found),
        None => Ok(Command::Input),
    }
}

/// The command that the program finds in the words.
fn command_of<'a>(
    alloc: Global,
    program: &mut clap::Command<'a>,
    words: &'a [String],
) -> Result<Command<'a>, Error> {
    let matches = program.try_get_matches_from_mut(words)?;
    command_found(alloc, program, &matches)
}

/// What there is to tell where words name no command.
#[derive(Drop)]
pub enum Told {
    /// Memory is refused.
    Memory,
    /// Help or the version, which the words ask for.
    Asked(String),
    /// Why the words are refused.
    Refused(String),
}

/// What clap tells.
fn told_by(alloc: Global, error: &Error) -> Told {
    if matches!(error.kind(), ErrorKind::OutOfMemory) {
        return Told::Memory;
    }
    match format!(in alloc; "{error}") {
        Ok(text) if error.use_stderr() => Told::Refused(text),
        Ok(text) => Told::Asked(text),
        Err(_) => Told::Memory,
    }
}

/// The command that the words name, or what clap tells.
fn command_in<'a>(alloc: Global, words: &'a [String]) -> Result<Command<'a>, Error> {
    let mut program = program(alloc)?;
    command_of(alloc, &mut program, words)
}

/// The command that the words name, the first of which is the program's own; or what there is to tell: help and the version where they
/// are asked for, why words are refused, or want of memory.
pub fn read_words<'a>(alloc: Global, words: &'a [String]) -> Result<Command<'a>, Told> {
    if words.len() <= 1 {
        return Ok(Command::Input);
    }
    match command_in(alloc, words) {
        Ok(command) => Ok(command),
        Err(error) => Err(told_by(alloc, &error)),
    }
}

/// What clap tells of words of which one is no UTF-8 text.
fn refused_text(alloc: Global) -> Result<Error, Error> {
    let mut program = program(alloc)?;
    refusal(&mut program, "a word is no UTF-8 text")
}

/// What there is to tell of words of which one is no UTF-8 text.
pub fn not_utf8(alloc: Global) -> Told {
    match refused_text(alloc) {
        Ok(error) => told_by(alloc, &error),
        Err(_) => Told::Memory,
    }
}
