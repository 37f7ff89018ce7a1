//! The words of `stream`.

use crate::capture::managers;
use crate::midway::{midway_asked, midway_option};
use crate::usage::{Draft, setting};
use crate::words::{
    Command, described, explain_faults, paths_asked, show, topology, workers, workers_of,
};
use clap::{Arg, ArgAction, ArgMatches, Error};
use std::alloc::Global;
use tl_midway::Midway;

/// What is streamed, and how.
#[derive(Drop)]
pub struct StreamOptions<'a> {
    /// The words that name the inputs; none are standard input.
    pub inputs: Vec<&'a str>,
    /// The names of the managers of which the links are checked; none are all.
    pub managers: Vec<&'a str>,
    /// The path of a script of regions and monitors that stand before the first beat.
    pub setup: Option<&'a str>,
    /// How the capture begins, where it begins in the middle of a run.
    pub midway: Option<Midway>,
    /// Whether rows are shown.
    pub show: bool,
    /// Whether faults are told in sentences.
    pub explain_faults: bool,
    /// How many threads parse fragments beside the first, 0 to 16.
    pub workers: u8,
}

const EXAMPLE: &str =
    "Example: cat examples/one_cache.fragment | tlcheck stream examples/one_manager.topo";

fn inputs<'a>(alloc: Global) -> Arg<'a> {
    Arg::new(alloc, "FILE")
        .action(ArgAction::Append)
        .num_args(0..)
        .help(
            "Path of fragment texts one after another, of any length; a folder stands for its files in order of name, @LIST for the \
paths in the file LIST; standard input without one, or as -",
        )
}

fn stream_setup<'a>(alloc: Global) -> Arg<'a> {
    setting(
        alloc,
        "setup",
        "SCRIPT",
        "Carries out the commands region and attach of this script before the first beat",
    )
}

/// The command.
pub(crate) fn stream<'a>(alloc: Global) -> Draft<'a> {
    let about =
        "Checks fragments as they come and writes each row once it is certain, without an end";
    described(alloc, "stream", about, EXAMPLE)
        .arg(topology(alloc))
        .arg(inputs(alloc))
        .arg(workers(
            alloc,
            "How many threads parse fragments beside the first, 0 to 16; 0 without this option",
        ))
        .arg(stream_setup(alloc))
        .arg(managers(alloc))
        .arg(show(alloc))
        .arg(explain_faults(alloc))
        .arg(midway_option(alloc))
}

/// What its words ask for.
pub(crate) fn stream_asked<'a>(
    alloc: Global,
    found: &ArgMatches<'a>,
) -> Result<Command<'a>, Error> {
    Ok(Command::Stream {
        topology: found.get_str("TOPO").unwrap_or(""),
        options: StreamOptions {
            inputs: paths_asked(alloc, found, "FILE")?,
            managers: paths_asked(alloc, found, "manager")?,
            setup: found.get_str("setup"),
            midway: midway_asked(found),
            show: found.get_flag("show"),
            explain_faults: found.get_flag("explain-faults"),
            workers: workers_of(found),
        },
    })
}
