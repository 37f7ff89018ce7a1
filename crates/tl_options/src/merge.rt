//! The words of `merge`.

use crate::usage::{Draft, word};
use crate::words::{Command, described, explain_faults, paths_asked, topology};
use clap::{Arg, ArgAction, ArgMatches, Error};
use std::alloc::Global;

const EXAMPLE: &str =
    "Example: tlcheck merge examples/two_managers.topo examples/m0.report examples/m1.report";

fn reports<'a>(alloc: Global) -> Arg<'a> {
    word(
        alloc,
        "REPORT",
        "Path of a report that once --manager wrote, all of them as text or all as JSON; a folder stands for its files in order of name, \
@LIST for the paths in the file LIST, - for standard input",
    )
    .action(ArgAction::Append)
    .num_args(1..)
}

/// The command.
pub(crate) fn merge<'a>(alloc: Global) -> Draft<'a> {
    let about = "Makes one report of the reports of different managers";
    described(alloc, "merge", about, EXAMPLE)
        .arg(topology(alloc))
        .arg(reports(alloc))
        .arg(explain_faults(alloc))
}

/// What its words ask for.
pub(crate) fn merge_asked<'a>(alloc: Global, found: &ArgMatches<'a>) -> Result<Command<'a>, Error> {
    Ok(Command::Merge {
        topology: found.get_str("TOPO").unwrap_or(""),
        reports: paths_asked(alloc, found, "REPORT")?,
        explain_faults: found.get_flag("explain-faults"),
    })
}
