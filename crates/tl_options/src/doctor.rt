//! The words of `doctor`.

use crate::capture::fragments;
use crate::usage::Draft;
use crate::words::{Command, described, explain_faults, paths_asked, topology};
use clap::{ArgMatches, Error};
use std::alloc::Global;

const EXAMPLE: &str =
    "Example: tlcheck doctor examples/one_manager.topo examples/one_cache.fragment";

/// The command.
pub(crate) fn doctor<'a>(alloc: Global) -> Draft<'a> {
    let about = "Says what looks wrong in a topology or in how a capture was made";
    described(alloc, "doctor", about, EXAMPLE)
        .arg(topology(alloc))
        .arg(fragments(alloc))
        .arg(explain_faults(alloc))
}

/// What its words ask for.
pub(crate) fn doctor_asked<'a>(
    alloc: Global,
    found: &ArgMatches<'a>,
) -> Result<Command<'a>, Error> {
    Ok(Command::Doctor {
        topology: found.get_str("TOPO").unwrap_or(""),
        fragments: paths_asked(alloc, found, "FRAGMENT")?,
        explain_faults: found.get_flag("explain-faults"),
    })
}
