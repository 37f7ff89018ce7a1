//! The words that name a capture, and what of it is checked.

use crate::usage::{setting, word};
use crate::words::paths_asked;
use clap::{Arg, ArgAction, ArgMatches, Error};
use std::alloc::Global;

/// The files of a capture, and what of it is checked.
#[derive(Drop)]
pub struct Capture<'a> {
    /// The words that name the files of fragments.
    pub fragments: Vec<&'a str>,
    /// The names of the managers of which the links are checked; none are all.
    pub managers: Vec<&'a str>,
}

/// The word of fragments.
pub(crate) fn fragments<'a>(alloc: Global) -> Arg<'a> {
    word(
        alloc,
        "FRAGMENT",
        "Path of a fragment text, at most 8,388,608 bytes, each one edit; a folder stands for its files in order of name, @LIST for the \
paths in the file LIST, - for standard input",
    )
    .action(ArgAction::Append)
    .num_args(1..)
}

/// The option that names managers.
pub(crate) fn managers<'a>(alloc: Global) -> Arg<'a> {
    setting(
        alloc,
        "manager",
        "NAME",
        "Checks only the links of this manager, or of one of several, and passes over the fragments of others",
    )
    .action(ArgAction::Append)
}

/// The capture that words name.
pub(crate) fn capture_asked<'a>(
    alloc: Global,
    found: &ArgMatches<'a>,
) -> Result<Capture<'a>, Error> {
    Ok(Capture {
        fragments: paths_asked(alloc, found, "FRAGMENT")?,
        managers: paths_asked(alloc, found, "manager")?,
    })
}
