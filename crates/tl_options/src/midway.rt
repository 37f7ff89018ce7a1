//! The words for a capture that begins in the middle of a run.

use crate::usage::setting;
use clap::{Arg, ArgMatches};
use std::alloc::Global;
use tl_midway::Midway;

/// The words of the laws.
const LAWS: &[&str] = &["any", "bursts", "heads"];

/// The option that asks for the rows that stand whatever came before the capture.
pub(crate) fn midway_option<'a>(alloc: Global) -> Arg<'a> {
    setting(
        alloc,
        "midway",
        "LAW",
        "Writes only rows that stand whatever came before a capture from the middle of a run (any, the default), or if no burst that it cuts breaks U1 (bursts), or if it begins each channel with the head of a message (heads)",
    )
    .num_args(0..=1)
    .require_equals(true)
    .default_missing_value("any")
    .value_parser(LAWS)
    .hide_possible_values(true)
}

/// The law that the words ask for, if they ask for one.
pub(crate) fn midway_asked(found: &ArgMatches<'_>) -> Option<Midway> {
    match found.get_str("midway")?.as_bytes() {
        b"bursts" => Some(Midway::Bursts),
        b"heads" => Some(Midway::Heads),
        _ => Some(Midway::Any),
    }
}
