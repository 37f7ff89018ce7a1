//! Many threads on one hall: editors, workers, a supervisor and a reader. Without words it has them call it a little, and tells the same
//! each time; `soak ROUNDS WORKERS` has so many rounds and workers. The status is 1 where a report was wrong, and 2 where the words are
//! none of these.
#![tactic(auto)]

mod capture;
mod course;
mod editors;
mod reader;
mod seat;
mod soak;
mod supervisor;
mod workers;

use crate::soak::{Plan, soak_by, try_soak};
use anyhow::Result;
use std::env;
use std::process::ExitCode;

/// The status where the words are none.
const BAD_WORDS: u8 = 2;

/// What the words ask for.
enum Asked {
    Little,
    Soak(Plan),
}

/// What some words ask for, of which the first is the program's own.
fn asked_by(words: &[String]) -> Option<Asked> {
    match words {
        [_] => Some(Asked::Little),
        [_, what, rounds, workers] if what.as_str() == "soak" => {
            Some(Asked::Soak(Plan::of(rounds.as_str(), workers.as_str())?))
        }
        _ => None,
    }
}

/// The status of a soak.
fn status_of(is_well: bool) -> ExitCode {
    if is_well {
        ExitCode::SUCCESS
    } else {
        ExitCode::FAILURE
    }
}

fn main(rt: HostRuntime) -> Result<ExitCode> {
    let words: Vec<String> = env::args(&rt)?.collect(rt.alloc())?;
    match asked_by(&words) {
        Some(Asked::Little) => Ok(status_of(try_soak(&rt)?)),
        Some(Asked::Soak(plan)) => Ok(status_of(soak_by(&rt, plan)?)),
        None => {
            eprintln!(&rt; "the words are none, or soak ROUNDS WORKERS")?;
            Ok(ExitCode::from(BAD_WORDS))
        }
    }
}
