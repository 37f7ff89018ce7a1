//! `once` of files, with `--show` or without, and nothing else: small enough to run from its source in about a minute. Until the program is
//! built, `./tlcheck` asks this one where it can.
#![tactic(auto)]

ghost use Rattle.std.specs.Prelude.{◌<◌, ◌^◌};

use std::alloc::{AllocError, Global};
use std::process::ExitCode;
use std::rt::Files;
use std::thread::Threads;
use std::{env, io};
use tl_check::{OnceFault, Plain, run_once_as};
use tl_files::{Fault, Untold, all_fragments_of, topology_of};
use tl_show::Shown;
use tl_text::{ByteOut, CountedWriter};
use tl_topology::Topo;

const FAULT: u8 = 2;

/// The status where the whole program is to answer. Nothing is written then.
const OTHER: u8 = 3;

/// What the words ask for.
#[derive(Clone, Copy)]
struct Asked<'a> {
    /// Whether rows have notes.
    show: bool,
    topology: &'a str,
    /// The words that stand for the files of fragments.
    fragments: &'a [&'a str],
}

/// Whether a word stands for files.
fn is_path(word: &str) -> bool {
    match word.as_bytes().first() {
        Some(first) => *first != b'-',
        None => false,
    }
}

/// What these words ask for, the first of which is the program's own; None where that isn't `once` of files.
fn asked_by<'a>(words: &'a [&'a str]) -> Option<Asked<'a>> {
    if words.get(1).copied() != Some("once") {
        return None;
    }
    let show = words.get(2).copied() == Some("--show");
    let paths = words.get(2 + usize::from(show)..)?;
    let (topology, fragments) = paths.split_first()?;
    if fragments.is_empty() || !paths.iter().all(|path| is_path(*path)) {
        return None;
    }
    Some(Asked {
        show,
        topology: *topology,
        fragments,
    })
}

/// Writes the report that is asked for, and answers the exit status.
fn report<R: Files + Threads + Sync + AllocGlobal + Clone + Drop, O: ByteOut>(
    rt: &R,
    asked: Asked<'_>,
    out: &mut O,
) -> Result<u8, Fault>
    requires { O.failure_count out.old < 2 ^ 63 }
{
    let alloc = rt.alloc();
    let topo = topology_of(rt, asked.topology)?;
    let fragments = all_fragments_of(rt, &topo, asked.fragments, &mut Untold)?;
    let rows = if asked.show {
        run_once_as(alloc, &topo, &fragments, &Shown, out)?
    } else {
        run_once_as(alloc, &topo, &fragments, &Plain, out)?
    };
    Ok(u8::from(rows > 0))
}

/// Does what the words ask for, and answers the exit status.
fn run<R: Files + Threads + Sync + AllocGlobal + Clone + Drop, O: ByteOut, E: ByteOut>(
    rt: &R,
    words: &[String],
    out: &mut O,
    err: &mut E,
) -> Result<u8, AllocError>
    requires out { O.failure_count out.old < 2 ^ 63 }
    requires err { E.failure_count err.old < 2 ^ 63 }
{
    let words: Vec<&str> = words.iter().map(|word| word.as_str()).collect(rt.alloc())?;
    let Some(asked) = asked_by(&words) else {
        return Ok(OTHER);
    };
    match report(rt, asked, out) {
        Ok(status) => Ok(status),
        // With notes, a fault is told with a sentence.
        Err(fault) if asked.show && fault != Fault::WRITE => Ok(OTHER),
        Err(fault) => {
            let _ = fault.tell(rt.alloc(), err);
            Ok(FAULT)
        }
    }
}

fn main(rt: HostRuntime) -> ExitCode {
    let Ok(args) = env::args(&rt) else {
        return ExitCode::from(OTHER);
    };
    let Ok(words) = args.collect::<Vec<String>>(rt.alloc()) else {
        return ExitCode::from(OTHER);
    };
    let mut out = CountedWriter::new(io::writer(&rt));
    let mut err = CountedWriter::new(rt.stderr());
    ExitCode::from(run(&rt, &words, &mut out, &mut err).unwrap_or(OTHER))
}
