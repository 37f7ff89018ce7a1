//! `tlcheck`, a proved checker of recorded TileLink beats.
#![tactic(auto)]

use std::env::{Env, VarError};
use std::io::IsTerminal;
use std::process::ExitCode;
use std::{env, io};
use tl_cli::{Screen, refuse_words, run_words_at};
use tl_text::{CountedReader, CountedWriter};

/// The words of the command line. InvalidData where one is no UTF-8 text.
fn words<R: Env + AllocGlobal>(rt: &R) -> io::Result<Vec<String>> {
    let words = env::args(rt)?.collect(rt.alloc())?;
    Ok(words)
}

/// Whether the environment asks for no colours: NO_COLOR is set and not empty.
fn is_colorless<R: Env + AllocGlobal>(rt: &R) -> bool {
    match env::var(rt, "NO_COLOR") {
        Ok(value) => !value.is_empty(),
        Err(VarError::NotPresent) => false,
        Err(_) => true,
    }
}

/// What standard error is, which is a terminal or not.
fn screen<R: Env + AllocGlobal>(rt: &R, is_terminal: bool) -> Screen {
    if !is_terminal {
        Screen::None
    } else if is_colorless(rt) {
        Screen::Plain
    } else {
        Screen::Colored
    }
}

fn main(rt: HostRuntime) -> ExitCode {
    let screen = screen(&rt, rt.stderr().is_terminal());
    let mut err = CountedWriter::new(rt.stderr());
    let words = match words(&rt) {
        Ok(words) => words,
        Err(error) => return ExitCode::from(refuse_words(rt.alloc(), &mut err, &error)),
    };
    let mut input = CountedReader::new(rt.reader());
    let mut out = CountedWriter::new(io::writer(&rt));
    ExitCode::from(run_words_at(&rt, &words, &mut input, &mut out, &mut err, screen))
}
