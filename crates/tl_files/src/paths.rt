//! The files that paths stand for.

ghost use Rattle.std.specs.Prelude.{◌≤◌, ◌^◌};

use crate::fault::Fault;
use std::alloc::{AllocError, Global};
use std::rt::Files;
use std::{fs, io, str};
use tl_text::{CountedReader, read_text};

/// The most bytes of a list of paths.
const MOST_LIST: u64 = 67_108_864;

/// The file that standard input is.
const STANDARD_INPUT: &str = "/dev/stdin";

/// Why a file or folder can't be had.
fn fault_of(error: &io::Error) -> Fault {
    match error.kind() {
        io::ErrorKind::OutOfMemory => Fault::MEMORY,
        _ => Fault::FILE,
    }
}

/// Puts a path after others.
fn push_path(alloc: Global, path: &str, all: &mut Vec<String>) -> Result<(), AllocError> {
    all.push(String::from_str(alloc, path)?)?;
    Ok(())
}

/// Puts an entry of a folder after others, if its name does not begin with a dot.
fn push_entry<R: Files + AllocGlobal + Clone + Drop>(
    rt: &R,
    entry: &fs::DirEntry<R, Global>,
    all: &mut Vec<String>,
) -> Result<(), AllocError> {
    if entry.file_name().starts_with('.') {
        return Ok(());
    }
    push_path(rt.alloc(), entry.path().to_string_lossy(), all)
}

/// The files of a folder, in the order of their names; those whose names begin with a dot are left out. FILE where it has none.
fn folder_paths<R: Files + AllocGlobal + Clone + Drop>(
    rt: &R,
    path: &str,
) -> Result<Vec<String>, Fault> {
    let mut all = Vec::new(rt.alloc());
    let entries = match fs::read_dir(rt, path) {
        Ok(entries) => entries,
        Err(error) => return Err(fault_of(&error)),
    };
    for entry in entries {
        match entry {
            Ok(entry) => push_entry(rt, &entry, &mut all)?,
            Err(error) => return Err(fault_of(&error)),
        }
    }
    if all.is_empty() {
        return Err(Fault::FILE);
    }
    all.sort()?;
    Ok(all)
}

/// Whether a path is a folder's.
fn is_folder<R: Files + AllocGlobal>(rt: &R, path: &str) -> bool {
    match fs::metadata(rt, path) {
        Ok(found) => found.is_dir(),
        Err(_) => false,
    }
}

/// Puts the files that a path stands for after others: those of a folder, standard input for `-`, or its own.
fn push_files<R: Files + AllocGlobal + Clone + Drop>(
    rt: &R,
    path: &str,
    all: &mut Vec<String>,
) -> Result<(), Fault> {
    if path == "-" {
        push_path(rt.alloc(), STANDARD_INPUT, all)?;
    } else if is_folder(rt, path) {
        let mut files = folder_paths(rt, path)?;
        all.append(&mut files)?;
    } else {
        push_path(rt.alloc(), path, all)?;
    }
    Ok(())
}

/// The text of a list of paths.
fn list_text<R: Files + AllocGlobal>(rt: &R, path: &str) -> Result<Vec<u8>, Fault> {
    let Ok(file) = fs::open(rt, path) else {
        return Err(Fault::FILE);
    };
    let text = read_text(rt.alloc(), &mut CountedReader::new(file), MOST_LIST)?;
    Ok(text)
}

/// Puts the files that the lines of a list stand for after others. Empty lines are passed over.
fn push_lines<R: Files + AllocGlobal + Clone + Drop>(
    rt: &R,
    text: &[u8],
    all: &mut Vec<String>,
) -> Result<(), Fault> {
    let Ok(text) = str::from_utf8(text) else {
        return Err(Fault::FILE);
    };
    for line in text.lines() {
        if !line.is_empty() {
            push_files(rt, line, all)?;
        }
    }
    Ok(())
}

/// Puts the files that the lines of a list's file stand for after others. FILE where there is none.
fn push_list<R: Files + AllocGlobal + Clone + Drop>(
    rt: &R,
    path: &str,
    all: &mut Vec<String>,
) -> Result<(), Fault> {
    let before = all.len();
    let text = list_text(rt, path)?;
    push_lines(rt, &text, all)?;
    if all.len() == before {
        return Err(Fault::FILE);
    }
    Ok(())
}

/// The list that a word of the command line names, if it names one: that of `@LIST` is LIST.
pub fn list_of(word: &str) -> Option<&str> {
    word.strip_prefix('@')
}

/// The files that a word of the command line stands for: those of a folder in the order of their names, those of the lines of LIST for
/// `@LIST`, standard input for `-`, or its own. FILE where a folder or a list can't be read, or has no file.
pub fn files_of<R: Files + AllocGlobal + Clone + Drop>(
    rt: &R,
    word: &str,
) -> Result<Vec<String>, Fault> {
    let mut all = Vec::new(rt.alloc());
    match list_of(word) {
        Some(list) => push_list(rt, list, &mut all)?,
        None => push_files(rt, word, &mut all)?,
    }
    Ok(all)
}
