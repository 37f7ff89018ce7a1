//! Files read one after another as one input.

ghost use Rattle.std.specs.Prelude.{◌≤◌};

use crate::fault::Fault;
use std::fs;
use std::io::{self, Read};
use std::rt::Files;

/// Files that are read one after another, each opened once the one before it is at its end.
#[derive(Drop)]
pub struct Chain<'a, R: Files> {
    files: &'a R,
    file: Option<R::File>,
    // Those that are to come, the next one last.
    paths: Vec<String>,
}

impl<'a, R: Files> Chain<'a, R> {
    /// These files, of which the first is opened. FILE where it can't be.
    pub fn new(files: &'a R, mut paths: Vec<String>) -> Result<Chain<'a, R>, Fault> {
        paths.reverse();
        let file = match paths.pop() {
            Some(path) => Some(opened(files, path.as_str())?),
            None => None,
        };
        Ok(Chain { files, file, paths })
    }
}

/// The file at a path, opened.
fn opened<R: Files>(files: &R, path: &str) -> Result<R::File, Fault> {
    match fs::open(files, path) {
        Ok(file) => Ok(file),
        Err(_) => Err(Fault::FILE),
    }
}

impl<'a, R: Files> Read for Chain<'a, R> {
    fn read(&mut self, buf: &mut [u8]) -> io::Result<usize> {
        if buf.is_empty() {
            return Ok(0);
        }
        if let Some(file) = &mut self.file {
            let taken = file.read(buf)?;
            if taken > 0 {
                return Ok(taken);
            }
        }
        self.file = None;
        for _ in 0..self.paths.len() {
            let Some(path) = self.paths.pop() else {
                return Ok(0);
            };
            let mut file = fs::open(self.files, path.as_str())?;
            let taken = file.read(buf)?;
            if taken > 0 {
                self.file = Some(file);
                return Ok(taken);
            }
        }
        Ok(0)
    }
}
