//! A fragment's file in pieces, each of which has the first line, some of the beats, and the last line.

use crate::turns::hitch_of;
use std::alloc::Global;
use std::fs;
use std::io::Read;
use std::rt::Files;
use std::sync::Arc;
use tl_beats::{Fragment, parse_whole_fragment};
use tl_files::{Fault, is_passed};
use tl_pass::{Hitch, Supply};
use tl_stream::Sieve;

/// How many bytes are held of a file. Its beats then have less than 128 KiB, and glibc takes their memory again for the next ones.
const HELD_BYTES: usize = 32_768;

/// The last line of a fragment.
const END: [u8; 4] = *b"end\n";

/// A fragment's file, of which a part is held.
#[derive(Drop)]
pub struct FilePieces<'a, R: Files> {
    file: R::File,
    sieve: Sieve<'a>,
    /// The first line of the file, what was read and is in no piece so far, and room, of which the last line of a piece takes the end.
    held: Vec<u8>,
    used: usize,
    /// How many bytes the first line has, once it was read.
    head: usize,
    /// Whether the file is at its end, and whether the last piece was made.
    is_at_end: bool,
    is_done: bool,
}

impl<'a, R: Files + AllocGlobal> FilePieces<'a, R> {
    /// A file, of which nothing was read. A hitch where it can't be opened, or memory is refused.
    pub fn open(rt: &R, path: &str, sieve: Sieve<'a>) -> Result<FilePieces<'a, R>, Hitch> {
        let mut held = Vec::new(rt.alloc());
        held.resize(HELD_BYTES, 0)?;
        match fs::open(rt, path) {
            Ok(file) => Ok(FilePieces {
                file,
                sieve,
                held,
                used: 0,
                head: 0,
                is_at_end: false,
                is_done: false,
            }),
            Err(_) => Err(Hitch::Fault),
        }
    }

    /// Reads until there is room for the last line alone, or the file is at its end.
    fn fill(&mut self) -> Result<(), Hitch> {
        for _ in 0..=HELD_BYTES {
            let most = self.held.len().saturating_sub(END.len());
            if self.used >= most {
                return Ok(());
            }
            match self.file.read(&mut self.held[self.used..most]) {
                Ok(0) => {
                    self.is_at_end = true;
                    return Ok(());
                }
                Ok(taken) => self.used = self.used.saturating_add(taken),
                Err(_) => return Err(Hitch::Fault),
            }
        }
        Err(Hitch::Fault)
    }

    /// Finds the end of the first line, where that was not done before. A hitch where it isn't held.
    fn find_head(&mut self) -> Result<(), Hitch> {
        if self.head == 0 {
            let held = self.held.get(..self.used).unwrap_or(&[]);
            match held.iter().position(|byte| *byte == b'\n') {
                Some(place) => self.head = place + 1,
                None => return Err(Hitch::Fault),
            }
        }
        Ok(())
    }

    /// How many bytes of what is held come into the next piece: whole lines, of which none is the last of the file, or all.
    fn piece_bytes(&self) -> usize {
        if self.is_at_end {
            return self.used;
        }
        let end = self.used.saturating_sub(END.len());
        for back in 0..end {
            if let Some(b'\n') = self.held.get(end - back - 1) {
                return end - back;
            }
        }
        0
    }

    /// The fragment that so many bytes are. A hitch where they are none, or it is not checked.
    fn fragment(&self, alloc: Global, bytes: usize) -> Result<Arc<Fragment>, Hitch> {
        let text = self.held.get(..bytes).unwrap_or(&[]);
        if is_passed(alloc, self.sieve, text)? {
            return Err(Hitch::Fault);
        }
        match parse_whole_fragment(alloc, text) {
            Ok(fragment) => Ok(Arc::new(alloc, fragment)?),
            Err(fault) => Err(hitch_of(Fault::from(fault))),
        }
    }

    /// The fragment that so many bytes are with the last line after them, which takes the place of what is held there while it is parsed.
    fn ended(&mut self, alloc: Global, bytes: usize) -> Result<Arc<Fragment>, Hitch> {
        let mut line = END;
        let end = bytes.saturating_add(line.len());
        if end > self.held.len() {
            return Err(Hitch::Fault);
        }
        self.held[bytes..end].swap_with_slice(&mut line);
        let fragment = self.fragment(alloc, end);
        self.held[bytes..end].swap_with_slice(&mut line);
        fragment
    }

    /// Lets go of so many bytes, but for the first line.
    fn pass(&mut self, bytes: usize) {
        if self.head <= bytes && bytes <= self.used && self.used <= self.held.len() {
            self.held.copy_within(bytes..self.used, self.head);
            self.used = self.head + (self.used - bytes);
        }
    }
}

impl<'a, R: Files + AllocGlobal> Supply for FilePieces<'a, R> {
    ghost has_given = { λ _ _ _. Unit {0} };

    fn next(&mut self, alloc: Global) -> Result<Option<Arc<Fragment>>, Hitch> {
        if self.is_done {
            return Ok(None);
        }
        self.fill()?;
        self.find_head()?;
        let bytes = self.piece_bytes();
        if bytes <= self.head {
            return Err(Hitch::Fault);
        }
        let piece = if self.is_at_end {
            self.fragment(alloc, bytes)?
        } else {
            self.ended(alloc, bytes)?
        };
        self.pass(bytes);
        self.is_done = self.is_at_end;
        Ok(Some(piece))
    }
}
