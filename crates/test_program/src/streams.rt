//! A reader and a writer of one byte at a time, that fail.

use std::alloc::Global;
use std::io;
use std::io::{Read, Write};

/// Gives one byte of a text a read, and fails after so many.
#[derive(Drop)]
pub(crate) struct Breaking {
    pub(crate) text: &'static str,
    pub(crate) at: usize,
    pub(crate) fails_at: usize,
}

impl Read for Breaking {
    fn read(&mut self, buffer: &mut [u8]) -> io::Result<usize> {
        if self.at >= self.fails_at {
            return Err(io::ErrorKind::Other.into());
        }
        let (Some(byte), Some(place)) = (self.text.as_bytes().get(self.at), buffer.first_mut())
        else {
            return Ok(0);
        };
        *place = *byte;
        self.at += 1;
        Ok(1)
    }
}

/// How a writer that is full answers.
#[derive(Clone, Copy, PartialEq, Eq)]
pub(crate) enum Full {
    Fails,
    TakesNothing,
}

/// Takes one byte a write, until it is full.
#[derive(Drop)]
pub(crate) struct Narrow {
    pub(crate) bytes: Vec<u8>,
    room: usize,
    full: Full,
}

impl Write for Narrow {
    fn write(&mut self, bytes: &[u8]) -> io::Result<usize> {
        let Some(first) = bytes.first() else {
            return Ok(0);
        };
        if self.bytes.len() < self.room {
            self.bytes.push(*first)?;
            return Ok(1);
        }
        match self.full {
            Full::Fails => Err(io::ErrorKind::Other.into()),
            Full::TakesNothing => Ok(0),
        }
    }

    fn flush(&mut self) -> io::Result<()> {
        Ok(())
    }
}

pub(crate) fn writer_with(alloc: Global, room: usize, full: Full) -> Narrow {
    Narrow {
        bytes: Vec::new(alloc),
        room,
        full,
    }
}
