//! The readers and writers of std, with their counts.

ghost use Rattle.std.specs.Prelude.{◌≡◌, ◌<◌};

use crate::input::{ByteIn, ReadFailed};
use crate::output::{ByteOut, WriteFault};
use std::io::{Read, Write};

/// A reader of std as a `ByteIn`.
#[derive(Drop)]
pub struct CountedReader<R: Read> {
    inner: R,
    reads: u64,
    failures: u64,
}

impl<R: Read> CountedReader<R> {
    /// The reader with both counts at 0.
    pub fn new(inner: R) -> Self
        ensures inner { result.inner ≡ inner }
        ensures reads { result.reads ≡ 0 }
        ensures failures { result.failures ≡ 0 }
    {
        CountedReader {
            inner,
            reads: 0,
            failures: 0,
        }
    }
}

impl<R: Read> ByteIn for CountedReader<R> {
    ghost remaining = { λ s. R.remaining s.inner };

    ghost read_count = { λ s. s.reads };

    ghost failure_count = { λ s. s.failures };

    fn read(&mut self, buffer: &mut [u8]) -> Result<usize, ReadFailed> {
        self.reads += 1;
        match self.inner.read(buffer) {
            Ok(taken) => Ok(taken),
            Err(_) => {
                self.failures += 1;
                Err(ReadFailed)
            }
        }
    }

    fn reads(&self) -> u64 {
        self.reads
    }

    fn failures(&self) -> u64 {
        self.failures
    }
}

/// A writer of std as a `ByteOut`. A write that takes no byte counts as a failure.
#[derive(Drop)]
pub struct CountedWriter<W: Write> {
    inner: W,
    failures: u64,
}

impl<W: Write> CountedWriter<W> {
    /// The writer with its count at 0.
    pub fn new(inner: W) -> Self
        ensures inner { result.inner ≡ inner }
        ensures failures { result.failures ≡ 0 }
    {
        CountedWriter { inner, failures: 0 }
    }
}

impl<W: Write> ByteOut for CountedWriter<W> {
    ghost contents = { λ s. W.contents s.inner };

    ghost failure_count = { λ s. s.failures };

    fn write(&mut self, bytes: &[u8]) -> Result<usize, WriteFault> {
        match self.inner.write(bytes) {
            Ok(taken) if taken > 0 => Ok(taken),
            _ => {
                self.failures += 1;
                Err(WriteFault)
            }
        }
    }

    fn failures(&self) -> u64 {
        self.failures
    }
}
