//! Room for the text of one file after another.

ghost use Rattle.std.specs.Prelude.{◌≤◌, ◌<◌, ◌^◌};

use std::alloc::{AllocError, Global};
use tl_text::{ByteIn, TextFault};

/// How many bytes it has room for at least.
const FIRST_BYTES: usize = 65_536;

/// Of a longer text it has room for a multiple of so many bytes. glibc maps these apart from other memory, so that beats beside them grow in
/// place.
const STEP: usize = 131_072;

/// The text of the last file that was read into it. Its room is used again for the next.
#[derive(Drop)]
pub struct Page {
    bytes: Vec<u8>,
    used: usize,
}

impl Page {
    /// It has no text.
    pub fn new(alloc: Global) -> Page {
        Page {
            bytes: Vec::new(alloc),
            used: 0,
        }
    }

    /// The text.
    pub fn text(&self) -> &[u8] {
        if self.used <= self.bytes.len() {
            &self.bytes[..self.used]
        } else {
            &[]
        }
    }

    /// Has room for a text of so many bytes, and for the byte more that a read wants to tell its end.
    fn widen(&mut self, bytes: usize) -> Result<(), AllocError> {
        let room = if bytes < FIRST_BYTES {
            FIRST_BYTES
        } else {
            (bytes / STEP).saturating_add(1).saturating_mul(STEP)
        };
        if self.bytes.len() < room {
            self.bytes.resize(room, 0)?;
        }
        Ok(())
    }

    /// Reads the input to its end, of at most so many bytes; so many are expected, which saves room. The faults are those of `read_text`;
    /// then the text is that of no file.
    pub fn fill<I: ByteIn>(
        &mut self,
        input: &mut I,
        expected: u64,
        limit: u64,
    ) -> Result<(), TextFault>
        requires limit { limit ≤ 2 ^ 32 }
        requires reads { I.read_count input.old < 2 ^ 63 }
        requires failures { I.failure_count input.old < 2 ^ 63 }
    {
        self.used = 0;
        self.widen(expected.min(limit) as usize)?;
        for _ in 0..=limit + 1 {
            if self.used >= self.bytes.len() {
                self.bytes.resize(self.used.saturating_mul(2), 0)?;
            }
            match input.read(&mut self.bytes[self.used..]) {
                Err(_) => return Err(TextFault::ReadFault),
                Ok(0) => return Ok(()),
                Ok(taken) => self.used = self.used.saturating_add(taken),
            }
            if self.used as u64 > limit {
                return Err(TextFault::TooLong);
            }
        }
        Err(TextFault::TooLong)
    }
}
