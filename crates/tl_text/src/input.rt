//! Bytes that come in.

ghost use Rattle.std.specs.Prelude.{◌≡◌, ◌↔◌, ◌+◌, ◌-◌, ◌<◌, ◌≤◌, ◌^◌, ℕ, List, Option, Some, IfOk, OnOk, OnErr, length, IfSome};
ghost use Rattle.std.specs.Result.{IsErrOf};
ghost use Rattle.std.specs.Io.KnownBytes.{ReadConsumes};
ghost use Rattle.tl_text.specs.declared.input.TextFault.TheVariants.{Memory};

use std::alloc::{AllocError, Global};
use thiserror::Error;

/// The source's own error, which only its count of failures tells of.
#[derive(Clone, Copy, Debug, PartialEq, Eq, Error)]
#[error("a read failed")]
pub struct ReadFailed;

/// Bytes that come in, read by read, with counts of the reads and of those that failed.
pub trait ByteIn {
    // The bytes that reads will give from here on, where they are known.
    ghost remaining: { Self → Option (List ℕ) };

    ghost read_count: { Self → ℕ };

    ghost failure_count: { Self → ℕ };

    /// Reads bytes into a front of the buffer and tells how many; 0 is the end of the input, where the buffer has room.
    fn read(&mut self, buffer: &mut [u8]) -> Result<usize, ReadFailed>
        requires reads { read_count self.old < 2 ^ 64 - 1 }
        requires failures { failure_count self.old < 2 ^ 64 - 1 }
        ensures bound { IfOk result (λ n. n ≤ length buffer.new) }
        ensures bytes { ReadConsumes (remaining self.old) (remaining self.new) result buffer.new }
        ensures counted { read_count self.new ≡ read_count self.old + 1 }
        ensures ok { OnOk result (failure_count self.new ≡ failure_count self.old) }
        ensures err { OnErr result (failure_count self.new ≡ failure_count self.old + 1) };

    /// How many reads there have been.
    fn reads(&self) -> u64
        ensures { result ≡ read_count self.now };

    /// How many reads have failed.
    fn failures(&self) -> u64
        ensures { result ≡ failure_count self.now };
}

/// Why a text was not read to its end. What was read is lost.
#[derive(Clone, Copy, Debug, PartialEq, Eq, Error)]
pub enum TextFault {
    /// A read failed.
    #[error("a read failed")]
    ReadFault,
    /// More bytes came than the limit.
    #[error("the text is longer than its limit")]
    TooLong,
    /// A growth was refused.
    #[error("out of memory")]
    Memory,
}

impl From<AllocError> for TextFault {
    ghost from_gives = { λ _ e. e ≡ Memory };

    fn from(_error: AllocError) -> TextFault {
        TextFault::Memory
    }
}

const CHUNK: usize = 16384;

/// Reads to the end of the input, of at most `limit` bytes, in at most `limit + 2` reads. ReadFault exactly where a read
/// failed; TooLong only where more than `limit` bytes came; Memory else, where a growth was refused.
pub fn read_text<I: ByteIn>(alloc: Global, input: &mut I, limit: u64) -> Result<Vec<u8>, TextFault>
    requires limit { limit ≤ 2 ^ 32 }
    requires reads { I.read_count input.old < 2 ^ 63 }
    requires failures { I.failure_count input.old < 2 ^ 63 }
    ensures ok { IfOk result (λ all. (length all.items ≤ limit) × IfSome (I.remaining input.old) (λ bytes. all.items ≡ bytes)) }
    ensures too_long { IsErrOf result TextFault.TooLong → IfSome (I.remaining input.old) (λ bytes. limit < length bytes) }
    ensures failed { IsErrOf result TextFault.ReadFault ↔ (I.failure_count input.old < I.failure_count input.new) }
    ensures quiet { OnOk result (I.failure_count input.new ≡ I.failure_count input.old) }
    ensures reads { I.read_count input.new ≤ I.read_count input.old + limit + 2 }
{
    let mut all = Vec::new(alloc);
    let mut chunk = [0u8; CHUNK];
    for _ in 0..=limit + 1 {
        match input.read(&mut chunk) {
            Err(_) => return Err(TextFault::ReadFault),
            Ok(0) => return Ok(all),
            Ok(taken) => {
                if all.len() + taken > limit as usize {
                    return Err(TextFault::TooLong);
                }
                all.extend_from_slice(&chunk[..taken])?;
            }
        }
    }
    unreachable!()
}
