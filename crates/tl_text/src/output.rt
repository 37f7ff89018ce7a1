//! Bytes that go out.

ghost use Rattle.std.specs.Prelude.{◌≡◌, ◌+◌, ◌<◌, ◌≤◌, ◌^◌, ◌-◌, ℕ, List, Option, IfOk, OnOk, OnErr, length, take};
ghost use Rattle.std.specs.Io.KnownBytes.{Appends};
ghost use Rattle.tl_text.specs.Written.{Wrote};

use thiserror::Error;

/// The sink failed or took no byte; its count of failures has risen by one.
#[derive(Clone, Copy, Debug, PartialEq, Eq, Error)]
#[error("a write failed")]
pub struct WriteFault;

/// Bytes that go out, write by write, with a count of the writes that failed.
pub trait ByteOut {
    // The bytes that were written, where they are known.
    ghost contents: { Self → Option (List ℕ) };

    ghost failure_count: { Self → ℕ };

    /// Writes a front of the bytes, at least one of them, and tells how many. WriteFault where the sink failed or took
    /// none, with nothing written.
    fn write(&mut self, bytes: &[u8]) -> Result<usize, WriteFault>
        requires some { 0 < length bytes.now }
        requires failures { failure_count self.old < 2 ^ 64 - 1 }
        ensures bound { IfOk result (λ n. (0 < n) × (n ≤ length bytes.now)) }
        ensures wrote { Wrote (contents self.old) (contents self.new) result bytes.now }
        ensures ok { OnOk result (failure_count self.new ≡ failure_count self.old) }
        ensures err { OnErr result (failure_count self.new ≡ failure_count self.old + 1) };

    /// How many writes have failed.
    fn failures(&self) -> u64
        ensures { result ≡ failure_count self.now };
}

/// Writes all the bytes. WriteFault at the first write that fails: a front of the bytes has then been written.
pub fn write_all<O: ByteOut>(out: &mut O, bytes: &[u8]) -> Result<(), WriteFault>
    requires { O.failure_count out.old < 2 ^ 63 }
    ensures ok { OnOk result ((O.failure_count out.new ≡ O.failure_count out.old)
        × Appends (O.contents out.old) (O.contents out.new) bytes.now) }
    ensures err { OnErr result ((O.failure_count out.new ≡ O.failure_count out.old + 1)
        × ((n : ℕ) × (n ≤ length bytes.now) × Appends (O.contents out.old) (O.contents out.new) (take n bytes.now))) }
{
    let mut done = 0;
    while done < bytes.len() {
        done += out.write(&bytes[done..])?;
    }
    Ok(())
}
