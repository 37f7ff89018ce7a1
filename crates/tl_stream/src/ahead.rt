//! Bytes of an input that were read ahead.

ghost use Rattle.std.specs.Prelude.{◌≡◌, ◌+◌, ◌<◌, ◌≤◌, ◌^◌, [], IfOk, OnOk, drop, length, true};
ghost use Rattle.std.specs.Result.{IsErrOf};
ghost use Rattle.std.specs.Io.KnownBytes.{Keeps, IsAtEnd};
ghost use Rattle.tl_stream.specs.Feeds.{all_left};

use std::alloc::Global;
use std::marker::Model;
use std::mem;
use tl_text::{ByteIn, TextFault};

/// How many bytes are asked for at once, for each thread that parses them.
const CHUNK: usize = 65_536;

/// Reads once more into room and puts what came after these bytes, and answers whether that was the end. ReadFault where the read
/// fails, Memory where memory is refused.
fn read_once<I: ByteIn>(
    bytes: &mut Vec<u8>,
    room: &mut [u8],
    input: &mut I,
) -> Result<bool, TextFault>
    requires room { 0 < length room.old }
    requires reads { I.read_count input.old < 2 ^ 63 }
    requires failures { I.failure_count input.old < 2 ^ 63 }
    ensures kept { OnOk result (Keeps (all_left bytes.old.items (I.remaining input.old)) (all_left bytes.new.items (I.remaining input.new))) }
    ensures grown { OnOk result (length bytes.old.items ≤ length bytes.new.items) }
    ensures end { IfOk result (λ is_end. is_end ≡ true → IsAtEnd (I.remaining input.new)) }
    ensures quiet { OnOk result (I.failure_count input.new ≡ I.failure_count input.old) }
    ensures counted { I.read_count input.new ≡ I.read_count input.old + 1 }
    ensures unread { IsErrOf result TextFault.ReadFault → (bytes.new.items ≡ bytes.old.items) × Keeps (I.remaining input.old) (I.remaining input.new)
        × (I.failure_count input.new ≡ I.failure_count input.old + 1) }
    ensures faults { IsErrOf result TextFault.TooLong → ⊥ }
{
    match input.read(room) {
        Err(_) => Err(TextFault::ReadFault),
        Ok(0) => Ok(true),
        Ok(taken) => {
            bytes.extend_from_slice(&room[..taken])?;
            Ok(false)
        }
    }
}

/// Leaves the bytes from a place on. They are copied into the spare vector, which takes the others' turn, or move to the front where
/// memory for that is refused.
fn close_up(bytes: &mut Vec<u8>, start: usize, spare: &mut Vec<u8>)
    requires { start ≤ length bytes.old.items }
    ensures { bytes.new.items ≡ drop start bytes.old.items }
{
    match start {
        0 => {}
        _ => {
            spare.clear();
            if spare.extend_from_slice(&bytes[start..]).is_ok() {
                mem::swap(bytes, spare);
            } else {
                bytes.drain(..start);
            }
        }
    }
}

/// The bytes of an input that were read, but for those that are done with.
#[derive(Drop)]
pub struct Ahead {
    bytes: Vec<u8>,
    // Where they begin.
    start: usize,
    // Where those that are left go before more are read.
    spare: Vec<u8>,
    // Where a read puts what it brings, where that is more than a chunk.
    room: Vec<u8>,
}

impl Model for Ahead {
    ghost use Rattle.std.specs.Prelude.{ℕ, List, drop, length, ◌≤◌};

    ghost Value = { List ℕ };

    ghost view = { λ a. drop a.start a.bytes.items };

    ghost invariant = { λ a. a.start ≤ length a.bytes.items };
}

impl Ahead {
    /// No bytes.
    pub fn new(alloc: Global) -> Ahead
        ensures { result ≡ [] }
    {
        Ahead::with_workers(alloc, 0)
    }

    /// No bytes. One read asks for so many more that so many threads can parse beside the one that reads, if memory is there.
    pub fn with_workers(alloc: Global, workers: u8) -> Ahead
        ensures { result ≡ [] }
    {
        let mut room = Vec::new(alloc);
        if workers > 0 {
            let _ = room.resize(CHUNK * (usize::from(workers) + 1), 0);
        }
        Ahead {
            bytes: Vec::new(alloc),
            start: 0,
            spare: Vec::new(alloc),
            room,
        }
    }

    /// The bytes.
    pub fn left(&self) -> &[u8]
        ensures { result.now ≡ self.now }
    {
        &self.bytes[self.start..]
    }

    /// Reads once more, and answers whether that was the end. ReadFault where the read fails, which changes nothing; Memory where
    /// memory is refused: what was read is then lost.
    pub fn read_more<I: ByteIn>(&mut self, input: &mut I) -> Result<bool, TextFault>
        requires reads { I.read_count input.old < 2 ^ 63 }
        requires failures { I.failure_count input.old < 2 ^ 63 }
        ensures kept { OnOk result (Keeps (all_left self.old (I.remaining input.old)) (all_left self.new (I.remaining input.new))) }
        ensures grown { OnOk result (length self.old ≤ length self.new) }
        ensures end { IfOk result (λ is_end. is_end ≡ true → IsAtEnd (I.remaining input.new)) }
        ensures quiet { OnOk result (I.failure_count input.new ≡ I.failure_count input.old) }
        ensures counted { I.read_count input.new ≡ I.read_count input.old + 1 }
        ensures unread { IsErrOf result TextFault.ReadFault → (self.new ≡ self.old) × Keeps (I.remaining input.old) (I.remaining input.new)
            × (I.failure_count input.new ≡ I.failure_count input.old + 1) }
        ensures faults { IsErrOf result TextFault.TooLong → ⊥ }
    {
        close_up(&mut self.bytes, self.start, &mut self.spare);
        self.start = 0;
        if self.room.is_empty() {
            read_once(&mut self.bytes, &mut [0u8; CHUNK], input)
        } else {
            read_once(&mut self.bytes, &mut self.room, input)
        }
    }

    /// Is done with the first so many of them.
    pub fn pass(&mut self, count: usize)
        requires { count ≤ length self.old }
        ensures { self.new ≡ drop count self.old }
    {
        self.start += count;
    }
}
