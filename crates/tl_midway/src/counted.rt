//! What is known of entries by their keys, and on which blocks some are known to be open.

ghost use Rattle.std.specs.Prelude.{◌≡◌, ℕ, None, nat_lt, Option, OnOk};
ghost use Rattle.tl_definitions.specs.Known.{Known as AnyKnown};
ghost use Rattle.tl_midway.specs.Known.{known_of, opened, closed};
ghost use Rattle.tl_midway.specs.CountedTable.{open_block, IsSetTo, StaysCounted, KeepsCounts};

use crate::known::{Known, closed, opened};
use crate::table::KnownTable;
use std::alloc::{AllocError, Global};
use tl_client_rules::OpenBlocks;

/// What is known of entries by their keys, which are sources or sinks; and how many are known to be open on each block, so that
/// none is ever looked for among all. AllocError of a call: memory was refused, and the table is for nothing more.
#[derive(Drop)]
pub struct CountedTable<V: Copy + Drop> {
    entries: KnownTable<Option<V>>,
    /// Those that are known to be open with a block that is known.
    counted: OpenBlocks,
}

/// What is counted of an entry: its block, where it is known to be open and has one. So a message without a block takes no entry.
fn open_block<V: Copy>(entry: Known<Option<V>>, block: Option<u64>) -> Option<Option<u64>>
    ensures { result ≡ open_block (λ value. block) (known_of entry) }
{
    match entry {
        Known::Sure(Some(_)) => match block {
            Some(block) => Some(Some(block)),
            None => None,
        },
        Known::Sure(None) | Known::Unknown => None,
    }
}

impl<V: Copy + Drop> CountedTable<V> {
    ghost use Rattle.tl_midway.specs.CountedTable.{entry_known, IsCounted, open_count};

    /// No key was set.
    pub fn new(alloc: Global) -> Self
        ensures entries { (first : AnyKnown (Option V)) (key : ℕ) → entry_known result first key ≡ first }
        ensures counted { (block_of : V → Option ℕ) (first : ℕ → AnyKnown (Option V)) → ((key : ℕ) → open_block block_of (first key) ≡ None)
            → IsCounted block_of first result }
    {
        CountedTable {
            entries: KnownTable::new(alloc),
            counted: OpenBlocks::new(alloc),
        }
    }

    /// What is known of the key, where this was known of it first.
    pub fn get(&self, key: u16, first: Known<Option<V>>) -> Known<Option<V>>
        ensures { known_of result ≡ entry_known self.now (known_of first) key }
    {
        self.entries.get(key, first)
    }

    /// Whether an entry is known to be open on the block.
    pub fn is_open(&self, block: u64) -> bool
        ensures { result ≡ nat_lt 0 (open_count self.now block) }
    {
        self.counted.is_open(block)
    }

    /// This is known of the key from now on; where it is known to be open, on this block.
    fn set(
        &mut self,
        key: u16,
        entry: Known<Option<V>>,
        block: Option<u64>,
    ) -> Result<(), AllocError>
        ensures entries { OnOk result (IsSetTo self.old self.new key (known_of entry)) }
        ensures counted { OnOk result (StaysCounted block (known_of entry) self.old self.new) }
    {
        self.counted.set(key, open_block(entry, block))?;
        self.entries.set(key, entry)?;
        Ok(())
    }

    /// A message opens the key, and makes its entry this, of this block; or it may be a later beat.
    pub fn open(
        &mut self,
        certain: bool,
        key: u16,
        made: Known<Option<V>>,
        block: Option<u64>,
    ) -> Result<(), AllocError>
        ensures entries { OnOk result (IsSetTo self.old self.new key (opened certain (known_of made))) }
        ensures counted { OnOk result (StaysCounted block (known_of made) self.old self.new) }
    {
        self.set(key, opened(certain, made), block)?;
        Ok(())
    }

    /// A message closes the key, of which this was known first; or it may be a later beat.
    pub fn close(
        &mut self,
        certain: bool,
        key: u16,
        first: Known<Option<V>>,
    ) -> Result<(), AllocError>
        ensures entries { OnOk result (IsSetTo self.old self.new key (closed certain (entry_known self.old (known_of first) key))) }
        ensures counted { OnOk result (KeepsCounts self.old self.new) }
    {
        let old = self.get(key, first);
        self.set(key, closed(certain, old), None)?;
        Ok(())
    }
}
