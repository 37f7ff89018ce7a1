//! What is known of entries by their keys.

ghost use Rattle.std.specs.Prelude.{◌≡◌, ℕ, OnOk};
ghost use Rattle.tl_definitions.specs.Known.{Known as AnyKnown};
ghost use Rattle.tl_midway.specs.Known.{known_of};

use crate::known::Known;
use std::alloc::{AllocError, Global};
use tl_state::{BlockMap, Slots};

/// What is known of entries by source or by sink. Of a key that was never set, what was known first still is: that has no entry here.
#[derive(Drop)]
pub struct KnownTable<T: Copy + Drop> {
    entries: Slots<Known<T>>,
}

impl<T: Copy + Drop> KnownTable<T> {
    ghost use Rattle.tl_midway.specs.KnownTable.{known_at, IsSet};

    /// No key was set.
    pub fn new(alloc: Global) -> Self
        ensures { (first : AnyKnown T) (key : ℕ) → known_at result first key ≡ first }
    {
        KnownTable {
            entries: Slots::new(alloc),
        }
    }

    /// What is known of the key, where this was known of it first.
    pub fn get(&self, key: u16, first: Known<T>) -> Known<T>
        ensures { known_of result ≡ known_at self.now (known_of first) key }
    {
        self.entries.get(key).unwrap_or(first)
    }

    /// This is known of the key from now on. AllocError where memory is refused: then the table is for nothing more.
    pub fn set(&mut self, key: u16, known: Known<T>) -> Result<(), AllocError>
        ensures { OnOk result (IsSet self.old self.new key (known_of known)) }
    {
        self.entries.set(key, Some(known))?;
        Ok(())
    }
}

/// The same by block.
#[derive(Drop)]
pub struct KnownBlocks<T: Copy + Drop> {
    entries: BlockMap<Known<T>>,
}

impl<T: Copy + Drop> KnownBlocks<T> {
    ghost use Rattle.tl_midway.specs.KnownTable.{known_on, IsSetOn};

    /// No block was set.
    pub fn new(alloc: Global) -> Self
        ensures { (first : AnyKnown T) (block : ℕ) → known_on result first block ≡ first }
    {
        KnownBlocks {
            entries: BlockMap::new(alloc),
        }
    }

    /// What is known of the block, where this was known of it first.
    pub fn get(&self, block: u64, first: Known<T>) -> Known<T>
        ensures { known_of result ≡ known_on self.now (known_of first) block }
    {
        self.entries.get(block).unwrap_or(first)
    }

    /// This is known of the block from now on. AllocError where memory is refused: then the table is for nothing more.
    pub fn set(&mut self, block: u64, known: Known<T>) -> Result<(), AllocError>
        ensures { OnOk result (IsSetOn self.old self.new block (known_of known)) }
    {
        self.entries.set(block, Some(known))?;
        Ok(())
    }
}
