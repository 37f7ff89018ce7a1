//! The blocks of what is open, by its key, and how many are open on each.

ghost use Rattle.std.specs.Prelude.{◌≡◌, ℕ, ◌+◌, ◌-◌, ◌==◌, None, Some, IfOk, OnOk, OnErr, IsSome, nat_lt, if◌then◌else◌};
ghost use Rattle.std.specs.Bool.{Decides};
ghost use Rattle.tl_definitions.specs.OpenTables.{one_if, passes};
ghost use Rattle.tl_definitions.specs.Past.{grants_block};

use crate::counts::Counts;
use std::alloc::{AllocError, Global};
use tl_state::Slots;

/// What is open by key, as a source or a sink, with its block; and how many are open on each block, so that none is ever
/// looked for among all.
#[derive(Drop)]
pub struct OpenBlocks {
    /// The block of what is open on a key; None where the block is not known, or what is open has none.
    blocks: Slots<Option<u64>>,
    counts: Counts,
}

/// The block that is known of an entry.
fn known_block(entry: Option<Option<u64>>) -> Option<u64>
    ensures same { (block : ℕ) → grants_block block result ≡ passes (grants_block block) entry }
    ensures wanted { IsSome result → IsSome entry }
{
    match entry {
        Some(block) => block,
        None => None,
    }
}

impl OpenBlocks {
    ghost use Rattle.tl_client_rules.specs.OpenBlocks.{block_at, open_on, SameBlocks};

    /// Nothing is open.
    pub fn new(alloc: Global) -> OpenBlocks
        ensures blocks { (key : ℕ) → block_at result key ≡ None }
        ensures counts { (block : ℕ) → open_on result block ≡ 0 }
    {
        OpenBlocks {
            blocks: Slots::new(alloc),
            counts: Counts::new(alloc),
        }
    }

    /// Whether something is open on the block.
    #[inline(always)]
    pub fn is_open(&self, block: u64) -> bool
        ensures { result ≡ nat_lt 0 (open_on self.now block) }
    {
        self.counts.is_open(block)
    }

    /// The key has this open from now on, or nothing. Only where something is opened can there be no memory, and then nothing
    /// has changed.
    #[inline(always)]
    pub fn set(&mut self, key: u16, entry: Option<Option<u64>>) -> Result<(), AllocError>
        ensures blocks { OnOk result ((other : ℕ) → block_at self.new other ≡ (if key == other then entry else block_at self.old other)) }
        ensures counts { OnOk result ((block : ℕ) → open_on self.new block
            ≡ one_if (passes (grants_block block) entry) + (open_on self.old block - one_if (passes (grants_block block) (block_at self.old key)))) }
        ensures err_blocks { OnErr result ((other : ℕ) → block_at self.new other ≡ block_at self.old other) }
        ensures err_counts { OnErr result ((block : ℕ) → open_on self.new block ≡ open_on self.old block) }
        ensures wanted { OnErr result (IsSome entry) }
    {
        let before = self.blocks.set(key, entry)?;
        let counted = self.counts.replace(known_block(before), known_block(entry));
        if counted.is_err() {
            let _ = self.blocks.set(key, before);
        }
        counted
    }

    /// Opens the key, of a block if that is known; what was open on it is replaced. At want of memory nothing has changed.
    #[inline(always)]
    pub fn open(&mut self, key: u16, block: Option<u64>) -> Result<(), AllocError>
        ensures blocks { OnOk result ((other : ℕ) → block_at self.new other ≡ (if key == other then Some block else block_at self.old other)) }
        ensures counts { OnOk result ((on : ℕ) → open_on self.new on
            ≡ one_if (grants_block on block) + (open_on self.old on - one_if (passes (grants_block on) (block_at self.old key)))) }
        ensures err_blocks { OnErr result ((other : ℕ) → block_at self.new other ≡ block_at self.old other) }
        ensures err_counts { OnErr result ((on : ℕ) → open_on self.new on ≡ open_on self.old on) }
    {
        self.set(key, Some(block))
    }

    /// Closes the key.
    #[inline(always)]
    pub fn close(&mut self, key: u16)
        ensures blocks { (other : ℕ) → block_at self.new other ≡ (if key == other then None else block_at self.old other) }
        ensures counts { (block : ℕ) → open_on self.new block ≡ open_on self.old block - one_if (passes (grants_block block) (block_at self.old key)) }
    {
        if self.blocks.get(key).is_some() {
            let _ = self.set(key, None);
        }
    }

    /// The same open on the same keys and blocks.
    pub fn copy(&self) -> Result<OpenBlocks, AllocError>
        ensures { IfOk result (λ copy. SameBlocks self.now copy) }
    {
        Ok(OpenBlocks {
            blocks: self.blocks.copy()?,
            counts: self.counts.copy()?,
        })
    }

    /// Whether both have the same open on each key, and as many on each block.
    pub fn same_blocks(&self, other: &Self) -> bool
        ensures { Decides result (SameBlocks self.now other.now) }
    {
        self.blocks.same_slots(&other.blocks) && self.counts.same_counts(&other.counts)
    }
}
