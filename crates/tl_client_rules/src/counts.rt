//! How many are open on each block.

ghost use Rattle.std.specs.Prelude.{◌≡◌, ℕ, ◌+◌, ◌-◌, ◌==◌, nat_lt, IfOk, OnOk, OnErr, IsSome};
ghost use Rattle.std.specs.Bool.{Decides};
ghost use Rattle.std.specs.Option.{option_map_or};
ghost use Rattle.tl_definitions.specs.OpenTables.{one_if};
ghost use Rattle.tl_definitions.specs.Past.{grants_block};
ghost use Rattle.tl_client_rules.specs.Counts.{count_of};

use std::alloc::{AllocError, Global};
use tl_state::BlockMap;

/// How many are open on each block.
#[derive(Drop)]
pub struct Counts {
    /// Of a block with something open, how many more than one are: so a block with nothing open has no entry.
    others: BlockMap<u64>,
}

/// A count with one less.
fn one_less(others: Option<u64>) -> Option<u64>
    ensures { count_of result ≡ count_of others - 1 }
{
    match others {
        None | Some(0) => None,
        Some(others) => Some(others - 1),
    }
}

impl Counts {
    ghost use Rattle.tl_client_rules.specs.Counts.{count_at, SameCounts};

    /// Nothing is open.
    pub fn new(alloc: Global) -> Counts
        ensures { (block : ℕ) → count_at result block ≡ 0 }
    {
        Counts {
            others: BlockMap::new(alloc),
        }
    }

    /// Whether something is open on the block.
    #[inline(always)]
    pub fn is_open(&self, block: u64) -> bool
        ensures { result ≡ nat_lt 0 (count_at self.now block) }
    {
        self.others.get(block).is_some()
    }

    /// One more is open on the block. At want of memory nothing has changed.
    #[inline(always)]
    fn add(&mut self, block: u64) -> Result<(), AllocError>
        ensures ok { OnOk result ((other : ℕ) → count_at self.new other ≡ one_if (block == other) + count_at self.old other) }
        ensures err { OnErr result ((other : ℕ) → count_at self.new other ≡ count_at self.old other) }
    {
        let Some(others) = self.others.set(block, Some(0))? else {
            return Ok(());
        };
        // One of 2^64 could not be kept; sources and sinks, of 16 bits each, lead to none above 2^16.
        let (kept, done) = match others.checked_add(1) {
            Some(more) => (more, Ok(())),
            None => (others, Err(AllocError)),
        };
        let _ = self.others.set(block, Some(kept));
        done
    }

    /// One less is open on the block.
    #[inline(always)]
    fn take(&mut self, block: u64)
        ensures { (other : ℕ) → count_at self.new other ≡ count_at self.old other - one_if (block == other) }
    {
        let less = one_less(self.others.get(block));
        let _ = self.others.set(block, less);
    }

    /// One that is open on the block takes the place of another. At want of memory nothing has changed.
    #[inline(always)]
    fn keep(&mut self, block: u64) -> Result<(), AllocError>
        ensures ok { OnOk result ((other : ℕ) → count_at self.new other ≡ one_if (block == other) + (count_at self.old other - one_if (block == other))) }
        ensures err { OnErr result ((other : ℕ) → count_at self.new other ≡ count_at self.old other) }
    {
        let others = self.others.get(block).unwrap_or(0);
        self.others.set(block, Some(others))?;
        Ok(())
    }

    /// What is open on the new block takes the place of what was open on the old one; None is no block. Only where there is
    /// a new block can there be no memory, and then nothing has changed.
    #[inline(always)]
    pub fn replace(&mut self, old: Option<u64>, new: Option<u64>) -> Result<(), AllocError>
        ensures ok { OnOk result ((block : ℕ) → count_at self.new block
            ≡ one_if (grants_block block new) + (count_at self.old block - one_if (grants_block block old))) }
        ensures err { OnErr result ((block : ℕ) → count_at self.new block ≡ count_at self.old block) }
        ensures wanted { OnErr result (IsSome new) }
    {
        match (old, new) {
            (None, None) => Ok(()),
            (None, Some(new)) => self.add(new),
            (Some(old), None) => {
                self.take(old);
                Ok(())
            }
            (Some(old), Some(new)) if old == new => self.keep(new),
            (Some(old), Some(new)) => {
                self.add(new)?;
                self.take(old);
                Ok(())
            }
        }
    }

    /// The same counts.
    pub fn copy(&self) -> Result<Counts, AllocError>
        ensures { IfOk result (λ copy. SameCounts self.now copy) }
    {
        Ok(Counts {
            others: self.others.copy()?,
        })
    }

    /// Whether both have the same count of each block.
    #[tactic(auto, using(crate::proofs::CountLaws::entry_by_count))]
    pub fn same_counts(&self, other: &Self) -> bool
        ensures { Decides result (SameCounts self.now other.now) }
    {
        self.others.same_values(&other.others)
    }
}
