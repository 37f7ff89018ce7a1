//! How many Grants are open on each block.

ghost use Rattle.std.specs.Prelude.{◌≡◌, ℕ, ◌+◌, ◌-◌, nat_lt, IfOk, OnOk};
ghost use Rattle.tl_definitions.specs.OpenTables.{one_if};
ghost use Rattle.tl_definitions.specs.Events.{is_on};
ghost use Rattle.tl_apart.specs.Grants.{count_of};

use std::alloc::{AllocError, Global};
use tl_state::BlockMap;

/// How many Grants are open on each block.
#[derive(Drop)]
pub(crate) struct OpenGrants {
    /// Of a block with an open Grant, how many more than one are: so a block without one has no entry.
    others: BlockMap<u64>,
}

/// A count with one less.
fn one_less(others: Option<u64>) -> Option<u64>
    ensures { count_of result ≡ count_of others - 1 }
{
    match others {
        None | Some(0) => None,
        Some(others) => Some(others - 1),
    }
}

/// A count with one more. AllocError where 2^64 are open, since no more can be counted.
fn one_more(others: Option<u64>) -> Result<Option<u64>, AllocError>
    ensures { IfOk result (λ more. count_of more ≡ 1 + count_of others) }
{
    match others {
        None => Ok(Some(0)),
        Some(others) => match others.checked_add(1) {
            Some(more) => Ok(Some(more)),
            None => Err(AllocError),
        },
    }
}

impl OpenGrants {
    ghost use Rattle.tl_apart.specs.Grants.{open_on};

    /// None is open.
    pub(crate) fn new(alloc: Global) -> OpenGrants
        ensures { (block : ℕ) → open_on result block ≡ 0 }
    {
        OpenGrants {
            others: BlockMap::new(alloc),
        }
    }

    /// Whether one is open on the block.
    pub(crate) fn is_open(&self, block: u64) -> bool
        ensures { result ≡ nat_lt 0 (open_on self.now block) }
    {
        self.others.get(block).is_some()
    }

    /// One of the block is closed; None is no block.
    pub(crate) fn close(&mut self, closed: Option<u64>)
        ensures { (block : ℕ) → open_on self.new block ≡ open_on self.old block - one_if (is_on block closed) }
    {
        if let Some(block) = closed {
            let less = one_less(self.others.get(block));
            let _ = self.others.set(block, less);
        }
    }

    /// One more is open on the block; None is no block. AllocError where memory is refused, or 2^64 are open on it.
    pub(crate) fn open(&mut self, opened: Option<u64>) -> Result<(), AllocError>
        ensures { OnOk result ((block : ℕ) → open_on self.new block ≡ one_if (is_on block opened) + open_on self.old block) }
    {
        if let Some(block) = opened {
            let more = one_more(self.others.get(block))?;
            self.others.set(block, more)?;
        }
        Ok(())
    }
}
