//! Which permissions the bounds of a client may be.

ghost use Rattle.std.specs.Prelude.{◌≡◌, ℕ, true, false, None, Some, OnOk};
ghost use Rattle.tl_state.specs.BlockMap.{value_at};
ghost use Rattle.tl_tables.specs.declared.Perm.{Perm as AnyPerm};
ghost use Rattle.tl_definitions.specs.Known.{claimed_after, any_block_after};
ghost use Rattle.tl_midway.specs.KnownBounds.{by_sure};
ghost use Rattle.tl_midway.specs.LooseBounds as loose_bounds;

use crate::loose_bounds::{LooseBounds, same_perm};
use std::alloc::{AllocError, Global};
use tl_state::BlockMap;
use tl_tables::Perm;

/// Which permissions the bound of each block may be.
#[derive(Drop)]
pub struct KnownBounds {
    /// The bounds that are known, as most are soon: one look-up each.
    sure: BlockMap<Perm>,
    /// Those of all other blocks.
    loose: LooseBounds,
}

/// Sets all bounds that are known among the others too.
fn set_sure(sure: &BlockMap<Perm>, loose: &mut LooseBounds) -> Result<(), AllocError>
    ensures { OnOk result (loose_bounds.AreBounds loose.new
        (λ block held. by_sure (value_at sure.now block) (loose_bounds.may_be loose.old block held) held)) }
{
    for block in sure.blocks() {
        if let Some(bound) = sure.get(block) {
            loose.set(block, bound)?;
        }
    }
    Ok(())
}

impl KnownBounds {
    ghost use Rattle.tl_midway.specs.KnownBounds.{may_be, AreBounds};

    /// Each bound may be any permission.
    pub fn new(alloc: Global) -> KnownBounds
        ensures { AreBounds result (λ block held. true) }
    {
        KnownBounds {
            sure: BlockMap::new(alloc),
            loose: LooseBounds::new(alloc),
        }
    }

    /// Whether the bound of the block may be this permission.
    pub fn may_be(&self, block: u64, held: Perm) -> bool
        ensures { result ≡ may_be self.now block held }
    {
        match self.sure.get(block) {
            Some(bound) => same_perm(bound, held),
            None => self.loose.may_be(block, held),
        }
    }

    /// The bound of the block is this.
    fn set(&mut self, block: u64, perm: Perm) -> Result<(), AllocError>
        ensures { OnOk result (AreBounds self.new (claimed_after true (Some (block, perm)) (may_be self.old))) }
    {
        self.sure.set(block, Some(perm))?;
        Ok(())
    }

    /// Has the bound of the block among those that may be several permissions. What each bound may be stays.
    fn loosen(&mut self, block: u64) -> Result<(), AllocError>
        ensures same { OnOk result (AreBounds self.new (may_be self.old)) }
        ensures none { OnOk result (value_at self.new.sure block ≡ None) }
    {
        if let Some(bound) = self.sure.take(block) {
            self.loose.set(block, bound)?;
        }
        Ok(())
    }

    /// So of all blocks. That takes no longer than it took to set them.
    fn loosen_all(&mut self) -> Result<(), AllocError>
        ensures same { OnOk result (AreBounds self.new (may_be self.old)) }
        ensures none { OnOk result ((block : ℕ) → value_at self.new.sure block ≡ None) }
    {
        set_sure(&self.sure, &mut self.loose)?;
        self.sure.clear();
        Ok(())
    }

    /// The bound of the block may be this too.
    fn join(&mut self, block: u64, perm: Perm) -> Result<(), AllocError>
        ensures { OnOk result (AreBounds self.new (claimed_after false (Some (block, perm)) (may_be self.old))) }
    {
        self.loosen(block)?;
        self.loose.join(block, perm);
        Ok(())
    }

    /// A message sets the bound of this block, if it sets one; where it may be a later beat, the bound may be what it was too.
    /// AllocError where memory is refused: then the bounds are for nothing more.
    pub fn claim(&mut self, certain: bool, claim: Option<(u64, Perm)>) -> Result<(), AllocError>
        ensures { OnOk result (AreBounds self.new (claimed_after certain claim (may_be self.old))) }
    {
        match claim {
            Some((block, perm)) => {
                if certain {
                    self.set(block, perm)
                } else {
                    self.join(block, perm)
                }
            }
            None => Ok(()),
        }
    }

    /// The bound of any block may be this too, if it is something. AllocError where memory is refused: then the bounds are for nothing
    /// more.
    pub fn join_all(&mut self, cap: Option<Perm>) -> Result<(), AllocError>
        ensures { OnOk result (AreBounds self.new (any_block_after cap (may_be self.old))) }
    {
        match cap {
            Some(perm) => self.join_each(perm),
            None => Ok(()),
        }
    }

    /// The bound of any block may be this too.
    fn join_each(&mut self, perm: Perm) -> Result<(), AllocError>
        ensures { OnOk result (AreBounds self.new (any_block_after (Some perm) (may_be self.old))) }
    {
        self.loosen_all()?;
        self.loose.join_all(perm);
        Ok(())
    }
}
