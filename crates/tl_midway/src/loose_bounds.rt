//! Which permissions bounds may be, where each may be several.

ghost use Rattle.std.specs.Prelude.{◌≡◌, ℕ, ◌==◌, true, false, Some, OnOk, if◌then◌else◌};
ghost use Rattle.tl_tables.specs.declared.Perm.{Perm as AnyPerm};
ghost use Rattle.tl_definitions.specs.Known.{same_perm, claimed_after, any_block_after};
ghost use Rattle.tl_midway.specs.LooseBounds.{holds};

use std::alloc::{AllocError, Global};
use tl_state::BlockMap;
use tl_tables::Perm;

/// Which permissions the bound of each block may be.
#[derive(Drop)]
pub struct LooseBounds {
    /// The blocks whose bound is surely not Nothing, and so on: a block in no set may have any bound. That the bounds of all
    /// blocks may be a permission empties its set, which takes no longer than it took to fill it.
    not_nothing: BlockMap<()>,
    not_branch: BlockMap<()>,
    not_trunk: BlockMap<()>,
}

/// Whether both are the same permission.
pub(crate) fn same_perm(one: Perm, other: Perm) -> bool
    ensures { result ≡ same_perm one other }
{
    one == other
}

/// Whether the block is in the set.
fn holds(blocks: &BlockMap<()>, block: u64) -> bool
    ensures { result ≡ holds blocks.now block }
{
    blocks.get(block).is_some()
}

/// Takes the block out of the set.
fn take_out(blocks: &mut BlockMap<()>, block: u64)
    ensures { (other : ℕ) → holds blocks.new other ≡ (if block == other then false else holds blocks.old other) }
{
    blocks.take(block);
}

/// Puts the block into the set, or takes it out.
fn put(blocks: &mut BlockMap<()>, block: u64, is_in: bool) -> Result<(), AllocError>
    ensures { OnOk result ((other : ℕ) → holds blocks.new other ≡ (if block == other then is_in else holds blocks.old other)) }
{
    if is_in {
        blocks.set(block, Some(()))?;
    } else {
        take_out(blocks, block);
    }
    Ok(())
}

impl LooseBounds {
    ghost use Rattle.tl_midway.specs.LooseBounds.{may_be, AreBounds};

    /// Each bound may be any permission.
    pub fn new(alloc: Global) -> LooseBounds
        ensures { AreBounds result (λ block held. true) }
    {
        LooseBounds {
            not_nothing: BlockMap::new(alloc),
            not_branch: BlockMap::new(alloc),
            not_trunk: BlockMap::new(alloc),
        }
    }

    /// Whether the bound of the block may be this permission.
    pub fn may_be(&self, block: u64, held: Perm) -> bool
        ensures { result ≡ may_be self.now block held }
    {
        match held {
            Perm::Nothing => !holds(&self.not_nothing, block),
            Perm::Branch => !holds(&self.not_branch, block),
            Perm::Trunk => !holds(&self.not_trunk, block),
        }
    }

    /// The bound of the block is this. AllocError where memory is refused: then the bounds are for nothing more.
    pub fn set(&mut self, block: u64, perm: Perm) -> Result<(), AllocError>
        ensures { OnOk result (AreBounds self.new (claimed_after true (Some (block, perm)) (may_be self.old))) }
    {
        put(
            &mut self.not_nothing,
            block,
            !same_perm(perm, Perm::Nothing),
        )?;
        put(&mut self.not_branch, block, !same_perm(perm, Perm::Branch))?;
        put(&mut self.not_trunk, block, !same_perm(perm, Perm::Trunk))?;
        Ok(())
    }

    /// The bound of the block may be this too.
    pub fn join(&mut self, block: u64, perm: Perm)
        ensures { AreBounds self.new (claimed_after false (Some (block, perm)) (may_be self.old)) }
    {
        match perm {
            Perm::Nothing => take_out(&mut self.not_nothing, block),
            Perm::Branch => take_out(&mut self.not_branch, block),
            Perm::Trunk => take_out(&mut self.not_trunk, block),
        }
    }

    /// The bound of any block may be this too.
    pub fn join_all(&mut self, perm: Perm)
        ensures { AreBounds self.new (any_block_after (Some perm) (may_be self.old)) }
    {
        match perm {
            Perm::Nothing => self.not_nothing.clear(),
            Perm::Branch => self.not_branch.clear(),
            Perm::Trunk => self.not_trunk.clear(),
        }
    }
}
