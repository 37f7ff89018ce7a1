//! The most that a client can hold of each block.

ghost use Rattle.std.specs.Prelude.{◌≡◌, ℕ, ◌==◌, true, false, None, unwrap_or, IsSome, IfOk, OnOk, OnErr, if◌then◌else◌};
ghost use Rattle.std.specs.Bool.{Decides};
ghost use Rattle.tl_tables.specs.declared.Perm.TheVariants.{Nothing, Trunk};
ghost use Rattle.tl_state.specs.BlockMap as set;
ghost use Rattle.tl_state.specs.BlockMap.{blocks_of};
ghost use Rattle.tl_client_rules.specs.Bounds.{bound_by};
ghost use Rattle.tl_client_rules.specs.Settled.{perm_at};

use crate::settled::Settled;
use std::alloc::{AllocError, Global};
use tl_state::{BlockMap, ShareMap};
use tl_tables::Perm;

/// The bound of each block.
#[derive(Drop)]
pub struct Bounds {
    /// The bounds that were last settled, which copies share.
    base: Settled,
    /// The bounds that were set since then. They come first, Nothing too.
    recent: BlockMap<Perm>,
}

/// The bound of a block, of which what was set comes first.
#[inline(always)]
fn bound_in(recent: &BlockMap<Perm>, base: &Settled, block: u64) -> Perm
    ensures { result ≡ bound_by recent.now base.now block }
{
    match recent.get(block) {
        Some(perm) => perm,
        None => base.get(block),
    }
}

/// Settles the bound of a block where it was set. All bounds stay the same, at want of memory too.
fn settle_block(base: &mut Settled, recent: &BlockMap<Perm>, block: u64) -> Result<(), AllocError>
    ensures same { (other : ℕ) → bound_by recent.now base.new other ≡ bound_by recent.now base.old other }
    ensures settled { OnOk result (perm_at base.new block ≡ bound_by recent.now base.new block) }
    ensures others { (other : ℕ) → (block == other) ≡ false → perm_at base.new other ≡ perm_at base.old other }
{
    match recent.get(block) {
        Some(perm) => base.set(block, perm),
        None => Ok(()),
    }
}

/// Settles the bounds of all blocks that were set. They stay the same, at want of memory too.
#[tactic(auto, using(crate::proofs::BoundLaws::settled_first))]
fn settle_base(base: &mut Settled, recent: &BlockMap<Perm>) -> Result<(), AllocError>
    ensures same { (block : ℕ) → bound_by recent.now base.new block ≡ bound_by recent.now base.old block }
    ensures settled { OnOk result ((block : ℕ) → perm_at base.new block ≡ bound_by recent.now base.new block) }
{
    for block in recent.blocks() {
        settle_block(base, recent, block)?;
    }
    Ok(())
}

impl Bounds {
    ghost use Rattle.tl_client_rules.specs.Bounds.{bound_at, settled_at, recent_at, SameBounds, IsSettled, AgreeOn, AgreeOnBase, AgreeOnBlocks};

    /// No block can be held.
    pub fn new(alloc: Global) -> Bounds
        ensures { (block : ℕ) → bound_at result block ≡ Nothing }
    {
        Bounds {
            base: Settled::new(alloc),
            recent: BlockMap::new(alloc),
        }
    }

    /// The bound of the block.
    #[inline(always)]
    pub fn get(&self, block: u64) -> Perm
        ensures { result ≡ bound_at self.now block }
    {
        bound_in(&self.recent, &self.base, block)
    }

    /// Whether the bound of the block is Trunk.
    #[inline(always)]
    pub fn has_trunk(&self, block: u64) -> bool
        ensures { Decides result (bound_at self.now block ≡ Trunk) }
    {
        match self.recent.get(block) {
            Some(perm) => perm == Perm::Trunk,
            None => self.base.has_trunk(block),
        }
    }

    /// Whether to forget what was set of the block leaves it this bound; false says nothing, so that nothing is searched for.
    #[inline(always)]
    pub fn is_settled(&self, block: u64, perm: Perm) -> bool
        ensures { result ≡ true → perm ≡ settled_at self.now block }
    {
        perm == Perm::Nothing && self.base.is_empty()
    }

    /// Forgets what was set of the block since the bounds were settled.
    #[inline(always)]
    pub fn forget(&mut self, block: u64)
        ensures { (other : ℕ) → bound_at self.new other ≡ (if block == other then settled_at self.old block else bound_at self.old other) }
    {
        let _ = self.recent.take(block);
    }

    /// Sets the bound of the block, and answers what was set of it since the bounds were settled, if anything was. At want of memory
    /// nothing has changed.
    #[inline(always)]
    pub fn set(&mut self, block: u64, perm: Perm) -> Result<Option<Perm>, AllocError>
        ensures old { IfOk result (λ old. old ≡ recent_at self.old block) }
        ensures ok { OnOk result ((other : ℕ) → bound_at self.new other ≡ (if block == other then perm else bound_at self.old other)) }
        ensures settled { (other : ℕ) → settled_at self.new other ≡ settled_at self.old other }
        ensures kept { OnOk result (IsSome (recent_at self.new block)) }
        ensures err { OnErr result (SameBounds self.old self.new) }
    {
        self.recent.set(block, Some(perm))
    }

    /// Has this set of a block of which something was set since the bounds were settled; None forgets what was set.
    pub fn put_back(&mut self, block: u64, before: Option<Perm>)
        requires room { IsSome (recent_at self.old block) }
        ensures { (other : ℕ) → bound_at self.new other ≡ (if block == other then unwrap_or before (settled_at self.old block) else bound_at self.old other) }
    {
        let _ = self.recent.set(block, before);
    }

    /// Settles the bounds, so that copies share them. At want of memory they are the same too.
    pub fn settle(&mut self) -> Result<(), AllocError>
        ensures same { SameBounds self.old self.new }
        ensures settled { OnOk result (IsSettled self.new) }
    {
        settle_base(&mut self.base, &self.recent)?;
        self.recent.clear();
        Ok(())
    }

    /// The same bounds.
    pub fn copy(&self) -> Result<Bounds, AllocError>
        ensures { IfOk result (λ copy. SameBounds self.now copy) }
    {
        Ok(Bounds {
            base: self.base.copy()?,
            recent: self.recent.copy()?,
        })
    }

    /// Whether both have the same bound of each block.
    pub fn same_bounds(&self, other: &Self) -> bool
        ensures { Decides result (SameBounds self.now other.now) }
    {
        if self.recent.is_empty() && other.recent.is_empty() {
            return self.base.is_same(&other.base);
        }
        self.agrees(other) && other.agrees(self)
    }

    /// Whether both have the same bound of each block that has an entry here.
    fn agrees(&self, other: &Self) -> bool
        ensures { Decides result (AgreeOnBlocks self.now other.now (blocks_of self.now.recent) × AgreeOnBase self.now other.now) }
    {
        self.agrees_on_recent(other) && self.agrees_on_base(other)
    }

    fn agrees_on_recent(&self, other: &Self) -> bool
        ensures { Decides result (AgreeOnBlocks self.now other.now (blocks_of self.now.recent)) }
    {
        for block in self.recent.blocks() {
            if self.get(block) != other.get(block) {
                return false;
            }
        }
        true
    }

    fn agrees_on_base(&self, other: &Self) -> bool
        ensures { Decides result (AgreeOnBase self.now other.now) }
    {
        self.agrees_on(other, self.base.trunks()) && self.agrees_on(other, self.base.branches())
    }

    /// Whether both have the same bound of each of these blocks.
    fn agrees_on(&self, other: &Self, blocks: &ShareMap<u64, ()>) -> bool
        ensures { Decides result (AgreeOn self.now other.now blocks.now) }
    {
        for (block, _) in blocks.iter() {
            if self.get(*block) != other.get(*block) {
                return false;
            }
        }
        true
    }
}
