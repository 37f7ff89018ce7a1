//! Bounds that copies share.

ghost use Rattle.std.specs.Prelude.{◌≡◌, ℕ, ◌==◌, true, false, IfOk, OnOk, OnErr, if◌then◌else◌};
ghost use Rattle.std.specs.Bool.{Decides};
ghost use Rattle.tl_tables.specs.declared.Perm.TheVariants.{Nothing, Trunk};
ghost use Rattle.tl_client_rules.specs.Settled.{perm_at, SamePerms};

use std::alloc::{AllocError, Global};
use std::marker::Model;
use tl_same::Same;
use tl_state::ShareMap;
use tl_tables::Perm;

/// The bounds that copies share: the blocks that can be held at most as a Trunk, and those as a Branch. A block among neither can't be
/// held.
#[derive(Drop)]
pub struct Settled {
    trunks: ShareMap<u64, ()>,
    branches: ShareMap<u64, ()>,
}

impl Model for Settled {
    ghost use Rattle.tl_client_rules.specs.Settled.{SettledData, AreApart};

    ghost Value = { SettledData };

    ghost view = { λ m. record { trunks = m.trunks; branches = m.branches } };

    ghost invariant = { λ m. AreApart m.trunks m.branches };
}

impl Settled {
    /// No block can be held.
    pub fn new(alloc: Global) -> Settled
        ensures { (block : ℕ) → perm_at result block ≡ Nothing }
    {
        Settled {
            trunks: ShareMap::new(alloc),
            branches: ShareMap::new(alloc),
        }
    }

    /// True only where no block can be held; false says nothing.
    pub fn is_empty(&self) -> bool
        ensures { result ≡ true → (block : ℕ) → perm_at self.now block ≡ Nothing }
    {
        self.trunks.is_empty() && self.branches.is_empty()
    }

    /// The bound of the block.
    pub fn get(&self, block: u64) -> Perm
        ensures { result ≡ perm_at self.now block }
    {
        if self.trunks.get(&block).is_some() {
            return Perm::Trunk;
        }
        match self.branches.get(&block) {
            Some(_) => Perm::Branch,
            None => Perm::Nothing,
        }
    }

    /// Whether the block can be held as a Trunk. The branches are not searched.
    pub fn has_trunk(&self, block: u64) -> bool
        ensures { Decides result (perm_at self.now block ≡ Trunk) }
    {
        self.trunks.get(&block).is_some()
    }

    /// Sets the bound of the block. At want of memory the other blocks have kept theirs.
    pub fn set(&mut self, block: u64, perm: Perm) -> Result<(), AllocError>
        ensures ok { OnOk result ((other : ℕ) → perm_at self.new other ≡ (if block == other then perm else perm_at self.old other)) }
        ensures err { OnErr result ((other : ℕ) → (block == other) ≡ false → perm_at self.new other ≡ perm_at self.old other) }
    {
        match perm {
            Perm::Nothing => self.remove(block)?,
            Perm::Branch => {
                self.trunks.remove(&block)?;
                self.branches.set(block, ())?;
            }
            Perm::Trunk => {
                self.branches.remove(&block)?;
                self.trunks.set(block, ())?;
            }
        }
        Ok(())
    }

    /// Takes the block out, which is among one at most. At want of memory the other blocks have kept their bounds.
    fn remove(&mut self, block: u64) -> Result<(), AllocError>
        ensures ok { OnOk result ((other : ℕ) → perm_at self.new other ≡ (if block == other then Nothing else perm_at self.old other)) }
        ensures err { OnErr result ((other : ℕ) → perm_at self.new other ≡ perm_at self.old other) }
    {
        if self.trunks.remove(&block)?.is_none() {
            self.branches.remove(&block)?;
        }
        Ok(())
    }

    /// The same bounds. AllocError where memory is refused.
    pub fn copy(&self) -> Result<Settled, AllocError>
        ensures { IfOk result (λ copy. copy ≡ self.now) }
    {
        Ok(Settled {
            trunks: self.trunks.copy()?,
            branches: self.branches.copy()?,
        })
    }

    /// Whether both have the same bound of each block.
    pub fn is_same(&self, other: &Self) -> bool
        ensures { Decides result (SamePerms self.now other.now) }
    {
        self.trunks.is_same(&other.trunks) && self.branches.is_same(&other.branches)
    }

    /// The blocks that can be held at most as a Trunk.
    pub fn trunks(&self) -> &ShareMap<u64, ()>
        ensures { result.now ≡ self.now.trunks }
    {
        &self.trunks
    }

    /// The blocks that can be held at most as a Branch.
    pub fn branches(&self) -> &ShareMap<u64, ()>
        ensures { result.now ≡ self.now.branches }
    {
        &self.branches
    }
}
