//! The opening states of owners.

ghost use Rattle.std.specs.Prelude.{◌≡◌, [], length, Some, None, OnOk, OnErr, is_some};
ghost use Rattle.std.specs.Arc.{arc_value};
ghost use Rattle.std.specs.Ordering.{nat_cmp};
ghost use Rattle.std.specs.Option.{option_map};
ghost use Rattle.std.specs.BTreeMap.{insert_entry, is_at};
ghost use Rattle.std.specs.Map.{remove_entry};
ghost use Rattle.tl_pieces.specs.Pieces.{opening_of, OwnersRise};

use std::alloc::{AllocError, Global};
use std::collections::BTreeMap;
use std::marker::Model;
use std::sync::Arc;

/// The opening state of each owner, in the order of owners.
#[derive(Drop)]
pub(crate) struct Openings<S> {
    states: BTreeMap<u32, Arc<S>>,
}

impl<S> Model for Openings<S> {
    ghost use Rattle.std.specs.Prelude.{List, ℕ};
    ghost use Rattle.tl_pieces.specs.Marks.{openings_of};

    ghost Value = { List (ℕ × S) };

    ghost view = { λ o. openings_of o.states.entries };
}

impl<S> Openings<S> {
    /// No owners.
    pub(crate) fn new(alloc: Global) -> Self
        ensures { result ≡ [] }
    {
        Openings {
            states: BTreeMap::new(alloc),
        }
    }

    /// How many owners there are.
    pub(crate) fn len(&self) -> usize
        ensures exact { result ≡ length self.now }
        ensures order { OwnersRise self.now }
    {
        self.states.len()
    }

    /// The opening state of an owner.
    pub(crate) fn get(&self, owner: u32) -> Option<&Arc<S>>
        ensures { option_map (λ a. arc_value a.now) result ≡ opening_of owner self.now }
    {
        self.states.get(&owner)
    }

    /// Puts in an owner.
    pub(crate) fn put(&mut self, owner: u32, opening: Arc<S>) -> Result<(), AllocError>
    where
        S: Drop,
        requires absent { opening_of owner self.old ≡ None }
        ensures ok { OnOk result (self.new ≡ insert_entry nat_cmp self.old owner (arc_value opening)) }
        ensures err { OnErr result (self.new ≡ self.old) }
    {
        // The owners rise.
        let _ = self.states.len();
        if self.states.insert(owner, opening).is_err() {
            return Err(AllocError);
        }
        Ok(())
    }

    /// Takes out an owner.
    pub(crate) fn take(&mut self, owner: u32)
    where
        S: Drop,
        ensures { self.new ≡ remove_entry (is_at (nat_cmp owner)) self.old }
    {
        // The owners rise.
        let _ = self.states.len();
        self.states.remove(&owner);
    }
}
