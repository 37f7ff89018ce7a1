//! Entries that are open by a key.

ghost use Rattle.std.specs.Prelude.{◌≡◌, None, Some, IfOk, OnOk, OnErr};
ghost use Rattle.std.specs.Bool.{Decides};
ghost use Rattle.std.specs.Option.{option_copied};
ghost use Rattle.std.specs.BTreeMap.{Updates, IsUnchanged, IsEmpty};

use std::alloc::{AllocError, Global};
use std::collections::BTreeMap;
use tl_same::{Exact, Faithful, Same};

/// A map from keys to what is open on them: at most one entry for each key.
#[derive(Drop)]
pub struct OpenTable<K: Ord + Drop, V: Drop> {
    entries: BTreeMap<K, V>,
}

impl<K: Ord + Drop, V: Drop> OpenTable<K, V> {
    ghost use Rattle.tl_link_rules.specs.Entries.{entry_of, SameEntries};

    /// A table with nothing open.
    pub fn new(alloc: Global) -> Self
        ensures empty { IsEmpty result.entries }
        ensures none { (key : K) → entry_of K.cmp result key ≡ None }
    {
        OpenTable {
            entries: BTreeMap::new(alloc),
        }
    }

    /// Opens the key, and answers the entry that was open on it, which this one replaces. AllocError where memory is
    /// refused: then nothing has changed.
    pub fn open(&mut self, key: K, value: V) -> Result<Option<V>, AllocError>
        ensures old { IfOk result (λ old. old ≡ entry_of K.cmp self.old key) }
        ensures ok { OnOk result (Updates K.cmp self.old.entries self.new.entries key (Some value)) }
        ensures err { OnErr result (IsUnchanged self.old.entries self.new.entries) }
    {
        Ok(self.entries.insert(key, value)?)
    }

    /// Closes the key, and answers the entry that was open on it.
    pub fn close(&mut self, key: &K) -> Option<V>
        ensures value { result ≡ entry_of K.cmp self.old key.now }
        ensures after { Updates K.cmp self.old.entries self.new.entries key.now None }
    {
        self.entries.remove(key)
    }

    /// The entry that is open on the key.
    pub fn get(&self, key: &K) -> Option<&V>
        ensures { option_copied result ≡ entry_of K.cmp self.now key.now }
    {
        self.entries.get(key)
    }

    /// A table with the same entries. AllocError where memory is refused.
    #[tactic(auto, using(tl_state::proofs::Tables::copied))]
    pub fn copy(&self) -> Result<Self, AllocError>
    where
        K: Faithful,
        V: Faithful,
        ensures { IfOk result (λ copy. SameEntries K.cmp self.now copy) }
    {
        Ok(OpenTable {
            entries: self.entries.clone()?,
        })
    }

    /// Whether both have the same open on each key.
    pub fn same_entries(&self, other: &Self) -> bool
    where
        K: Exact,
        V: Exact,
        ensures { Decides result (SameEntries K.cmp self.now other.now) }
    {
        let _here = self.entries.len();
        let _there = other.entries.len();
        self.entries == other.entries
    }
}

ghost use Rattle.tl_link_rules.specs.Entries.{SameEntries};

impl<K: Ord + Exact + Drop, V: Exact + Drop> Same for OpenTable<K, V> {
    ghost same = { SameEntries K.cmp };

    fn is_same(&self, other: &Self) -> bool {
        self.same_entries(other)
    }
}
