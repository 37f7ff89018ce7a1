//! The map.

ghost use Rattle.std.specs.Prelude.{◌≡◌, ◌==◌, [], length, Some, None, IsSome, IfOk, OnOk, OnErr};
ghost use Rattle.std.specs.Bool.{Decides};
ghost use Rattle.std.specs.BTreeMap.{insert_entry, is_at};
ghost use Rattle.std.specs.Map.{remove_entry};
ghost use Rattle.tl_state.specs.Map.{value_at, SameValues, Sets};
ghost use Rattle.tl_state.specs.KeyOrder.{Rises};
ghost use Rattle.tl_state.specs.Walk.{entries_left};

use crate::changes::{remove_in, set_in};
use crate::search::find;
use crate::walk::Entries;
use std::alloc::{AllocError, Global};
use std::cmp::Ordering;
use std::marker::Model;
use std::sync::Arc;
use tl_same::{Exact, Same};

/// A map from keys to values, in the order of its keys, of which a copy shares the entries with its source. They lie in leaves of
/// up to 64. A copy costs a step for each leaf. A change makes the leaf anew that it touches, unless no other map has it, and leaves it
/// as it was in every copy; so any change can be refused for want of memory. Leaves that removals leave with few entries are not
/// joined.
#[derive(Drop)]
pub struct ShareMap<K: Ord + Copy, V: Copy> {
    alloc: Global,
    leaves: Vec<Arc<Vec<(K, V)>>>,
    len: usize,
}

impl<K: Ord + Copy, V: Copy> Model for ShareMap<K, V> {
    ghost use Rattle.std.specs.Prelude.{List};
    ghost use Rattle.tl_state.specs.Leaves.{all_entries};
    ghost use Rattle.tl_state.specs.Map.{IsMap};

    ghost Value = { List (K × V) };

    ghost view = { λ m. all_entries m.leaves.items };

    ghost invariant = { λ m. IsMap K.cmp m.leaves.items m.len };
}

impl<K: Ord + Copy, V: Copy> ShareMap<K, V> {
    /// A map without entries. It takes no memory.
    pub fn new(alloc: Global) -> Self
        ensures { result ≡ [] }
    {
        ShareMap {
            alloc,
            leaves: Vec::new(alloc),
            len: 0,
        }
    }

    /// How many entries there are.
    pub fn len(&self) -> usize
        ensures exact { result ≡ length self.now }
        // The keys rise, so no two entries have one key.
        ensures kept { Rises K.cmp self.now }
    {
        self.len
    }

    /// Whether there are no entries.
    pub fn is_empty(&self) -> bool
        ensures { result ≡ (length self.now == 0) }
    {
        self.len == 0
    }

    /// The value of the key, if it has one.
    pub fn get(&self, key: &K) -> Option<V>
        ensures { result ≡ value_at K.cmp self.now key.now }
    {
        let (held, value) = find(&self.leaves, key)?.entry;
        match key.cmp(&held) {
            Ordering::Equal => Some(value),
            _ => None,
        }
    }

    /// Gives the key this value, and answers the one that it had. AllocError where memory is refused, or a `usize` could not
    /// count one entry more: then nothing has changed.
    pub fn set(&mut self, key: K, value: V) -> Result<Option<V>, AllocError>
        ensures old { IfOk result (λ old. old ≡ value_at K.cmp self.old key) }
        ensures ok { OnOk result (self.new ≡ insert_entry K.cmp self.old key value) }
        ensures sets { OnOk result (Sets K.cmp self.old self.new key (Some value)) }
        ensures err { OnErr result (self.new ≡ self.old) }
    {
        let more = self.len.checked_add(1).ok_or(AllocError)?;
        let old = set_in(self.alloc, &mut self.leaves, key, value)?;
        if old.is_none() {
            self.len = more;
        }
        Ok(old)
    }

    /// Takes the key out, and answers the value that it had; a key without one changes nothing. AllocError where memory is
    /// refused, which only a key with a value asks for: then nothing has changed.
    pub fn remove(&mut self, key: &K) -> Result<Option<V>, AllocError>
        ensures old { IfOk result (λ old. old ≡ value_at K.cmp self.old key.now) }
        ensures ok { OnOk result (self.new ≡ remove_entry (is_at (K.cmp key.now)) self.old) }
        ensures sets { OnOk result (Sets K.cmp self.old self.new key.now None) }
        ensures wanted { OnErr result (IsSome (value_at K.cmp self.old key.now)) }
        ensures err { OnErr result (self.new ≡ self.old) }
    {
        let old = remove_in(self.alloc, &mut self.leaves, key)?;
        if old.is_some() {
            self.len -= 1;
        }
        Ok(old)
    }

    /// A map with the same entries, which it shares with this one. AllocError where memory is refused.
    pub fn copy(&self) -> Result<Self, AllocError>
        ensures { IfOk result (λ copy. copy ≡ self.now) }
    {
        Ok(ShareMap {
            alloc: self.alloc,
            leaves: self.leaves.clone()?,
            len: self.len,
        })
    }

    /// The entries, in the order of their keys.
    pub fn iter(&self) -> Entries<'_, K, V>
        ensures { entries_left result ≡ self.now }
    {
        Entries::new(&self.leaves)
    }

    /// Whether both have the same entries.
    pub fn same_entries(&self, other: &Self) -> bool
    where
        K: Exact,
        V: Exact,
        ensures { Decides result (self.now ≡ other.now) }
    {
        if self.len != other.len {
            return false;
        }
        let mut here = self.iter();
        let mut there = other.iter();
        while let Some(one) = here.next() {
            let Some(two) = there.next() else {
                return false;
            };
            if !is_same_entry(one, two) {
                return false;
            }
        }
        there.next().is_none()
    }
}

/// Whether both are one.
fn is_same_entry<K: Exact, V: Exact>(one: &(K, V), two: &(K, V)) -> bool
    ensures { Decides result (one.now ≡ two.now) }
{
    one.0 == two.0 && one.1 == two.1
}

impl<K: Ord + Copy + Exact, V: Copy + Exact> Same for ShareMap<K, V> {
    ghost same = { SameValues K.cmp };

    /// Whether both have the same value of each key.
    fn is_same(&self, other: &Self) -> bool {
        let _here = self.len();
        let _there = other.len();
        self.same_entries(other)
    }
}
