//! A walk over the entries of a map.

use std::sync::Arc;

/// The entries of a map that are left, in the order of their keys.
#[derive(Drop)]
pub struct Entries<'a, K: Copy, V: Copy> {
    // What is left of the leaf that the walk is in.
    entries: &'a [(K, V)],
    // The leaves after it.
    leaves: &'a [Arc<Vec<(K, V)>>],
}

impl<'a, K: Copy, V: Copy> Entries<'a, K, V> {
    ghost use Rattle.std.specs.Prelude.{◌≡◌};
    ghost use Rattle.tl_state.specs.Leaves.{all_entries};
    ghost use Rattle.tl_state.specs.Walk.{entries_left};

    /// All entries of the leaves.
    pub(crate) fn new(leaves: &'a [Arc<Vec<(K, V)>>]) -> Self
        ensures { entries_left result ≡ all_entries leaves.now }
    {
        Entries {
            entries: &[],
            leaves,
        }
    }
}

impl<'a, K: Copy, V: Copy> Iterator for Entries<'a, K, V> {
    ghost use Rattle.std.specs.Iterator.{YieldsFirstRef, item_count};
    ghost use Rattle.tl_state.specs.Walk.{entries_left};

    type Item = &'a (K, V);

    ghost next_gives = { YieldsFirstRef entries_left };

    ghost remaining = { item_count entries_left };

    /// The first entry that is left.
    fn next(&mut self) -> Option<&'a (K, V)> {
        while self.entries.is_empty() {
            let (leaf, others) = self.leaves.split_first()?;
            self.entries = leaf.as_slice();
            self.leaves = others;
        }
        let (first, others) = self.entries.split_first()?;
        self.entries = others;
        Some(first)
    }
}
