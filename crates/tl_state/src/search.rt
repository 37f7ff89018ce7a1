//! The place of a key among the leaves of a map.

ghost use Rattle.std.specs.Prelude.{◌≡◌, ◌≤◌, length, take, drop, MatchOption};
ghost use Rattle.tl_state.specs.Leaves.{leaf_entries, all_entries, EachHasEntries};
ghost use Rattle.tl_state.specs.KeyOrder.{Below, Rises, Stops, StopsLeaf};

use std::cmp::Ordering;
use std::sync::Arc;

/// An entry of a map, with its leaf and its place in that.
#[derive(Clone, Copy)]
pub(crate) struct Spot<K: Copy, V: Copy> {
    pub(crate) leaf: usize,
    pub(crate) place: usize,
    pub(crate) entry: (K, V),
}

/// How many of the entries stand before the key.
fn place_of<K: Ord + Copy, V: Copy>(entries: &[(K, V)], key: &K) -> usize
    requires { Rises K.cmp entries.now }
    ensures within { result ≤ length entries.now }
    ensures below { Below K.cmp key.now (take result entries.now) }
    ensures stops { Stops K.cmp key.now (drop result entries.now) }
{
    let mut low = 0;
    let mut high = entries.len();
    while low < high {
        let middle = low + (high - low) / 2;
        let entry = &entries[middle];
        match key.cmp(&entry.0) {
            Ordering::Greater => low = middle + 1,
            _ => high = middle,
        }
    }
    low
}

/// How many of the leaves lie wholly before the key.
fn leaf_of<K: Ord + Copy, V: Copy>(leaves: &[Arc<Vec<(K, V)>>], key: &K) -> usize
    requires rises { Rises K.cmp (all_entries leaves.now) }
    requires full { EachHasEntries leaves.now }
    ensures within { result ≤ length leaves.now }
    ensures below { Below K.cmp key.now (all_entries (take result leaves.now)) }
    ensures stops { StopsLeaf K.cmp key.now leaf_entries (drop result leaves.now) }
{
    let mut low = 0;
    let mut high = leaves.len();
    while low < high {
        let middle = low + (high - low) / 2;
        let entries = leaves[middle].as_slice();
        let last = &entries[entries.len() - 1];
        match key.cmp(&last.0) {
            Ordering::Greater => low = middle + 1,
            _ => high = middle,
        }
    }
    low
}

ghost use Rattle.tl_state.specs.Spots.{IsSpot};

/// The first entry that does not stand before the key, if there is one.
pub(crate) fn find<K: Ord + Copy, V: Copy>(
    leaves: &[Arc<Vec<(K, V)>>],
    key: &K,
) -> Option<Spot<K, V>>
    requires rises { Rises K.cmp (all_entries leaves.now) }
    requires full { EachHasEntries leaves.now }
    ensures { MatchOption result (Below K.cmp key.now (all_entries leaves.now)) (λ spot. IsSpot K.cmp key.now leaves.now spot.leaf spot.place spot.entry) }
{
    let at = leaf_of(leaves, key);
    if at == leaves.len() {
        return None;
    }
    let entries = leaves[at].as_slice();
    let place = place_of(entries, key);
    Some(Spot {
        leaf: at,
        place,
        entry: entries[place],
    })
}
