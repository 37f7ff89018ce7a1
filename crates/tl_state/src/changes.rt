//! Changes of the entries of a map, on its leaves.

ghost use Rattle.std.specs.Prelude.{◌≡◌, ◌+◌, length, is_some, IsSome, IfOk, OnOk, OnErr, if◌then◌else◌};
ghost use Rattle.std.specs.BTreeMap.{insert_entry, is_at};
ghost use Rattle.std.specs.Map.{remove_entry};
ghost use Rattle.tl_state.specs.Leaves.{all_entries, EachHasEntries};
ghost use Rattle.tl_state.specs.Map.{value_at};
ghost use Rattle.tl_state.specs.KeyOrder.{Rises};

use crate::leaves::{put_last, replace};
use crate::search::find;
use std::alloc::{AllocError, Global};
use std::cmp::Ordering;
use std::sync::Arc;

/// Gives the key this value, and answers the one that it had. At want of memory nothing has changed.
pub(crate) fn set_in<K: Ord + Copy, V: Copy>(
    alloc: Global,
    leaves: &mut Vec<Arc<Vec<(K, V)>>>,
    key: K,
    value: V,
) -> Result<Option<V>, AllocError>
    requires rises { Rises K.cmp (all_entries leaves.old.items) }
    requires full { EachHasEntries leaves.old.items }
    ensures old { IfOk result (λ old. old ≡ value_at K.cmp (all_entries leaves.old.items) key) }
    ensures ok { OnOk result (all_entries leaves.new.items ≡ insert_entry K.cmp (all_entries leaves.old.items) key value) }
    ensures rises { Rises K.cmp (all_entries leaves.new.items) }
    ensures full { EachHasEntries leaves.new.items }
    ensures len { IfOk result (λ old. length (all_entries leaves.new.items) ≡ length (all_entries leaves.old.items) + (if is_some old then 0 else 1)) }
    ensures err { OnErr result (all_entries leaves.new.items ≡ all_entries leaves.old.items) }
{
    let Some(spot) = find(leaves.as_slice(), &key) else {
        put_last(alloc, leaves, (key, value))?;
        return Ok(None);
    };
    let (leaf, place) = (spot.leaf, spot.place);
    let (held, old) = spot.entry;
    match key.cmp(&held) {
        Ordering::Equal => {
            replace(alloc, leaves, leaf, place, place + 1, Some((held, value)))?;
            Ok(Some(old))
        }
        _ => {
            replace(alloc, leaves, leaf, place, place, Some((key, value)))?;
            Ok(None)
        }
    }
}

/// Takes the key out, and answers the value that it had. Only where it has one can there be no memory, and then nothing has
/// changed.
pub(crate) fn remove_in<K: Ord + Copy, V: Copy>(
    alloc: Global,
    leaves: &mut Vec<Arc<Vec<(K, V)>>>,
    key: &K,
) -> Result<Option<V>, AllocError>
    requires rises { Rises K.cmp (all_entries leaves.old.items) }
    requires full { EachHasEntries leaves.old.items }
    ensures old { IfOk result (λ old. old ≡ value_at K.cmp (all_entries leaves.old.items) key.now) }
    ensures ok { OnOk result (all_entries leaves.new.items ≡ remove_entry (is_at (K.cmp key.now)) (all_entries leaves.old.items)) }
    ensures rises { Rises K.cmp (all_entries leaves.new.items) }
    ensures full { EachHasEntries leaves.new.items }
    ensures len { IfOk result (λ old. length (all_entries leaves.new.items) + (if is_some old then 1 else 0) ≡ length (all_entries leaves.old.items)) }
    ensures wanted { OnErr result (IsSome (value_at K.cmp (all_entries leaves.old.items) key.now)) }
    ensures err { OnErr result (all_entries leaves.new.items ≡ all_entries leaves.old.items) }
{
    let Some(spot) = find(leaves.as_slice(), key) else {
        return Ok(None);
    };
    let (leaf, place) = (spot.leaf, spot.place);
    let (held, old) = spot.entry;
    match key.cmp(&held) {
        Ordering::Equal => {
            replace(alloc, leaves, leaf, place, place + 1, None)?;
            Ok(Some(old))
        }
        _ => Ok(None),
    }
}
