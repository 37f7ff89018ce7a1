//! The leaves of a map: runs of its entries, of which none is empty. Nothing here knows of the order of keys.

ghost use Rattle.std.specs.Prelude.{◌≡◌, ◌≤◌, ◌<◌, ◌+◌, ◌++◌, ◌∷◌, [], length, take, drop, true, false, IfOk, OnOk, OnErr, option_to_list};
ghost use Rattle.tl_state.specs.Leaves.{leaf_entries, all_entries, entries_of, entries_ahead, entries_behind, EachHasEntries};

use std::alloc::{AllocError, Global};
use std::sync::Arc;

/// The most entries of a leaf.
const LEAF: usize = 64;

/// A leaf has room for a multiple of so many, so that some can come where it stands.
const ROOM: usize = 8;

/// The entries before `start` and those from `end` on, with an entry between them.
fn spliced<K: Copy, V: Copy>(
    alloc: Global,
    entries: &[(K, V)],
    start: usize,
    end: usize,
    entry: Option<(K, V)>,
) -> Result<Vec<(K, V)>, AllocError>
    requires start { start ≤ length entries.now }
    requires end { end ≤ length entries.now }
    ensures { IfOk result (λ made. made.items ≡ take start entries.now ++ (option_to_list entry ++ drop end entries.now)) }
{
    let before = &entries[..start];
    let after = &entries[end..];
    let count = before.len().saturating_add(after.len());
    let count = count.saturating_add(usize::from(entry.is_some()));
    let room = count.div_ceil(ROOM).saturating_mul(ROOM);
    let mut made = Vec::with_capacity(alloc, room)?;
    made.extend_from_slice(before)?;
    if let Some(entry) = entry {
        made.push(entry)?;
    }
    made.extend_from_slice(after)?;
    Ok(made)
}

/// Puts an entry, or none, in the place of the one from `start` to `end`, or of none. At want of memory nothing has changed.
fn put_in<K: Copy, V: Copy>(
    entries: &mut Vec<(K, V)>,
    start: usize,
    end: usize,
    entry: Option<(K, V)>,
) -> Result<(), AllocError>
    requires start { start ≤ end }
    requires near { end ≤ start + 1 }
    requires end { end ≤ length entries.old.items }
    ensures ok { OnOk result (entries.new.items ≡ take start entries.old.items ++ (option_to_list entry ++ drop end entries.old.items)) }
    ensures err { OnErr result (entries.new.items ≡ entries.old.items) }
{
    match entry {
        Some(entry) if start < end => entries[start] = entry,
        Some(entry) => entries.insert(start, entry)?,
        None if start < end => {
            entries.remove(start);
        }
        None => {}
    }
    Ok(())
}

/// The same in a leaf that no other map has, where it then has an entry and no more than it has room for; answers whether that is so.
/// False changes nothing, and at want of memory the entries are the same.
fn edit<K: Copy, V: Copy>(
    leaf: &mut Arc<Vec<(K, V)>>,
    start: usize,
    end: usize,
    entry: Option<(K, V)>,
) -> Result<bool, AllocError>
    requires start { start ≤ end }
    requires end { end ≤ length (leaf_entries leaf.old) }
    ensures done { IfOk result (λ done. done ≡ true → leaf_entries leaf.new ≡ take start (leaf_entries leaf.old) ++ (option_to_list entry ++ drop end (leaf_entries leaf.old))) }
    ensures some { 0 < length (leaf_entries leaf.old) → 0 < length (leaf_entries leaf.new) }
    ensures not { IfOk result (λ done. done ≡ false → leaf.new ≡ leaf.old) }
    ensures err { OnErr result (leaf_entries leaf.new ≡ leaf_entries leaf.old) }
{
    let taken = end - start;
    let count = leaf.len() - taken + usize::from(entry.is_some());
    if taken > 1 || count == 0 || count > LEAF.min(leaf.capacity()) {
        return Ok(false);
    }
    let Some(entries) = Arc::get_mut(leaf) else {
        return Ok(false);
    };
    put_in(entries, start, end, entry)?;
    Ok(true)
}

/// Puts the entries in the place of a leaf, as one leaf or as two. At want of memory nothing has changed.
fn put_leaf<K: Copy, V: Copy>(
    alloc: Global,
    leaves: &mut Vec<Arc<Vec<(K, V)>>>,
    at: usize,
    made: Vec<(K, V)>,
) -> Result<(), AllocError>
    requires at { at < length leaves.old.items }
    requires some { 0 < length made.items }
    ensures ok { OnOk result (all_entries leaves.new.items ≡ all_entries (take at leaves.old.items) ++ (made.items ++ all_entries (drop (at + 1) leaves.old.items))) }
    ensures full { EachHasEntries leaves.old.items → EachHasEntries leaves.new.items }
    ensures err { OnErr result (leaves.new.items ≡ leaves.old.items) }
{
    let entries = made.as_slice();
    if entries.len() <= LEAF {
        let leaf = Arc::new(alloc, made)?;
        leaves[at] = leaf;
        return Ok(());
    }
    let half = entries.len() / 2;
    let left = Arc::new(alloc, Vec::from_slice(alloc, &entries[..half])?)?;
    let right = Arc::new(alloc, Vec::from_slice(alloc, &entries[half..])?)?;
    leaves.insert(at + 1, right)?;
    leaves[at] = left;
    Ok(())
}

/// Puts an entry, or none, in the place of those from `start` to `end` of a leaf that stands where it is, if `edit` may do so.
fn edit_at<K: Copy, V: Copy>(
    leaves: &mut Vec<Arc<Vec<(K, V)>>>,
    at: usize,
    start: usize,
    end: usize,
    entry: Option<(K, V)>,
) -> Result<bool, AllocError>
    requires at { at < length leaves.old.items }
    requires start { start ≤ end }
    requires end { end ≤ length (entries_of leaves.old.items at) }
    ensures done { IfOk result (λ done. done ≡ true → all_entries leaves.new.items ≡ entries_ahead leaves.old.items at start ++ (option_to_list entry ++ entries_behind leaves.old.items at end)) }
    ensures full { EachHasEntries leaves.old.items → EachHasEntries leaves.new.items }
    ensures not { IfOk result (λ done. done ≡ false → leaves.new.items ≡ leaves.old.items) }
    ensures err { OnErr result (all_entries leaves.new.items ≡ all_entries leaves.old.items) }
{
    edit(&mut leaves[at], start, end, entry)
}

/// The same by a leaf that is made anew, as one or as two. A leaf that is left without entries goes. At want of memory nothing has
/// changed.
fn remake_at<K: Copy, V: Copy>(
    alloc: Global,
    leaves: &mut Vec<Arc<Vec<(K, V)>>>,
    at: usize,
    start: usize,
    end: usize,
    entry: Option<(K, V)>,
) -> Result<(), AllocError>
    requires at { at < length leaves.old.items }
    requires start { start ≤ end }
    requires end { end ≤ length (entries_of leaves.old.items at) }
    ensures ok { OnOk result (all_entries leaves.new.items ≡ entries_ahead leaves.old.items at start ++ (option_to_list entry ++ entries_behind leaves.old.items at end)) }
    ensures full { EachHasEntries leaves.old.items → EachHasEntries leaves.new.items }
    ensures err { OnErr result (leaves.new.items ≡ leaves.old.items) }
{
    let entries = leaves[at].as_slice();
    let made = spliced(alloc, entries, start, end, entry)?;
    if made.is_empty() {
        let _ = leaves.remove(at);
        return Ok(());
    }
    put_leaf(alloc, leaves, at, made)
}

/// Puts an entry, or none, in the place of those from `start` to `end` of a leaf: where it stands if no other map has it, and else in
/// one made anew. A leaf that is left without entries goes. At want of memory the entries are the same.
pub(crate) fn replace<K: Copy, V: Copy>(
    alloc: Global,
    leaves: &mut Vec<Arc<Vec<(K, V)>>>,
    at: usize,
    start: usize,
    end: usize,
    entry: Option<(K, V)>,
) -> Result<(), AllocError>
    requires at { at < length leaves.old.items }
    requires start { start ≤ end }
    requires end { end ≤ length (entries_of leaves.old.items at) }
    ensures ok { OnOk result (all_entries leaves.new.items ≡ entries_ahead leaves.old.items at start ++ (option_to_list entry ++ entries_behind leaves.old.items at end)) }
    ensures full { EachHasEntries leaves.old.items → EachHasEntries leaves.new.items }
    ensures err { OnErr result (all_entries leaves.new.items ≡ all_entries leaves.old.items) }
{
    if edit_at(leaves, at, start, end, entry)? {
        return Ok(());
    }
    remake_at(alloc, leaves, at, start, end, entry)
}

/// Puts an entry after all others. At want of memory nothing has changed.
pub(crate) fn put_last<K: Copy, V: Copy>(
    alloc: Global,
    leaves: &mut Vec<Arc<Vec<(K, V)>>>,
    entry: (K, V),
) -> Result<(), AllocError>
    ensures ok { OnOk result (all_entries leaves.new.items ≡ all_entries leaves.old.items ++ entry ∷ []) }
    ensures full { EachHasEntries leaves.old.items → EachHasEntries leaves.new.items }
    ensures err { OnErr result (leaves.new.items ≡ leaves.old.items) }
{
    let count = leaves.as_slice().len();
    if count > 0 {
        let entries = leaves[count - 1].as_slice();
        if entries.len() < LEAF {
            let made = spliced(alloc, entries, entries.len(), entries.len(), Some(entry))?;
            return put_leaf(alloc, leaves, count - 1, made);
        }
    }
    let mut made = Vec::with_capacity(alloc, 1)?;
    made.push(entry)?;
    let leaf = Arc::new(alloc, made)?;
    leaves.push(leaf)?;
    Ok(())
}
