//! Slots of pieces by key, with tallies of those that are wanted and of those that are free. Nothing here knows what is wanted.

ghost use Rattle.std.specs.Prelude.{◌≡◌, ◌++◌, [], length, not, Some, None, OnOk, OnErr, is_some, MatchOption};
ghost use Rattle.std.specs.Option.{option_map};
ghost use Rattle.std.specs.BTreeMap.{insert_entry, is_at};
ghost use Rattle.std.specs.Map.{remove_entry};
ghost use Rattle.tl_pieces.specs.declared.slot.Mark.TheVariants as mark;
ghost use Rattle.tl_pieces.specs.Keys.{key_cmp, value_at, change, before, after, from, first_key, if_owned, start_of, EndsWith, Rises};
ghost use Rattle.tl_pieces.specs.Marks.{shown};
ghost use Rattle.tl_pieces.specs.PieceWalk.{pieces_left};
ghost use Rattle.tl_pieces.specs.Slots.{blank, changed, turn, first, found, last_result, some_wanted};

use crate::key::PieceKey;
use crate::slot::{Change, Mark, Slot, Stored};
use crate::tally::Tally;
use crate::walk::Pieces;
use std::alloc::{AllocError, Global};
use std::collections::BTreeMap;
use std::marker::Model;
use std::ops::Bound;

/// Slots in the order of their keys.
#[derive(Drop)]
pub(crate) struct Slots<S, R> {
    map: BTreeMap<PieceKey, Slot<S, R>>,
    wanted: Tally,
    free: Tally,
}

impl<S, R> Model for Slots<S, R> {
    ghost use Rattle.std.specs.Prelude.{List};
    ghost use Rattle.tl_pieces.specs.declared.key.PieceKey.{PieceKey};
    ghost use Rattle.tl_pieces.specs.declared.slot.Slot.{Slot};
    ghost use Rattle.tl_pieces.specs.Slots.{AreTallied};

    ghost Value = { List (PieceKey × Slot S R) };

    ghost view = { λ s. s.map.entries };

    ghost invariant = { λ s. AreTallied s.map.entries s.wanted s.free };
}

impl<S, R> Slots<S, R> {
    /// No slots.
    pub(crate) fn new(alloc: Global) -> Self
        ensures { result ≡ [] }
    {
        Slots {
            map: BTreeMap::new(alloc),
            wanted: Tally::new(),
            free: Tally::new(),
        }
    }

    /// How many slots there are.
    pub(crate) fn len(&self) -> usize
        ensures exact { result ≡ length self.now }
        ensures order { Rises self.now }
    {
        self.map.len()
    }

    /// A walk over all pieces.
    pub(crate) fn walk(&self) -> Pieces<'_, S, R>
        ensures { pieces_left result ≡ shown self.now }
    {
        Pieces::new(self.map.iter())
    }

    /// Whether none is wanted.
    pub(crate) fn none_wanted(&self) -> bool
        ensures none { result ≡ not (some_wanted self.now) }
        ensures order { Rises self.now }
    {
        // The keys rise.
        let _ = self.map.len();
        self.wanted.count == 0
    }

    /// The first that is wanted.
    pub(crate) fn first_wanted(&mut self) -> Option<PieceKey>
        ensures found { result ≡ first mark.Wanted self.old }
        ensures same { self.new ≡ self.old }
        ensures order { Rises self.old }
    {
        // The keys rise.
        let _ = self.map.len();
        self.wanted.cursor = find(&self.map, Mark::Wanted, self.wanted);
        self.wanted.cursor
    }

    /// The first that is free.
    pub(crate) fn first_free(&mut self) -> Option<PieceKey>
        ensures found { result ≡ first mark.Free self.old }
        ensures same { self.new ≡ self.old }
    {
        // The keys rise.
        let _ = self.map.len();
        self.free.cursor = find(&self.map, Mark::Free, self.free);
        self.free.cursor
    }

    /// The first from the key on that has the mark.
    pub(crate) fn first_at_least(&self, mark: Mark, key: PieceKey) -> Option<PieceKey>
        ensures { result ≡ first mark (from key self.now) }
    {
        first_from(&self.map, mark, key)
    }

    /// Whether the key has a slot.
    pub(crate) fn contains(&self, key: PieceKey) -> bool
        ensures { result ≡ is_some (value_at key self.now) }
    {
        self.map.contains_key(&key)
    }

    /// The slot of the key.
    pub(crate) fn get(&self, key: PieceKey) -> Option<&Slot<S, R>>
        ensures { option_map (λ s. s.now) result ≡ value_at key self.now }
    {
        self.map.get(&key)
    }

    /// The last slot before the key.
    pub(crate) fn last_before(&self, key: PieceKey) -> Option<(PieceKey, &Slot<S, R>)>
        ensures { EndsWith (before key self.now) (option_map (λ p. (p.0, p.1.now)) result) }
    {
        match self.map.range(..key).next_back() {
            Some((at, slot)) => Some((*at, slot)),
            None => None,
        }
    }

    /// The last result before the key of a slot of its owner.
    pub(crate) fn last_result(&self, key: PieceKey) -> Option<&Stored<S, R>>
        ensures { option_map (λ r. r.now) result ≡ last_result key.owner (before key self.now) }
    {
        // The keys rise.
        let _ = self.map.len();
        let mut earlier = self.map.range(..key);
        while let Some((at, slot)) = earlier.next_back() {
            if at.owner != key.owner {
                return None;
            }
            if let Some(stored) = &slot.result {
                return Some(stored);
            }
        }
        None
    }

    /// The key of the first slot of an owner.
    pub(crate) fn first_of_owner(&self, owner: u32) -> Option<PieceKey>
        ensures key { result ≡ if_owned owner (first_key (from (start_of owner) self.now)) }
        ensures order { Rises self.now }
    {
        // The keys rise.
        let _ = self.map.len();
        match self.map.range(PieceKey { owner, window: 0 }..).next() {
            Some((at, _)) if at.owner == owner => Some(*at),
            _ => None,
        }
    }

    /// The key of the slot after the key, if it is of its owner.
    pub(crate) fn next_of_owner(&self, key: PieceKey) -> Option<PieceKey>
        ensures key { result ≡ if_owned key.owner (first_key (after key self.now)) }
        ensures order { Rises self.now }
    {
        // The keys rise.
        let _ = self.map.len();
        let mut later = self.map.range((Bound::Excluded(key), Bound::Unbounded));
        match later.next() {
            Some((at, _)) if at.owner == key.owner => Some(*at),
            _ => None,
        }
    }

    /// Puts in the slot of a window that was never checked.
    pub(crate) fn put(&mut self, key: PieceKey) -> Result<(), AllocError>
    where
        S: Drop,
        R: Drop,
        requires absent { value_at key self.old ≡ None }
        ensures ok { OnOk result (self.new ≡ insert_entry key_cmp self.old key blank) }
        ensures err { OnErr result (self.new ≡ self.old) }
        ensures order { Rises self.new }
    {
        // The keys rise.
        let _ = self.map.len();
        if self.map.insert(key, Slot::blank()).is_err() {
            return Err(AllocError);
        }
        self.wanted = self.wanted.turned(key, false, true);
        self.free = self.free.turned(key, false, true);
        Ok(())
    }

    /// Takes a slot out.
    pub(crate) fn take(&mut self, key: PieceKey)
    where
        S: Drop,
        R: Drop,
        ensures slots { self.new ≡ remove_entry (is_at (key_cmp key)) self.old }
        ensures order { Rises self.old }
    {
        // The keys rise.
        let _ = self.map.len();
        let Some(slot) = self.map.remove(&key) else {
            return;
        };
        let wanted = slot.passes(Mark::Wanted);
        let free = slot.passes(Mark::Free);
        self.wanted = self.wanted.turned(key, wanted, false);
        self.free = self.free.turned(key, free, false);
    }

    /// Changes the slot of a key.
    pub(crate) fn change(&mut self, key: PieceKey, what: Change<S, R>)
    where
        S: Drop,
        R: Drop,
        ensures slots { self.new ≡ change key (changed what) self.old }
        ensures order { Rises self.old }
    {
        // The keys rise.
        let _ = self.map.len();
        let Some(turn) = write(&mut self.map, key, what) else {
            return;
        };
        self.wanted = self.wanted.turned(key, turn.was_wanted, turn.is_wanted);
        self.free = self.free.turned(key, turn.was_free, turn.is_free);
    }
}

/// What a change did to the marks of a slot.
#[derive(Clone, Copy, Drop)]
pub(crate) struct Turn {
    was_wanted: bool,
    is_wanted: bool,
    was_free: bool,
    is_free: bool,
}

fn turned<S: Drop, R: Drop>(slot: &mut Slot<S, R>, what: Change<S, R>) -> Turn
    ensures slot { slot.new ≡ changed what slot.old }
    ensures turn { result ≡ turn (changed what) slot.old }
{
    let was_wanted = slot.passes(Mark::Wanted);
    let was_free = slot.passes(Mark::Free);
    slot.apply(what);
    Turn {
        was_wanted,
        is_wanted: slot.passes(Mark::Wanted),
        was_free,
        is_free: slot.passes(Mark::Free),
    }
}

// Changes the slot of a key, if there is one.
fn write<S: Drop, R: Drop>(
    map: &mut BTreeMap<PieceKey, Slot<S, R>>,
    key: PieceKey,
    what: Change<S, R>,
) -> Option<Turn>
    ensures entries { map.new.entries ≡ change key (changed what) map.old.entries }
    ensures turn { result ≡ option_map (turn (changed what)) (value_at key map.old.entries) }
{
    match map.get_mut(&key) {
        Some(slot) => Some(turned(slot, what)),
        None => None,
    }
}

// The first with the mark, which the cursor of its tally hasn't passed.
fn find<S, R>(map: &BTreeMap<PieceKey, Slot<S, R>>, mark: Mark, tally: Tally) -> Option<PieceKey>
    ensures { result ≡ found mark tally map.now.entries }
{
    if tally.count == 0 {
        return None;
    }
    first_from(map, mark, tally.cursor?)
}

// The first with the mark from the key on.
fn first_from<S, R>(
    map: &BTreeMap<PieceKey, Slot<S, R>>,
    mark: Mark,
    key: PieceKey,
) -> Option<PieceKey>
    ensures { result ≡ first mark (from key map.now.entries) }
{
    for (at, slot) in map.range(key..) {
        if slot.passes(mark) {
            return Some(*at);
        }
    }
    None
}
