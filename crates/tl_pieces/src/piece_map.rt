//! The map.

ghost use Rattle.std.specs.Prelude.{◌≡◌, ◌==◌, [], length, Some, None, OnOk, OnErr, IfSome, is_some, true};
ghost use Rattle.std.specs.Bool.{Decides};
ghost use Rattle.std.specs.Arc.{arc_value};
ghost use Rattle.std.specs.Option.{option_map};
ghost use Rattle.std.specs.Ordering.{nat_cmp};
ghost use Rattle.std.specs.BTreeMap.{insert_entry, is_at};
ghost use Rattle.std.specs.Map.{remove_entry};
ghost use Rattle.tl_pieces.specs.Keys.{key_cmp, change, after, first_key, owned_by, without, Rises};
ghost use Rattle.tl_pieces.specs.Pieces.{empty, with_result, with_live, with_pieces, with_openings, without_owner, touched_all, piece_at, opening_of, result_of, live_of, entry_for, IsBoard, OwnersRise, HasTrueEntry, IsSettled, HasNoneWanted, EachOwnerIsChained, IsWantedAt, IsFirstWanted, IsFirstFree, IsNextWanted, IsNextFree};
ghost use Rattle.tl_pieces.specs.Marks.{pass_of};
ghost use Rattle.tl_pieces.specs.PieceWalk.{pieces_left};

use crate::key::PieceKey;
use crate::marks::{begins, exit, judge, judge_next};
use crate::openings::Openings;
use crate::slot::{Change, Mark, Stored};
use crate::slots::Slots;
use crate::walk::Pieces;
use std::alloc::{AllocError, Global};
use std::marker::Model;
use std::sync::Arc;
use tl_same::Same;

/// Owners with their opening states, and the pieces of each: its windows that hold beats, with their results and their live
/// tickets. A piece is wanted if it has no result, or if the exit before it is there and isn't its own entry: the exit of its
/// owner's window just before, or the opening state where there is none. Which pieces are wanted is kept: each change judges the
/// piece after it, and compares states only there. A call costs a few steps down a tree, but where it says what more.
#[derive(Drop)]
pub struct PieceMap<S: Same, R> {
    openings: Openings<S>,
    slots: Slots<S, R>,
}

impl<S: Same, R> Model for PieceMap<S, R> {
    ghost use Rattle.std.specs.Prelude.{None};
    ghost use Rattle.tl_pieces.specs.Pieces.{Board};
    ghost use Rattle.tl_pieces.specs.Marks.{shown, IsMarked};

    ghost Value = { Board S R };

    ghost view = { λ m. record { openings = m.openings; pieces = shown m.slots } };

    ghost invariant = { λ m. IsMarked S.same m.openings None m.slots };
}

impl<S: Same + Drop, R: Drop> PieceMap<S, R> {
    /// A map with no owners. It takes no memory.
    pub fn new(alloc: Global) -> Self
        ensures openings { result.openings ≡ [] }
        ensures pieces { result.pieces ≡ [] }
    {
        PieceMap {
            openings: Openings::new(alloc),
            slots: Slots::new(alloc),
        }
    }

    /// Puts in an owner without pieces. AllocError where memory is refused: then nothing has changed.
    pub fn add_owner(&mut self, owner: u32, opening: Arc<S>) -> Result<(), AllocError>
        requires { opening_of owner self.old.openings ≡ None }
        ensures ok { OnOk result (self.new ≡ with_openings self.old (insert_entry nat_cmp self.old.openings owner (arc_value opening))) }
        ensures err { OnErr result (self.new ≡ self.old) }
    {
        self.openings.put(owner, opening)?;
        Ok(())
    }

    /// Takes out an owner, if it is there, with all its pieces. It goes over these alone.
    pub fn remove_owner(&mut self, owner: u32)
        ensures { self.new ≡ without_owner owner self.old }
    {
        self.clear(owner);
        self.openings.take(owner);
    }

    /// Takes out all pieces of an owner. It goes over these alone.
    pub fn clear(&mut self, owner: u32)
        ensures { self.new ≡ with_pieces self.old (without owner self.old.pieces) }
    {
        while let Some(key) = self.first_of(owner) {
            self.remove(key);
        }
    }

    /// How many owners there are.
    pub fn owners(&self) -> usize
        ensures exact { result ≡ length self.now.openings }
        ensures order { OwnersRise self.now.openings }
    {
        self.openings.len()
    }

    /// The opening state of an owner.
    pub fn opening(&self, owner: u32) -> Option<&Arc<S>>
        ensures { option_map (λ a. arc_value a.now) result ≡ opening_of owner self.now.openings }
    {
        self.openings.get(owner)
    }

    /// How many pieces there are.
    pub fn len(&self) -> usize
        ensures exact { result ≡ length self.now.pieces }
        // The keys rise, and each is of an owner; so do the owners.
        ensures kept { IsBoard self.now }
    {
        // The owners rise.
        let _ = self.owners();
        self.slots.len()
    }

    /// Whether there are no pieces.
    pub fn is_empty(&self) -> bool
        ensures { result ≡ (length self.now.pieces == 0) }
    {
        self.len() == 0
    }

    /// All pieces, in the order of their keys.
    pub fn iter(&self) -> Pieces<'_, S, R>
        ensures { pieces_left result ≡ self.now.pieces }
    {
        self.slots.walk()
    }

    /// The key of the first piece of an owner.
    pub fn first_of(&self, owner: u32) -> Option<PieceKey>
        ensures key { result ≡ first_key (owned_by owner self.now.pieces) }
        ensures order { Rises self.now.pieces }
    {
        self.slots.first_of_owner(owner)
    }

    /// The key of the piece after the key that is of its owner.
    pub fn next_of(&self, key: PieceKey) -> Option<PieceKey>
        ensures key { result ≡ first_key (owned_by key.owner (after key self.now.pieces)) }
        ensures order { Rises self.now.pieces }
    {
        self.slots.next_of_owner(key)
    }

    /// Whether there is a piece of the key.
    pub fn contains(&self, key: PieceKey) -> bool
        ensures { result ≡ is_some (piece_at key self.now) }
    {
        self.slots.contains(key)
    }

    /// The result of a piece.
    pub fn result(&self, key: PieceKey) -> Option<&Stored<S, R>>
        ensures { option_map (λ r. pass_of r.now) result ≡ result_of (piece_at key self.now) }
    {
        match self.slots.get(key) {
            Some(slot) => slot.result.as_ref(),
            None => None,
        }
    }

    /// The live ticket of a piece.
    pub fn live(&self, key: PieceKey) -> Option<u64>
        ensures { result ≡ live_of (piece_at key self.now) }
    {
        match self.slots.get(key) {
            Some(slot) => slot.live,
            None => None,
        }
    }

    /// Whether there is a piece of the key and it is wanted.
    pub fn is_wanted(&self, key: PieceKey) -> bool
        ensures { Decides result (IsWantedAt S.same self.now key) }
    {
        match self.slots.get(key) {
            Some(slot) => slot.wanted,
            None => false,
        }
    }

    /// Whether every piece has a result that begins with the exit before it; the same as: whether no piece is wanted. It walks
    /// nothing.
    pub fn settled(&self) -> bool
        ensures settled { Decides result (IsSettled S.same self.now) }
        ensures wanted { Decides result (HasNoneWanted S.same self.now) }
        ensures chains { result ≡ true → EachOwnerIsChained S.same self.now }
    {
        self.slots.none_wanted()
    }

    /// The first piece that is wanted, whatever its ticket. It goes on from where it was before, or from what was changed since.
    pub fn first_wanted(&mut self) -> Option<PieceKey>
        ensures first { IsFirstWanted S.same self.old result }
        // No piece before it is wanted, so what a job for it starts from is no guess.
        ensures entry { IfSome result (λ key. HasTrueEntry S.same self.old key) }
        ensures same { self.new ≡ self.old }
    {
        self.slots.first_wanted()
    }

    /// The first piece that is wanted and has no live ticket. It goes on from where it was before, or from what was changed since.
    pub fn first_free(&mut self) -> Option<PieceKey>
        ensures first { IsFirstFree S.same self.old result }
        ensures same { self.new ≡ self.old }
    {
        self.slots.first_free()
    }

    /// The first piece from the key on that is wanted, whatever its ticket. It costs a step for each piece from the key to it.
    pub fn next_wanted(&self, key: PieceKey) -> Option<PieceKey>
        ensures { IsNextWanted S.same self.now key result }
    {
        self.slots.first_at_least(Mark::Wanted, key)
    }

    /// The first piece from the key on that is wanted and has no live ticket. It costs a step for each piece from the key to it.
    pub fn next_free(&self, key: PieceKey) -> Option<PieceKey>
        ensures { IsNextFree S.same self.now key result }
    {
        self.slots.first_at_least(Mark::Free, key)
    }

    /// What a job for the key is to start from: the exit of the nearest earlier window of its owner that has a result, or else
    /// the owner's opening state. It costs a step for each window between that has none.
    pub fn entry_for(&self, key: PieceKey) -> Option<&Arc<S>>
        ensures { option_map (λ a. arc_value a.now) result ≡ entry_for key self.now }
    {
        match self.slots.last_result(key) {
            Some(stored) => Some(exit(stored)),
            None => self.openings.get(key.owner),
        }
    }

    /// Puts in a piece of an owner: a window that was never checked. AllocError where memory is refused:
    /// then nothing has changed.
    pub fn insert(&mut self, key: PieceKey) -> Result<(), AllocError>
        requires owner { is_some (opening_of key.owner self.old.openings) ≡ true }
        requires absent { piece_at key self.old ≡ None }
        ensures ok { OnOk result (self.new ≡ with_pieces self.old (insert_entry key_cmp self.old.pieces key empty)) }
        ensures err { OnErr result (self.new ≡ self.old) }
    {
        self.slots.put(key)?;
        let next = self.slots.next_of_owner(key);
        judge_next(&self.openings, &mut self.slots, next);
        Ok(())
    }

    /// Takes out a piece.
    pub fn remove(&mut self, key: PieceKey)
        requires { is_some (piece_at key self.old) ≡ true }
        ensures { self.new ≡ with_pieces self.old (remove_entry (is_at (key_cmp key)) self.old.pieces) }
    {
        let next = self.slots.next_of_owner(key);
        self.slots.take(key);
        judge_next(&self.openings, &mut self.slots, next);
    }

    /// A piece loses its result and its live ticket.
    pub fn touch(&mut self, key: PieceKey)
        requires { is_some (piece_at key self.old) ≡ true }
        ensures { self.new ≡ with_pieces self.old (change key (λ _. empty) self.old.pieces) }
    {
        let next = self.slots.next_of_owner(key);
        self.slots.change(key, Change::Touched);
        judge_next(&self.openings, &mut self.slots, next);
    }

    /// All pieces of an owner lose their results and their live tickets. It goes over these alone.
    pub fn touch_all(&mut self, owner: u32)
        ensures { self.new ≡ with_pieces self.old (touched_all owner self.old.pieces) }
    {
        let mut next = self.first_of(owner);
        while let Some(key) = next {
            self.touch(key);
            next = self.next_of(key);
        }
    }

    /// A piece gets a result; its ticket stays.
    pub fn store(&mut self, key: PieceKey, stored: Stored<S, R>)
        requires { is_some (piece_at key self.old) ≡ true }
        ensures { self.new ≡ with_pieces self.old (change key (with_result (pass_of stored)) self.old.pieces) }
    {
        let next = self.slots.next_of_owner(key);
        self.slots.change(key, Change::Result(stored));
        judge(&self.openings, &mut self.slots, key);
        judge_next(&self.openings, &mut self.slots, next);
    }

    /// The same of a result that begins with what its job was to start from. States are compared only for the piece after it.
    pub fn store_following(&mut self, key: PieceKey, stored: Stored<S, R>)
        requires there { is_some (piece_at key self.old) ≡ true }
        requires entry { entry_for key self.old ≡ Some (arc_value stored.entry) }
        requires same { S.same (arc_value stored.entry) (arc_value stored.entry) }
        ensures { self.new ≡ with_pieces self.old (change key (with_result (pass_of stored)) self.old.pieces) }
    {
        let next = self.slots.next_of_owner(key);
        self.slots.change(key, Change::Result(stored));
        begins(&mut self.slots, key);
        judge_next(&self.openings, &mut self.slots, next);
    }

    /// A piece gets a live ticket, or loses the one that it has.
    pub fn set_live(&mut self, key: PieceKey, live: Option<u64>)
        ensures { self.new ≡ with_pieces self.old (change key (with_live live) self.old.pieces) }
    {
        self.slots.change(key, Change::Live(live));
    }
}
