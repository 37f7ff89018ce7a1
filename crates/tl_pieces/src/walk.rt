//! A walk over the pieces of a map.

use crate::key::PieceKey;
use crate::slot::{Slot, Stored};
use std::collections::btree_map::Iter;

/// What a map keeps of a piece.
#[derive(Drop)]
pub struct PieceRef<'a, S, R> {
    pub key: PieceKey,
    pub result: Option<&'a Stored<S, R>>,
    /// The live ticket.
    pub live: Option<u64>,
}

/// The pieces that are left, in the order of their keys.
#[derive(Drop)]
pub struct Pieces<'a, S, R> {
    slots: Iter<'a, PieceKey, Slot<S, R>>,
}

impl<'a, S, R> Pieces<'a, S, R> {
    ghost use Rattle.std.specs.Prelude.{◌≡◌};
    ghost use Rattle.tl_pieces.specs.Marks.{shown};
    ghost use Rattle.tl_pieces.specs.PieceWalk.{pieces_left};

    /// All pieces that the walk has.
    pub(crate) fn new(slots: Iter<'a, PieceKey, Slot<S, R>>) -> Self
        ensures { pieces_left result ≡ shown slots.entry }
    {
        Pieces { slots }
    }
}

impl<'a, S, R> Iterator for Pieces<'a, S, R> {
    ghost use Rattle.std.specs.Iterator.{YieldsFirstBy, item_count};
    ghost use Rattle.tl_pieces.specs.PieceWalk.{pieces_left, piece_seen};

    type Item = PieceRef<'a, S, R>;

    ghost next_gives = { YieldsFirstBy piece_seen pieces_left };

    ghost remaining = { item_count pieces_left };

    /// The first piece that is left.
    fn next(&mut self) -> Option<PieceRef<'a, S, R>> {
        match self.slots.next() {
            Some((key, slot)) => Some(PieceRef {
                key: *key,
                result: slot.result.as_ref(),
                live: slot.live,
            }),
            None => None,
        }
    }
}
