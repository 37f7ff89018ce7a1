//! A walk over the blocks of a map.

use crate::place::Place;
use std::collections::btree_map::Iter;

/// The blocks of a map that are left.
#[derive(Drop)]
pub struct Blocks<'a, V: Copy + Drop> {
    // What is left of the places.
    near: &'a [Place<V>],
    // The blocks that are kept elsewhere.
    far: Iter<'a, u64, V>,
}

impl<'a, V: Copy + Drop> Blocks<'a, V> {
    ghost use Rattle.std.specs.Prelude.{◌≡◌, ◌++◌, map};
    ghost use Rattle.tl_state.specs.BlockMap.{near_blocks};
    ghost use Rattle.tl_state.specs.BlockWalk.{blocks_left};

    /// All blocks at these places and these entries.
    pub(crate) fn new(near: &'a [Place<V>], far: Iter<'a, u64, V>) -> Self
        ensures { blocks_left result ≡ near_blocks near.now ++ map (λ e. e.0) far.entry }
    {
        Blocks { near, far }
    }
}

impl<'a, V: Copy + Drop> Iterator for Blocks<'a, V> {
    ghost use Rattle.std.specs.Iterator.{YieldsFirst, item_count};
    ghost use Rattle.tl_state.specs.BlockWalk.{blocks_left};

    type Item = u64;

    ghost next_gives = { YieldsFirst blocks_left };

    ghost remaining = { item_count blocks_left };

    /// The first block that is left.
    #[tactic(auto, using(crate::proofs::BlockMapLaws::left_some, crate::proofs::BlockMapLaws::left_none))]
    fn next(&mut self) -> Option<u64> {
        while let Some((place, others)) = self.near.split_first() {
            self.near = others;
            if let Some((block, _)) = place.held() {
                return Some(block);
            }
        }
        let (block, _) = self.far.next()?;
        Some(*block)
    }
}
