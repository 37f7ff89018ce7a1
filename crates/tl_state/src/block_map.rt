//! What is kept by block, most of it found by one look.

ghost use Rattle.std.specs.Prelude.{◌≡◌, ℕ, ◌==◌, ◌<◌, None, Some, true, false, length, slice_index_or, IsSome, IfOk, OnOk, OnErr, if◌then◌else◌};
ghost use Rattle.std.specs.Bool.{Decides};
ghost use Rattle.std.specs.BTreeMap.{get};
ghost use Rattle.std.specs.Ordering.{nat_cmp};
ghost use Rattle.tl_state.specs.BlockMap.{home_of, held_at, own_or, AreTold, IsFreed};

use crate::block_walk::Blocks;
use crate::place::Place;
use std::alloc::{AllocError, Global};
use std::collections::BTreeMap;
use std::marker::Model;
use tl_same::{Exact, Same};

/// How many places a map has once it has a value.
const FIRST_PLACES: usize = 4;

/// How many times as many it has next.
const MORE: usize = 4;

/// The most places that a map has.
const MOST_PLACES: usize = 1 << 16;

/// A map gets more places once there is a block without one for each so many.
const CROWDED: usize = 16;

/// An odd number near 2 ^ 64 divided by the golden ratio: its multiples lie apart, those of neighbours too.
const SPREAD: u64 = 0x9E37_79B9_7F4A_7C15;

/// Values by block. Each block has a place, which it shares with others; the first of them that comes stands there, and is found by one
/// look. Only the others are searched for, and a place tells whether there are any.
#[derive(Drop)]
pub struct BlockMap<V: Copy + Drop> {
    /// The places, each with the block that stands there and its value.
    near: Vec<Place<V>>,
    /// Of each place, whether a block of it may be among the others.
    told: Vec<bool>,
    /// The blocks whose place was taken.
    far: BTreeMap<u64, V>,
}

impl<V: Copy + Drop> Model for BlockMap<V> {
    ghost use Rattle.std.specs.Prelude.{length};
    ghost use Rattle.tl_state.specs.BlockMap.{BlockData, AreTold};

    ghost Value = { BlockData V };

    ghost view = { λ m. record { near = m.near.items; far = m.far.entries } };

    ghost invariant = { λ m. AreTold (length m.near.items) m.told.items m.far };
}

/// The place of a block among so many, a power of two.
#[inline(always)]
fn home_of(places: usize, block: u64) -> usize
    ensures { result ≡ home_of places block }
{
    (block.wrapping_mul(SPREAD) >> 40) as usize & places.saturating_sub(1)
}

/// What stands at a place.
#[inline(always)]
fn held_at<V: Copy + Drop>(near: &[Place<V>], place: usize) -> Option<(u64, V)>
    ensures { result ≡ held_at near.now place }
{
    match near.get(place) {
        Some(place) => place.held(),
        None => None,
    }
}

/// Gives a place this.
#[inline(always)]
fn set_place<V: Copy + Drop>(near: &mut Vec<Place<V>>, place: usize, held: Place<V>)
    requires { place < length near.old.items }
    ensures at { (other : ℕ) → held_at near.new.items other ≡ (if place == other then held else held_at near.old.items other) }
    ensures count { length near.new.items ≡ length near.old.items }
{
    near[place] = held;
}

/// Whether a block of a place may be kept outside the places.
#[inline(always)]
fn is_told(told: &[bool], place: usize) -> bool
    ensures { result ≡ slice_index_or told.now place true }
{
    match told.get(place) {
        Some(is_told) => *is_told,
        None => true,
    }
}

/// The value that is kept of a block outside so many places.
fn far_value<V: Copy + Drop>(
    places: usize,
    told: &[bool],
    far: &BTreeMap<u64, V>,
    block: u64,
) -> Option<V>
    requires { AreTold places told.now far.now }
    ensures { result ≡ get nat_cmp far.now block }
{
    if is_told(told, home_of(places, block)) {
        far.get(&block).copied()
    } else {
        None
    }
}

/// Has a place tell that a block of it may be kept outside the places.
fn tell(told: &mut Vec<bool>, place: usize)
    ensures { (other : ℕ) → slice_index_or told.new.items other true ≡ (if place == other then true else slice_index_or told.old.items other true) }
{
    if place < told.len() {
        told[place] = true;
    }
}

/// Keeps a value outside so many places. At want of memory nothing has changed.
fn put_far<V: Copy + Drop>(
    places: usize,
    told: &mut Vec<bool>,
    far: &mut BTreeMap<u64, V>,
    block: u64,
    value: V,
) -> Result<Option<V>, AllocError>
    requires { AreTold places told.old.items far.old }
    ensures told { AreTold places told.new.items far.new }
    ensures old { IfOk result (λ old. old ≡ get nat_cmp far.old block) }
    ensures ok { OnOk result ((other : ℕ) → get nat_cmp far.new other ≡ (if block == other then Some value else get nat_cmp far.old other)) }
    ensures err { OnErr result ((other : ℕ) → get nat_cmp far.new other ≡ get nat_cmp far.old other) }
    ensures absent { OnErr result (get nat_cmp far.old block ≡ None) }
{
    tell(told, home_of(places, block));
    Ok(far.insert(block, value)?)
}

/// Takes away what is kept of a block outside so many places, and answers it.
fn take_far<V: Copy + Drop>(
    places: usize,
    told: &[bool],
    far: &mut BTreeMap<u64, V>,
    block: u64,
) -> Option<V>
    requires { AreTold places told.now far.old }
    ensures value { result ≡ get nat_cmp far.old block }
    ensures told { AreTold places told.now far.new }
    ensures after { (other : ℕ) → get nat_cmp far.new other ≡ (if block == other then None else get nat_cmp far.old other) }
{
    if is_told(told, home_of(places, block)) {
        far.remove(&block)
    } else {
        None
    }
}

/// Frees the place of a block, where it is its own, and answers the value that stood there.
fn take_near<V: Copy + Drop>(near: &mut Vec<Place<V>>, block: u64) -> Option<V>
    ensures value { result ≡ own_or block (held_at near.old.items (home_of (length near.old.items) block)) None }
    ensures places { IsFreed near.old.items near.new.items block }
    ensures count { length near.new.items ≡ length near.old.items }
{
    let home = home_of(near.len(), block);
    match held_at(near, home) {
        Some((held, value)) if held == block => {
            set_place(near, home, Place::free());
            Some(value)
        }
        _ => None,
    }
}

impl<V: Copy + Drop> BlockMap<V> {
    ghost use Rattle.tl_state.specs.BlockMap.{value_at, has_place, blocks_of, SameValues, AgreeOn};
    ghost use Rattle.tl_state.specs.BlockWalk.{blocks_left};

    /// No block has a value.
    #[tactic(auto, unfolding(crate::specs::BlockMap::value_at))]
    pub fn new(alloc: Global) -> Self
        ensures { (block : ℕ) → value_at result block ≡ None }
    {
        BlockMap {
            near: Vec::new(alloc),
            told: Vec::new(alloc),
            far: BTreeMap::new(alloc),
        }
    }

    /// No block has a value, and there are so many places.
    #[tactic(auto, unfolding(crate::specs::BlockMap::value_at))]
    fn with_places(alloc: Global, places: usize) -> Result<Self, AllocError>
        ensures { IfOk result (λ blocks. (block : ℕ) → value_at blocks block ≡ None) }
    {
        let mut near = Vec::new(alloc);
        near.resize(places, Place::free())?;
        let mut told = Vec::new(alloc);
        told.resize(places, false)?;
        Ok(BlockMap {
            near,
            told,
            far: BTreeMap::new(alloc),
        })
    }

    /// The value of a block.
    #[tactic(auto, unfolding(crate::specs::BlockMap::value_at))]
    #[inline(always)]
    pub fn get(&self, block: u64) -> Option<V>
        ensures { result ≡ value_at self.now block }
    {
        match held_at(&self.near, home_of(self.near.len(), block)) {
            Some((held, value)) if held == block => Some(value),
            _ => far_value(self.near.len(), &self.told, &self.far, block),
        }
    }

    /// Whether the place of the block is free or its own.
    #[inline(always)]
    fn has_place(&self, block: u64) -> bool
        ensures { result ≡ has_place self.now.near block }
    {
        match self.near.get(home_of(self.near.len(), block)) {
            Some(place) => match place.held() {
                Some((held, _)) => held == block,
                None => true,
            },
            None => false,
        }
    }

    /// The value of a block whose place is free or its own.
    #[inline(always)]
    #[tactic(auto, unfolding(crate::specs::BlockMap::value_at))]
    fn get_near(&self, block: u64) -> Option<V>
        requires { has_place self.now.near block ≡ true }
        ensures { result ≡ value_at self.now block }
    {
        match self.near[home_of(self.near.len(), block)].held() {
            Some((_, value)) => Some(value),
            None => far_value(self.near.len(), &self.told, &self.far, block),
        }
    }

    /// Gives a block the value at its place.
    #[inline(always)]
    #[tactic(auto, unfolding(crate::specs::BlockMap::value_at))]
    fn put_near(&mut self, block: u64, value: V)
        requires { has_place self.old.near block ≡ true }
        ensures { (other : ℕ) → value_at self.new other ≡ (if block == other then Some value else value_at self.old other) }
    {
        let home = home_of(self.near.len(), block);
        set_place(&mut self.near, home, Place::of(block, value));
    }

    /// Gives the block a value, at its place if that is free or its own.
    #[tactic(auto, unfolding(crate::specs::BlockMap::value_at))]
    fn put(&mut self, block: u64, value: V) -> Result<Option<V>, AllocError>
        ensures old { IfOk result (λ old. old ≡ value_at self.old block) }
        ensures ok { OnOk result ((other : ℕ) → value_at self.new other ≡ (if block == other then Some value else value_at self.old other)) }
        ensures err { OnErr result ((other : ℕ) → value_at self.new other ≡ value_at self.old other) }
        ensures absent { OnErr result (value_at self.old block ≡ None) }
    {
        if self.has_place(block) {
            let before = self.get_near(block);
            self.put_near(block, value);
            return Ok(before);
        }
        let places = self.near.len();
        put_far(places, &mut self.told, &mut self.far, block, value)
    }

    /// Takes the value of a block away, and answers it.
    #[tactic(auto, unfolding(crate::specs::BlockMap::value_at))]
    #[inline(always)]
    pub fn take(&mut self, block: u64) -> Option<V>
        ensures value { result ≡ value_at self.old block }
        ensures after { (other : ℕ) → value_at self.new other ≡ (if block == other then None else value_at self.old other) }
    {
        let here = take_near(&mut self.near, block);
        let there = take_far(self.near.len(), &self.told, &mut self.far, block);
        if here.is_some() { here } else { there }
    }

    /// Gives the block a value, or takes its value away, without more places.
    #[inline(always)]
    fn assign(&mut self, block: u64, value: Option<V>) -> Result<Option<V>, AllocError>
        ensures old { IfOk result (λ old. old ≡ value_at self.old block) }
        ensures ok { OnOk result ((other : ℕ) → value_at self.new other ≡ (if block == other then value else value_at self.old other)) }
        ensures err { OnErr result ((other : ℕ) → value_at self.new other ≡ value_at self.old other) }
        ensures absent { OnErr result (value_at self.old block ≡ None) }
        ensures wanted { OnErr result (IsSome value) }
    {
        match value {
            Some(value) => self.put(block, value),
            None => Ok(self.take(block)),
        }
    }

    /// Gives the block a value, or takes its value away, and answers the value that it had. Only a value of a block that has none can find
    /// no memory, and then nothing has changed.
    #[inline(always)]
    pub fn set(&mut self, block: u64, value: Option<V>) -> Result<Option<V>, AllocError>
        ensures old { IfOk result (λ old. old ≡ value_at self.old block) }
        ensures ok { OnOk result ((other : ℕ) → value_at self.new other ≡ (if block == other then value else value_at self.old other)) }
        ensures err { OnErr result ((other : ℕ) → value_at self.new other ≡ value_at self.old other) }
        ensures absent { OnErr result (value_at self.old block ≡ None) }
        ensures wanted { OnErr result (IsSome value) }
    {
        if value.is_some() && !self.has_place(block) {
            self.make_room();
        }
        self.assign(block, value)
    }

    /// Gives the map more places where that would save searches.
    #[cold]
    #[inline(never)]
    fn make_room(&mut self)
        ensures { SameValues self.old self.new }
    {
        if self.is_crowded() {
            self.widen();
        }
    }

    /// Whether more places would save searches.
    fn is_crowded(&self) -> bool {
        self.far.len() >= self.near.len() / CROWDED && self.near.len() < MOST_PLACES
    }

    /// Gives the map more places, where there is memory for them.
    fn widen(&mut self)
        ensures { SameValues self.old self.new }
    {
        let places = FIRST_PLACES.max(self.near.len().saturating_mul(MORE));
        if let Ok(wide) = self.rebuilt(places) {
            *self = wide;
        }
    }

    /// The same values, with so many places. AllocError where memory is refused.
    #[tactic(auto, using(crate::proofs::BlockMapLaws::has_none))]
    fn rebuilt(&self, places: usize) -> Result<Self, AllocError>
        ensures { IfOk result (λ other. SameValues self.now other) }
    {
        let mut other = BlockMap::with_places(*self.near.allocator(), places)?;
        for block in self.blocks() {
            other.assign(block, self.get(block))?;
        }
        Ok(other)
    }

    /// The blocks that may have a value, each that has one among them.
    pub fn blocks(&self) -> Blocks<'_, V>
        ensures { blocks_left result ≡ blocks_of self.now }
    {
        Blocks::new(&self.near, self.far.iter())
    }

    /// True only where no block has a value; false says nothing.
    #[tactic(auto, using(crate::proofs::BlockMapLaws::no_blocks))]
    pub fn is_empty(&self) -> bool
        ensures { result ≡ true → (block : ℕ) → value_at self.now block ≡ None }
    {
        let mut blocks = self.blocks();
        blocks.next().is_none()
    }

    /// Takes all values away. The places stay, so that values that come need no memory for them.
    #[tactic(auto, unfolding(crate::specs::BlockMap::value_at))]
    pub fn clear(&mut self)
        ensures { (block : ℕ) → value_at self.new block ≡ None }
    {
        let near = self.near.len();
        let told = self.told.len();
        self.near.clear();
        self.told.clear();
        self.far.clear();
        let _ = self.near.resize(near, Place::free());
        let _ = self.told.resize(told, false);
    }

    /// The same values, with few places. AllocError where memory is refused.
    #[tactic(auto, using(crate::proofs::BlockMapLaws::none_are_same))]
    pub fn copy(&self) -> Result<Self, AllocError>
        ensures { IfOk result (λ copy. SameValues self.now copy) }
    {
        if self.is_empty() {
            return Ok(BlockMap::new(*self.near.allocator()));
        }
        self.rebuilt(FIRST_PLACES)
    }

    /// Whether both have the same value of a block.
    fn agrees_at(&self, other: &Self, block: u64) -> bool
    where
        V: Exact,
        ensures { Decides result (value_at self.now block ≡ value_at other.now block) }
    {
        self.get(block) == other.get(block)
    }

    /// Whether the other has the same value of each block that has one here.
    fn agrees(&self, other: &Self) -> bool
    where
        V: Exact,
        ensures { Decides result (AgreeOn self.now other.now (blocks_of self.now)) }
    {
        for block in self.blocks() {
            if !self.agrees_at(other, block) {
                return false;
            }
        }
        true
    }

    /// Whether both have the same value of each block.
    pub fn same_values(&self, other: &Self) -> bool
    where
        V: Exact,
        ensures { Decides result (SameValues self.now other.now) }
    {
        self.agrees(other) && other.agrees(self)
    }
}

ghost use Rattle.tl_state.specs.BlockMap.{SameValues};

impl<V: Copy + Exact + Drop> Same for BlockMap<V> {
    ghost same = { SameValues };

    fn is_same(&self, other: &Self) -> bool {
        self.same_values(other)
    }
}
