//! What is kept by a small number, such as a source or a sink.

ghost use Rattle.std.specs.Prelude.{◌≡◌, ◌≤◌, ℕ, ◌==◌, None, slice_index_or, length, IsSome, IfOk, OnOk, OnErr, if◌then◌else◌};
ghost use Rattle.std.specs.Bool.{Decides};

use std::alloc::{AllocError, Global};
use std::collections::BTreeMap;
use std::mem;
use tl_same::{Exact, Faithful, Same};

/// The numbers below this stand at their places.
const LOW: u16 = 256;

/// Values by numbers of 16 bits. Those of the first 256 numbers stand at their places, so that they are found without a search.
#[derive(Drop)]
pub struct Slots<V: Copy + Drop> {
    /// The values of the first numbers, as far as one had a value.
    low: Vec<Option<V>>,
    /// The values of the others, each by how far it is above the first of these.
    high: BTreeMap<u16, V>,
}

/// Gives a place this value, and answers the value that it had. Only a value of a place that has none can find no memory, and then nothing
/// has changed.
#[inline(always)]
fn put<V: Copy + Drop>(
    low: &mut Vec<Option<V>>,
    number: u16,
    value: Option<V>,
) -> Result<Option<V>, AllocError>
    ensures old { IfOk result (λ old. old ≡ slice_index_or low.old.items number None) }
    ensures ok { OnOk result ((other : ℕ) → slice_index_or low.new.items other None ≡ (if number == other then value else slice_index_or low.old.items other None)) }
    ensures err { OnErr result (low.new.items ≡ low.old.items) }
    ensures absent { OnErr result (slice_index_or low.old.items number None ≡ None) }
    ensures wanted { OnErr result (IsSome value) }
{
    let place = usize::from(number);
    if place >= low.len() {
        if value.is_none() {
            return Ok(None);
        }
        low.resize(place + 1, None)?;
    }
    Ok(mem::replace(&mut low[place], value))
}

impl<V: Copy + Drop> Slots<V> {
    ghost use Rattle.tl_state.specs.Slots.{slot_of, SameSlots, AgreeOn};

    /// No number has a value.
    pub fn new(alloc: Global) -> Self
        ensures { (key : ℕ) → slot_of result key ≡ None }
    {
        Slots {
            low: Vec::new(alloc),
            high: BTreeMap::new(alloc),
        }
    }

    /// The value of a number.
    #[inline(always)]
    pub fn get(&self, key: u16) -> Option<V>
        ensures { result ≡ slot_of self.now key }
    {
        if key >= LOW {
            return self.high.get(&(key - LOW)).copied();
        }
        self.at(usize::from(key))
    }

    /// Gives a number above the first this value, or takes it away.
    fn set_high(&mut self, key: u16, value: Option<V>) -> Result<Option<V>, AllocError>
        requires { 256 ≤ key }
        ensures old { IfOk result (λ old. old ≡ slot_of self.old key) }
        ensures ok { OnOk result ((other : ℕ) → slot_of self.new other ≡ (if key == other then value else slot_of self.old other)) }
        ensures err { OnErr result ((other : ℕ) → slot_of self.new other ≡ slot_of self.old other) }
        ensures absent { OnErr result (slot_of self.old key ≡ None) }
        ensures wanted { OnErr result (IsSome value) }
    {
        match value {
            Some(value) => Ok(self.high.insert(key - LOW, value)?),
            None => Ok(self.high.remove(&(key - LOW))),
        }
    }

    /// Gives the number this value, or takes its value away, and answers the value that it had. Only a value of a number that has none
    /// can find no memory, and then nothing has changed.
    #[tactic(auto, using(crate::proofs::SlotLaws::low_set, crate::proofs::SlotLaws::low_kept))]
    #[inline(always)]
    pub fn set(&mut self, key: u16, value: Option<V>) -> Result<Option<V>, AllocError>
        ensures old { IfOk result (λ old. old ≡ slot_of self.old key) }
        ensures ok { OnOk result ((other : ℕ) → slot_of self.new other ≡ (if key == other then value else slot_of self.old other)) }
        ensures err { OnErr result ((other : ℕ) → slot_of self.new other ≡ slot_of self.old other) }
        ensures absent { OnErr result (slot_of self.old key ≡ None) }
        ensures wanted { OnErr result (IsSome value) }
    {
        if key >= LOW {
            self.set_high(key, value)
        } else {
            put(&mut self.low, key, value)
        }
    }

    /// Takes the value of a number away, and answers it.
    #[inline(always)]
    pub fn take(&mut self, key: u16) -> Option<V>
        ensures value { result ≡ slot_of self.old key }
        ensures after { (other : ℕ) → slot_of self.new other ≡ (if key == other then None else slot_of self.old other) }
    {
        match self.set(key, None) {
            Ok(value) => value,
            Err(_) => None,
        }
    }

    /// How many places there are up to the last that has a value.
    fn used(&self) -> usize
        ensures within { result ≤ length self.now.low.items }
        ensures empty { (key : ℕ) → result ≤ key → slice_index_or self.now.low.items key None ≡ None }
    {
        let mut used = self.low.len();
        while used > 0 && self.low[used - 1].is_none() {
            used -= 1;
        }
        used
    }

    /// The same values, in as few places as they need. AllocError where memory is refused.
    pub fn copy(&self) -> Result<Self, AllocError>
    where
        V: Faithful,
        ensures { IfOk result (λ copy. SameSlots self.now copy) }
    {
        Ok(Slots {
            low: Vec::from_slice(*self.low.allocator(), &self.low[..self.used()])?,
            high: self.high.clone()?,
        })
    }

    /// The value at a place.
    #[inline(always)]
    fn at(&self, place: usize) -> Option<V>
        ensures { result ≡ slice_index_or self.now.low.items place None }
    {
        if place < self.low.len() {
            self.low[place]
        } else {
            None
        }
    }

    /// Whether the other has the same value at each place that there is here.
    fn agrees(&self, other: &Self) -> bool
    where
        V: Exact,
        ensures { Decides result (AgreeOn self.now other.now) }
    {
        for place in 0..self.low.len().min(usize::from(LOW)) {
            if self.at(place) != other.at(place) {
                return false;
            }
        }
        true
    }

    /// Whether both have the same value on each number.
    pub fn same_slots(&self, other: &Self) -> bool
    where
        V: Exact,
        ensures { Decides result (SameSlots self.now other.now) }
    {
        let _here = self.high.len();
        let _there = other.high.len();
        if !self.agrees(other) {
            return false;
        }
        if !other.agrees(self) {
            return false;
        }
        self.high == other.high
    }
}

ghost use Rattle.tl_state.specs.Slots.{SameSlots};

impl<V: Copy + Exact + Drop> Same for Slots<V> {
    ghost same = { SameSlots };

    fn is_same(&self, other: &Self) -> bool {
        self.same_slots(other)
    }
}
