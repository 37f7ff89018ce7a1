//! The monitors that a desk owns, and what those told that ended.

ghost use Rattle.std.specs.Prelude.{◌≡◌, ◌++◌, [], map, Some, None, OnOk, OnErr, IfErr, IfSome, IsSomeAnd, is_some, true};
ghost use Rattle.std.specs.Option.{option_map_or};
ghost use Rattle.tl_monitor.specs.Boxes.{BoxesData, IsBoxes, place_at, held_at, away_at, attached_at, given_back_at, retuned_at, detached_at, taken_at, brought_back, first_out, here_in, told, placed_at, ended_at};
ghost use Rattle.tl_monitor.specs.Places.{Here, Out, tuned, limit_of, place_closing, leaving};

use crate::away::Away;
use crate::slot::{Slot, end};
use crate::watch::limit;
use crate::{Monitor, Settlement, Watched};
use std::alloc::{AllocFailed, Global};
use std::collections::BTreeMap;
use std::marker::Model;

/// The ticket of a monitor that is lent for a check, which no job has.
const LENT: u64 = 0;

/// The monitors of a desk by number, each of which is here or out with a job under a ticket, and what each told that ended, in the
/// order of their ends.
#[derive(Drop)]
pub struct Boxes<M: Monitor> {
    slots: BTreeMap<u32, Slot<M>>,
    ended: Vec<(u32, Settlement)>,
}

impl<M: Monitor> Model for Boxes<M> {
    ghost use Rattle.std.specs.Prelude.{length, ◌+◌, ◌≤◌, vec_capacity};
    ghost use Rattle.tl_monitor.specs.Boxes.{BoxesData, AreKept};

    ghost Value = { BoxesData };

    ghost view = { λ b. record { slots = b.slots.entries; ended = b.ended.items } };

    // There is room for what each monitor tells at its end, and one that is out left with the watch that it is to have, but for the
    // limit.
    ghost invariant = { λ b. (length b.slots.entries + length b.ended.items ≤ vec_capacity b.ended) × AreKept b.slots.entries };
}

// The first number that is out.
fn first_away<M: Monitor>(slots: &BTreeMap<u32, Slot<M>>) -> Option<u32>
    ensures { result ≡ first_out slots.now.entries }
{
    for (number, slot) in slots {
        if !slot.is_here() {
            return Some(*number);
        }
    }
    None
}

impl<M: Monitor> Boxes<M> {
    /// No monitors.
    pub fn new(alloc: Global) -> Boxes<M>
        ensures { result ≡ record { slots = []; ended = [] } }
    {
        Boxes {
            slots: BTreeMap::new(alloc),
            ended: Vec::new(alloc),
        }
    }

    /// What each monitor told that ended, with its number, in the order of their ends.
    pub fn settlements(&self) -> &[(u32, Settlement)]
        ensures exact { result.now ≡ self.now.ended }
        ensures kept { IsBoxes self.now }
    {
        // The numbers rise.
        let _ = self.slots.len();
        self.ended.as_slice()
    }

    /// Whether there is a monitor of a number, here or out.
    pub fn contains(&self, number: u32) -> bool
        ensures { result ≡ is_some (place_at number self.now.slots) }
    {
        self.slots.contains_key(&number)
    }

    /// Whether the monitor of a number is here.
    pub fn is_here(&self, number: u32) -> bool
        ensures { result ≡ is_some (held_at number self.now.slots) }
    {
        match self.slots.get(&number) {
            Some(slot) => slot.is_here(),
            None => false,
        }
    }

    /// What is known of the monitor of a number that is out.
    pub fn away(&self, number: u32) -> Option<Away>
        ensures { result ≡ away_at number self.now.slots }
    {
        self.slots.get(&number)?.away()
    }

    /// The lowest number of a monitor that is out. None: each is here.
    pub fn first_away(&self) -> Option<u32>
        ensures { result ≡ first_out self.now.slots }
    {
        first_away(&self.slots)
    }

    /// Takes a monitor in under a number that no other has, with room for what it tells at its end. Where memory is refused it
    /// comes back, and nothing has changed.
    pub fn attach(&mut self, number: u32, monitor: Watched<M>) -> Result<(), Watched<M>>
        requires { place_at number self.old.slots ≡ None }
        ensures ok { OnOk result (self.new ≡ attached_at number monitor self.old) }
        ensures err { OnErr result (self.new ≡ self.old) }
        ensures back { IfErr result (λ same. same ≡ monitor) }
    {
        let room = self.slots.len() + 1;
        if self.ended.try_reserve(room).is_err() {
            return Err(monitor);
        }
        match self.slots.insert(number, Slot::new(monitor)) {
            Ok(_) => Ok(()),
            Err(failed) => {
                let AllocFailed { value: (_, slot) } = failed;
                Err(slot.into_monitor().unwrap())
            }
        }
    }

    /// Gives the monitor of a number back that is here, as if it had not come. None: there is none here, and nothing has changed.
    pub fn give_back(&mut self, number: u32) -> Option<Watched<M>>
        ensures monitor { result ≡ held_at number self.old.slots }
        ensures rest { self.new ≡ given_back_at number self.old }
    {
        if !self.is_here(number) {
            return None;
        }
        self.slots.remove(&number)?.into_monitor()
    }

    /// Gives a Budget another limit, if there is one of the number: one that is out has it when it comes back.
    pub fn retune(&mut self, number: u32, limit: u32)
        ensures { self.new ≡ retuned_at number limit self.old }
    {
        // There is room for what each tells at its end, and each that is out left with its watch.
        let _ = &self.ended;
        if let Some(slot) = self.slots.get_mut(&number) {
            slot.retune(limit);
        }
    }

    // Ends the monitor of a number that is here.
    fn end_here(&mut self, number: u32, edit: u64)
        requires { is_some (held_at number self.old.slots) ≡ true }
        ensures { IfSome (held_at number self.old.slots) (λ held. self.new ≡ ended_at number held edit self.old) }
    {
        // There is room for what each tells at its end, and each that is out left with its watch.
        let _ = &self.ended;
        let slot = self.slots.remove(&number).unwrap();
        let told = end(slot.into_monitor().unwrap(), edit);
        self.ended.push((number, told)).unwrap();
    }

    // Ends a monitor that comes back under a number that is out.
    fn end_back(&mut self, number: u32, monitor: Watched<M>, edit: u64)
        requires { is_some (place_at number self.old.slots) ≡ true }
        ensures { self.new ≡ ended_at number monitor edit self.old }
    {
        // There is room for what each tells at its end, and each that is out left with its watch.
        let _ = &self.ended;
        drop(self.slots.remove(&number));
        let told = end(monitor, edit);
        self.ended.push((number, told)).unwrap();
    }

    // Keeps the edit that detached the monitor of a number, if it is out.
    fn set_closing(&mut self, number: u32, edit: u64)
        ensures { self.new ≡ option_map_or (λ place. placed_at number (place_closing edit place) self.old) (place_at number self.old.slots) self.old }
    {
        // There is room for what each tells at its end, and each that is out left with its watch.
        let _ = &self.ended;
        if let Some(slot) = self.slots.get_mut(&number) {
            slot.set_closing(edit);
        }
    }

    // Puts a monitor at the place of a number.
    fn put(&mut self, number: u32, monitor: Watched<M>)
        requires { is_some (place_at number self.old.slots) ≡ true }
        ensures { self.new ≡ placed_at number (Here monitor) self.old }
    {
        // There is room for what each tells at its end, and each that is out left with its watch.
        let _ = &self.ended;
        let slot = self.slots.get_mut(&number).unwrap();
        slot.put(monitor);
    }

    /// Detaches the monitor of a number, if there is one. One that is here is closed with the edit's number and dropped, and what it
    /// told stands last; one that is out is to be closed so when it comes back.
    pub fn detach(&mut self, number: u32, edit: u64)
        ensures { self.new ≡ detached_at number edit self.old }
    {
        if self.is_here(number) {
            self.end_here(number, edit);
        } else {
            self.set_closing(number, edit);
        }
    }

    /// Gives the monitor of a number that is here, which is then out under the ticket. None: there is none here, and nothing has
    /// changed. Takes no memory.
    pub fn take_box(&mut self, number: u32, ticket: u64) -> Option<Watched<M>>
        ensures monitor { result ≡ held_at number self.old.slots }
        ensures rest { self.new ≡ taken_at number ticket self.old }
    {
        // There is room for what each tells at its end, and each that is out left with its watch.
        let _ = &self.ended;
        self.slots.get_mut(&number)?.take(ticket)
    }

    /// Takes a monitor back that was out, with the last limit. Where it was detached meanwhile it is closed with that edit and
    /// dropped, and what it told stands last; else it is here again. Takes no memory.
    pub fn bring_back(&mut self, number: u32, monitor: Watched<M>)
        requires { IsSomeAnd (away_at number self.old.slots) (λ away. away.taken ≡ monitor.watch) }
        ensures { self.new ≡ brought_back number monitor self.old }
    {
        let away = self.away(number).unwrap();
        let mut monitor = monitor;
        monitor.retune(limit(&away.watch));
        match away.closing {
            Some(edit) => self.end_back(number, monitor, edit),
            None => self.put(number, monitor),
        }
    }

    /// Lends the monitor of a number that is here, which is then out under ticket 0, as no job's is, until it is put back. None: there
    /// is none here, and nothing has changed. Takes no memory.
    pub fn take_here(&mut self, number: u32) -> Option<Watched<M>>
        ensures monitor { result ≡ held_at number self.old.slots }
        ensures rest { self.new ≡ taken_at number 0 self.old }
    {
        self.take_box(number, LENT)
    }

    /// Puts a monitor back that was lent: it is here again, as it is now. Takes no memory.
    pub fn put_here(&mut self, number: u32, monitor: Watched<M>)
        requires { away_at number self.old.slots ≡ Some (leaving 0 monitor) }
        ensures { self.new ≡ placed_at number (Here monitor) self.old }
    {
        self.put(number, monitor);
    }

    /// Ends all monitors, in the order of their numbers, and answers what each told that ended, before or now.
    pub fn finish(self, edit: u64) -> Vec<(u32, Settlement)>
        requires { first_out self.slots ≡ None }
        ensures { result.items ≡ self.ended ++ map (λ e. (e.0, told e.1 edit)) (here_in self.slots) }
    {
        let Boxes {
            mut slots,
            mut ended,
        } = self;
        while let Some((number, slot)) = slots.pop_first() {
            let told = end(slot.into_monitor().unwrap(), edit);
            ended.push((number, told)).unwrap();
        }
        ended
    }
}
