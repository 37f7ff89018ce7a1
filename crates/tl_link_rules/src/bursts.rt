//! Heads and later beats: which beat of a link begins a message, and which belongs to an earlier one.

ghost use Rattle.std.specs.Prelude.{◌≡◌, ◌≤◌, ℕ, List, [], None, Some, true, length, option_map, take};
ghost use Rattle.std.specs.List.{All};
ghost use Rattle.tl_tables.specs.Messages.{same_chan};
ghost use Rattle.tl_topology.specs.Topology.{IsSound};
ghost use Rattle.tl_topology.specs.declared.LinkDecl.{LinkDecl as Link};
ghost use Rattle.tl_beats.specs.Beats.{IsWellFormed};
ghost use Rattle.tl_definitions.specs.Breaks.{later_rules};
ghost use Rattle.tl_definitions.specs.Heads.{beat_count, message_of};
ghost use Rattle.tl_link_rules.specs.Bursts.{IsQuiet, SameBursts};

use crate::later::keeps_burst;
use tl_beats::Beat;
use tl_definitions::Unfinished;
use tl_same::Same;
use tl_tables::{Chan, Op, carries_data, chan_index, op_of};
use tl_topology::LinkDecl;

/// Where a beat stands in its message. [TileLink 1.8: serialization]
#[derive(Clone, Copy, Debug, PartialEq, Eq)]
pub enum Place {
    /// The first beat of a message.
    Head,
    /// A later beat of the message that begins with this one.
    Later(Beat),
}

/// How many beats the message has that begins with this beat: with data as many as the link's width asks, else one.
#[inline(always)]
fn message_count(link: &LinkDecl, op: Op, head: &Beat) -> u16
    requires link { IsSound link.now }
    requires beat { IsWellFormed head.now }
    requires message { message_of link.now head.now ≡ Some op }
    ensures exact { result ≡ beat_count link.now head.now }
    ensures positive { 1 ≤ result }
{
    if carries_data(op) {
        ((1u16 << head.size) / u16::from(link.width)).max(1)
    } else {
        1
    }
}

/// How many beats a message has that begins with this beat, 1 to 32,768: with data as many as the link's width asks, else
/// one. A beat whose opcode is no message of its channel and level has one. [TileLink 1.8: serialization]
pub fn beat_count(link: &LinkDecl, beat: &Beat) -> u16
    requires link { IsSound link.now }
    requires beat { IsWellFormed beat.now }
    ensures exact { result ≡ beat_count link.now beat.now }
    ensures positive { 1 ≤ result }
{
    match op_of(link.level, beat.chan, beat.opcode) {
        Some(op) => message_count(link, op, beat),
        None => 1,
    }
}

/// Whether a beat is on the channel and is seen to break no rule as a later beat of a burst with this head.
#[inline(always)]
fn is_quiet(chan: Chan, head: &Beat, beat: &Beat) -> bool
    ensures own { result ≡ true → same_chan beat.now.chan chan ≡ true }
    ensures rules { result ≡ true → (link : Link) → later_rules link beat.now head.now ≡ [] }
{
    beat.chan == chan && keeps_burst(head, beat)
}

/// How many beats at the front of these, at most so many, are of the channel of a burst with this head and are seen to break no rule as
/// its later beats.
fn quiet_count(chan: Chan, head: &Beat, most: usize, beats: &[Beat]) -> usize
    ensures most { result ≤ most }
    ensures within { result ≤ length beats.now }
    ensures quiet { All (IsQuiet chan head.now) (take result beats.now) }
{
    let mut count = 0;
    while count < most {
        match beats.get(count) {
            Some(beat) if is_quiet(chan, head, beat) => count += 1,
            _ => return count,
        }
    }
    count
}

/// The bursts of one link that still miss beats, one for each channel. [TileLink 1.8: serialization]
#[derive(Clone, Copy, Debug, PartialEq, Eq)]
pub struct BurstState {
    slots: [Option<Unfinished>; 5],
}

impl BurstState {
    ghost use Rattle.tl_topology.specs.declared.LinkDecl.{LinkDecl as AnyLink};
    ghost use Rattle.tl_tables.specs.declared.Chan.{Chan as AnyChan};
    ghost use Rattle.tl_beats.specs.declared.Placed.{Placed};
    ghost use Rattle.tl_definitions.specs.Heads.{before_on};
    ghost use Rattle.tl_link_rules.specs.Bursts.{place_of, place_in, slots_after, slots_with, slot_at, StandsFor, StandsWith, IsRun};

    /// The state of a link without beats.
    pub fn new() -> BurstState
        ensures { (link : AnyLink) (number : ℕ) → StandsFor result link number [] }
    {
        BurstState { slots: [None; 5] }
    }

    /// The head of the burst that the next beat of a channel belongs to; None where that beat is a head itself.
    #[inline(always)]
    pub fn head(&self, chan: Chan) -> Option<&Beat>
        ensures { option_map (λ head. head.now) result ≡ option_map (λ burst. burst.head) (slot_at self.now chan) }
    {
        match &self.slots[chan_index(chan)] {
            Some(burst) => Some(&burst.head),
            None => None,
        }
    }

    /// The state with the next beat of the link, whatever that is.
    #[tactic(auto, using(crate::proofs::BurstLaws::slot_set))]
    pub fn pass(&mut self, link: &LinkDecl, beat: &Beat)
        requires link { IsSound link.now }
        requires beat { IsWellFormed beat.now }
        ensures { (chan : AnyChan) → slot_at self.new chan ≡ slots_after link.now beat.now (slot_at self.old) chan }
    {
        let slot = &mut self.slots[chan_index(beat.chan)];
        match slot {
            Some(burst) if burst.missing > 1 => burst.missing -= 1,
            Some(_) => *slot = None,
            None => {
                let count = beat_count(link, beat);
                if count > 1 {
                    *slot = Some(Unfinished {
                        head: *beat,
                        missing: count - 1,
                    });
                }
            }
        }
    }

    /// The state with a head of this message.
    #[tactic(auto, using(crate::proofs::BurstLaws::slot_set))]
    #[inline(always)]
    pub fn begin(&mut self, link: &LinkDecl, op: Op, head: &Beat)
        requires link { IsSound link.now }
        requires beat { IsWellFormed head.now }
        requires head { slot_at self.old head.now.chan ≡ None }
        requires message { message_of link.now head.now ≡ Some op }
        ensures { (chan : AnyChan) → slot_at self.new chan ≡ slots_after link.now head.now (slot_at self.old) chan }
    {
        let count = message_count(link, op, head);
        if count > 1 {
            self.slots[chan_index(head.chan)] = Some(Unfinished {
                head: *head,
                missing: count - 1,
            });
        }
    }

    /// The state with the beats at the front of these that go on with the burst which is unfinished on a channel, and are seen to break
    /// no rule; answers how many they are. Where no burst is unfinished there, they are none.
    #[inline(always)]
    pub fn run(&mut self, chan: Chan, beats: &[Beat]) -> usize
        ensures within { result ≤ length beats.now }
        ensures quiet { IsRun chan (slot_at self.old chan) (take result beats.now) }
        ensures next { (other : AnyChan) → slot_at self.new other ≡ slots_with chan result (slot_at self.old) other }
    {
        let slot = &mut self.slots[chan_index(chan)];
        let Some(burst) = slot else {
            return 0;
        };
        let count = quiet_count(chan, &burst.head, usize::from(burst.missing), beats);
        if count == 0 {
            return 0;
        }
        if count == usize::from(burst.missing) {
            *slot = None;
        } else {
            burst.missing -= count as u16;
        }
        count
    }

    /// What the next beat of the link is, a head or a later beat of its head, and the state with it. [TileLink 1.8:
    /// serialization]
    #[tactic(auto, using(crate::proofs::BurstLaws::stands_law, crate::proofs::BurstLaws::place_stands))]
    pub fn step(&mut self, link: &LinkDecl, beat: &Beat) -> Place
        requires link { IsSound link.now }
        requires beat { IsWellFormed beat.now }
        // On what the state shows.
        ensures judged { result ≡ place_in (slot_at self.old beat.now.chan) }
        ensures next { (chan : AnyChan) → slot_at self.new chan ≡ slots_after link.now beat.now (slot_at self.old) chan }
        // Where the state stands for beats, the answer is the definition's, and the state then stands for them and this one.
        ensures place { (number : ℕ) (before : List Placed) → StandsFor self.old link.now number before
            → result ≡ place_of link.now (before_on number beat.now.chan before) }
        ensures stands { StandsWith self.old self.new link.now beat.now }
    {
        let place = self.place(beat.chan);
        self.pass(link, beat);
        place
    }

    /// What the next beat of a channel is.
    fn place(&self, chan: Chan) -> Place
        ensures { result ≡ place_in (slot_at self.now chan) }
    {
        match self.head(chan) {
            Some(head) => Place::Later(*head),
            None => Place::Head,
        }
    }
}

impl Same for BurstState {
    ghost same = { SameBursts };

    fn is_same(&self, other: &Self) -> bool {
        self == other
    }
}
