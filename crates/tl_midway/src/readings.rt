//! The readings of the next beat of one channel, where the capture begins in the middle of a run.

ghost use Rattle.std.specs.Prelude.{◌≡◌, ◌==◌, ℕ, not, true, Some, List, [], ◌∷◌, map, filter, option_map, IfOk};
ghost use Rattle.std.specs.List.{All, find, list_any, list_all};
ghost use Rattle.std.specs.Option.{option_copied};
ghost use Rattle.tl_topology.specs.Topology.{IsSound};
ghost use Rattle.tl_topology.specs.declared.LinkDecl.{LinkDecl as AnyLink};
ghost use Rattle.tl_beats.specs.Beats.{IsWellFormed};
ghost use Rattle.tl_beats.specs.declared.Beat.{Beat as AnyBeat};
ghost use Rattle.tl_definitions.specs.Breaks.{later_order};
ghost use Rattle.tl_definitions.specs.Readings.{due, rest, is_due, missing_of, reading_after, first_readings, may_begin, must_begin, in_lead_in, told};
ghost use Rattle.tl_midway.specs.Members.{SameMembers};
ghost use Rattle.tl_midway.specs.Reading.{shown_reading, is_kept, kept_of, breaks_as, may_as, IsFormed, AreFormed};
ghost use Rattle.tl_midway.specs.Standing.{later_open};
ghost use Rattle.tl_midway.specs.Seen.{Tells};
ghost use Rattle.tl_midway.specs.Readings.{shown_readings, IsSole};

use crate::reading::Reading;
use crate::seen::Seen;
use std::alloc::{AllocError, Global};
use tl_beats::Beat;
use tl_link_rules::{RuleList, check_later};
use tl_tables::Rule;
use tl_topology::LinkDecl;

/// What the next beat of one channel of a link may be. There is one reading for good once the channel's heads are known.
#[derive(Drop)]
pub struct Readings {
    /// One of the readings.
    one: Reading,
    /// The others.
    others: Vec<Reading>,
    seen: Seen,
}

/// The readings by which the past left a message without its last beats, `most` of them or fewer.
fn past_readings(alloc: Global, most: u16) -> Result<Vec<Reading>, AllocError>
    ensures { IfOk result (λ readings. SameMembers (due ∷ map shown_reading readings.items) (first_readings most)) }
{
    let mut readings = Vec::new(alloc);
    readings.reserve_exact(usize::from(most))?;
    for fewer in 0..most {
        readings.push(Reading::Rest {
            missing: fewer + 1,
            head: None,
        })?;
    }
    Ok(readings)
}

/// Whether one of them begins a message.
fn any_due(readings: &[Reading]) -> bool
    ensures { result ≡ list_any (λ reading. is_due (shown_reading reading)) readings.now }
{
    readings.iter().any(|reading| reading.is_due())
}

/// Whether each of them begins a message.
fn all_due(readings: &[Reading]) -> bool
    ensures { result ≡ list_all (λ reading. is_due (shown_reading reading)) readings.now }
{
    readings.iter().all(|reading| reading.is_due())
}

/// Whether one of them lacks another number of beats.
fn any_differs(readings: &[Reading], missing: u16) -> bool
    ensures { result ≡ list_any (λ reading. not (missing_of (shown_reading reading) == missing)) readings.now }
{
    readings.iter().any(|reading| reading.missing() != missing)
}

/// The first of them that the fields of the beat don't speak against.
fn first_kept(readings: &[Reading], beat: &Beat, room: u16) -> Option<Reading>
    ensures { result ≡ find (λ reading. is_kept beat.now room (shown_reading reading)) readings.now }
{
    readings
        .iter()
        .copied()
        .find(|reading| !reading.is_refuted(beat, room))
}

/// Drops those that the fields of the beat speak against.
fn drop_refuted(readings: &mut Vec<Reading>, beat: &Beat, room: u16)
    ensures { readings.new.items ≡ filter (λ reading. is_kept beat.now room (shown_reading reading)) readings.old.items }
{
    readings.retain(|reading| !reading.is_refuted(beat, room));
}

/// Drops those that begin a message.
fn drop_due(readings: &mut Vec<Reading>)
    ensures { readings.new.items ≡ filter (λ reading. not (is_due (shown_reading reading))) readings.old.items }
{
    readings.retain(|reading| !reading.is_due());
}

/// Makes each the reading of the channel's next beat.
fn pass_all(readings: &mut Vec<Reading>, link: &LinkDecl, beat: &Beat)
    requires link { IsSound link.now }
    requires beat { IsWellFormed beat.now }
    ensures { map shown_reading readings.new.items ≡ map (reading_after link.now beat.now) (map shown_reading readings.old.items) }
{
    for place in 0..readings.len() {
        readings[place].pass(link, beat);
    }
}

/// Whether the beat breaks a rule of later beats by each of them.
fn all_break(readings: &[Reading], link: &LinkDecl, beat: &Beat, rule: Rule) -> bool
    requires link { IsSound link.now }
    requires beat { IsWellFormed beat.now }
    requires formed { All (λ reading. IsFormed (shown_reading reading)) readings.now }
    ensures { result ≡ list_all (λ reading. breaks_as link.now beat.now rule (shown_reading reading)) readings.now }
{
    for reading in readings {
        if !reading.breaks(link, beat, rule) {
            return false;
        }
    }
    true
}

/// Whether the beat may break a rule of later beats by one of them.
fn any_may_break(readings: &[Reading], link: &LinkDecl, beat: &Beat, rule: Rule) -> bool
    requires link { IsSound link.now }
    requires beat { IsWellFormed beat.now }
    requires formed { All (λ reading. IsFormed (shown_reading reading)) readings.now }
    ensures { result ≡ list_any (λ reading. may_as link.now beat.now rule (shown_reading reading)) readings.now }
{
    for reading in readings {
        if reading.may_break(link, beat, rule) {
            return true;
        }
    }
    false
}

impl Readings {
    /// The readings of a channel's first beat, where the past left at most so many beats of a message missing. AllocError where
    /// memory is refused.
    pub fn new(alloc: Global, most: u16) -> Result<Readings, AllocError>
        ensures members { IfOk result (λ readings. SameMembers (shown_readings readings) (first_readings most)) }
        ensures seen { IfOk result (λ readings. Tells readings.seen []) }
    {
        Ok(Readings {
            one: Reading::Due,
            others: past_readings(alloc, most)?,
            seen: Seen::new(),
        })
    }

    /// Whether the beat may begin a message.
    #[tactic(auto, using(crate::proofs::MemberLaws::any_mapped))]
    pub fn may_begin(&self) -> bool
        ensures { result ≡ may_begin (shown_readings self.now) }
    {
        self.one.is_due() || any_due(&self.others)
    }

    /// Whether it surely begins one.
    #[tactic(auto, using(crate::proofs::MemberLaws::all_mapped))]
    pub fn must_begin(&self) -> bool
        ensures { result ≡ must_begin (shown_readings self.now) }
    {
        self.one.is_due() && all_due(&self.others)
    }

    /// Whether the channel's heads aren't known yet: by two readings another number of beats is missing.
    pub fn in_lead_in(&self) -> bool
        ensures { result ≡ in_lead_in (shown_readings self.now) }
    {
        any_differs(&self.others, self.one.missing())
    }

    /// The first reading that the fields of the beat don't speak against.
    fn kept_one(&self, beat: &Beat, room: u16) -> Option<Reading>
        ensures { option_map shown_reading result ≡ find (is_kept beat.now room) (shown_readings self.now) }
    {
        if self.one.is_refuted(beat, room) {
            first_kept(&self.others, beat, room)
        } else {
            Some(self.one)
        }
    }

    /// Drops the readings that the fields of the beat speak against; where they speak against all, none.
    fn keep(&mut self, beat: &Beat, room: u16)
        ensures members { SameMembers (shown_readings self.new) (kept_of beat.now room (shown_readings self.old)) }
        ensures seen { self.new.seen ≡ self.old.seen }
    {
        match self.kept_one(beat, room) {
            Some(kept) => {
                self.one = kept;
                drop_refuted(&mut self.others, beat, room);
            }
            None => {}
        }
    }

    /// Makes these readings those of the channel's next beat, which is this one: where bursts are told by their fields, those of a
    /// beat of the lead-in drop the readings that they speak against.
    pub fn meet(&mut self, by_fields: bool, link: &LinkDecl, beat: &Beat)
        requires link { IsSound link.now }
        requires beat { IsWellFormed beat.now }
        ensures members { (before : List AnyBeat) → Tells self.old.seen before
            → SameMembers (shown_readings self.new) (told by_fields link.now beat.now before (shown_readings self.old)) }
        ensures seen { self.new.seen ≡ self.old.seen }
    {
        if by_fields && self.in_lead_in() {
            let room = self.seen.room(link, beat);
            self.keep(beat, room);
        }
    }

    /// The head of the message that the beat surely belongs to, where that is known.
    pub(crate) fn sole_head(&self) -> Option<&Beat>
        ensures { (head : AnyBeat) → option_copied result ≡ Some head → (missing : ℕ) × (shown_readings self.now ≡ rest missing (Some head) ∷ []) }
    {
        match &self.one {
            Reading::Rest {
                head: Some(head),
                ..
            } if self.others.is_empty() => Some(head),
            _ => None,
        }
    }

    /// Whether the beat surely belongs to a message of the capture, and is no head.
    pub fn is_settled(&self) -> bool
        ensures { result ≡ true → IsSole (shown_readings self.now) }
    {
        match self.sole_head() {
            Some(_) => true,
            None => false,
        }
    }

    /// Whether the beat breaks a rule of later beats by each reading.
    #[tactic(auto, using(crate::proofs::MemberLaws::all_mapped))]
    fn breaks(&self, link: &LinkDecl, beat: &Beat, rule: Rule) -> bool
        requires link { IsSound link.now }
        requires beat { IsWellFormed beat.now }
        requires formed { AreFormed (shown_readings self.now) }
        ensures { result ≡ list_all (breaks_as link.now beat.now rule) (shown_readings self.now) }
    {
        self.one.breaks(link, beat, rule) && all_break(&self.others, link, beat, rule)
    }

    /// Whether the beat may break a rule of later beats by some reading.
    #[tactic(auto, using(crate::proofs::MemberLaws::any_mapped))]
    fn may_break(&self, link: &LinkDecl, beat: &Beat, rule: Rule) -> bool
        requires link { IsSound link.now }
        requires beat { IsWellFormed beat.now }
        requires formed { AreFormed (shown_readings self.now) }
        ensures { result ≡ list_any (may_as link.now beat.now rule) (shown_readings self.now) }
    {
        self.one.may_break(link, beat, rule) || any_may_break(&self.others, link, beat, rule)
    }

    /// Whether the beat may break a rule of later beats, and not by each reading does.
    pub fn leaves_open(&self, link: &LinkDecl, beat: &Beat, rule: Rule) -> bool
        requires link { IsSound link.now }
        requires beat { IsWellFormed beat.now }
        requires formed { AreFormed (shown_readings self.now) }
        ensures { result ≡ later_open link.now beat.now rule (shown_readings self.now) }
    {
        self.may_break(link, beat, rule) && !self.breaks(link, beat, rule)
    }

    /// The rules of later beats that the beat breaks by each reading, in the order of reports, each once: F5, F7 and U1. Where it
    /// may be a head, it is judged as a later beat of itself too. [TileLink 1.8: serialization, byte lanes, denied and corrupt]
    pub fn later_rules(&self, alloc: Global, link: &LinkDecl, beat: &Beat) -> RuleList
        requires link { IsSound link.now }
        requires beat { IsWellFormed beat.now }
        requires formed { AreFormed (shown_readings self.now) }
        ensures { result ≡ filter (λ r. list_all (breaks_as link.now beat.now r) (shown_readings self.now)) later_order }
    {
        // After the lead-in each later beat ends here.
        if let Some(head) = self.sole_head() {
            return check_later(alloc, link, head, beat);
        }
        let mut rules = RuleList::new(alloc);
        rules.push_if(self.breaks(link, beat, Rule::F5), Rule::F5);
        rules.push_if(self.breaks(link, beat, Rule::F7), Rule::F7);
        rules.push_if(self.breaks(link, beat, Rule::U1), Rule::U1);
        rules
    }

    /// Makes the only reading, by which this beat is no head, that of the channel's next beat after it.
    pub(crate) fn pass_later(&mut self, beat: &Beat)
        requires { IsSole (shown_readings self.old) }
        ensures members { (link : AnyLink) → SameMembers (shown_readings self.new) (map (reading_after link beat.now) (shown_readings self.old)) }
        ensures seen { (before : List AnyBeat) → Tells self.old.seen before → Tells self.new.seen (beat.now ∷ before) }
    {
        self.seen.add(beat);
        self.one.pass_later();
    }

    /// Makes these readings those of the channel's next beat after this one.
    pub fn pass(&mut self, link: &LinkDecl, beat: &Beat)
        requires link { IsSound link.now }
        requires beat { IsWellFormed beat.now }
        ensures members { SameMembers (shown_readings self.new) (map (reading_after link.now beat.now) (shown_readings self.old)) }
        ensures seen { (before : List AnyBeat) → Tells self.old.seen before → Tells self.new.seen (beat.now ∷ before) }
    {
        self.seen.add(beat);
        self.one.pass(link, beat);
        // Once the channel's heads are known, there are no others.
        if self.others.is_empty() {
            return;
        }
        pass_all(&mut self.others, link, beat);
        // Two readings that both begin a message are one from then on.
        if self.one.is_due() {
            drop_due(&mut self.others);
        }
    }
}
