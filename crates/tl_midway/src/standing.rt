//! What a beat is by the readings of its channel: the first of a message for certain, one that may be, or a later one.

ghost use Rattle.std.specs.Prelude.{◌≡◌, true, false};
ghost use Rattle.tl_topology.specs.Topology.{IsSound};
ghost use Rattle.tl_topology.specs.declared.LinkDecl.{LinkDecl as AnyLink};
ghost use Rattle.tl_beats.specs.Beats.{IsWellFormed};
ghost use Rattle.tl_definitions.specs.Readings.{in_lead_in};
ghost use Rattle.tl_midway.specs.LeadIns.{with_beat};
ghost use Rattle.tl_midway.specs.Standing.{IsKnown, Takes};
ghost use Rattle.tl_midway.specs.declared.standing.Standing.TheVariants as standing;

use crate::readings::Readings;
use std::alloc::Global;
use tl_beats::Beat;
use tl_link_rules::{RuleList, keeps_burst};
use tl_topology::LinkDecl;

/// What a beat is by its readings.
#[derive(Drop)]
pub enum Standing {
    /// It begins a message for certain.
    Head,
    /// It may begin one, and may be a later beat: by each reading it breaks these rules of later beats and no other.
    Either(RuleList),
    /// It is a later beat of a message, and breaks these rules by each reading.
    Later(RuleList),
    /// It is a later beat of a message, and breaks no rule.
    GoesOn,
}

impl Readings {
    ghost use Rattle.tl_midway.specs.Reading.{AreFormed};
    ghost use Rattle.tl_midway.specs.Readings.{shown_readings, IsSole};
    ghost use Rattle.tl_midway.specs.Standing.{IsStanding};

    /// What the beat is by these readings.
    fn standing(&self, alloc: Global, link: &LinkDecl, beat: &Beat) -> Standing
        requires link { IsSound link.now }
        requires beat { IsWellFormed beat.now }
        requires formed { AreFormed (shown_readings self.now) }
        ensures { IsStanding link.now beat.now (shown_readings self.now) result }
    {
        if self.must_begin() {
            return Standing::Head;
        }
        let later = self.later_rules(alloc, link, beat);
        if self.may_begin() {
            Standing::Either(later)
        } else {
            Standing::Later(later)
        }
    }

    /// Whether the beat is seen to go on with a message of the capture and to break no rule, as most later beats do; false says nothing.
    fn goes_on(&self, beat: &Beat) -> bool
        ensures stands { result ≡ true → (link : AnyLink) → IsStanding link beat.now (shown_readings self.now) standing.GoesOn }
        ensures sole { result ≡ true → IsSole (shown_readings self.now) }
    {
        match self.sole_head() {
            Some(head) => keeps_burst(head, beat),
            None => false,
        }
    }

    /// What the channel's next beat is, which is this one; then makes these readings those of the beat after it. Where bursts are
    /// told by their fields, those of a beat of the lead-in drop the readings that they speak against. Adds the beat to those of lead-ins
    /// if it is one; 2^64 - 1 stays.
    #[inline(always)]
    pub fn take(
        &mut self,
        alloc: Global,
        by_fields: bool,
        link: &LinkDecl,
        beat: &Beat,
        lead_ins: &mut u64,
    ) -> Standing
        requires link { IsSound link.now }
        requires beat { IsWellFormed beat.now }
        requires known { IsKnown self.old }
        ensures takes { Takes link.now by_fields beat.now self.old result self.new }
        ensures lead_ins { lead_ins.new ≡ with_beat (in_lead_in (shown_readings self.old)) lead_ins.old }
    {
        if self.goes_on(beat) {
            self.pass_later(beat);
            return Standing::GoesOn;
        }
        self.take_any(alloc, by_fields, link, beat, lead_ins)
    }

    /// The same of any beat.
    #[inline(never)]
    fn take_any(
        &mut self,
        alloc: Global,
        by_fields: bool,
        link: &LinkDecl,
        beat: &Beat,
        lead_ins: &mut u64,
    ) -> Standing
        requires link { IsSound link.now }
        requires beat { IsWellFormed beat.now }
        requires known { IsKnown self.old }
        ensures takes { Takes link.now by_fields beat.now self.old result self.new }
        ensures lead_ins { lead_ins.new ≡ with_beat (in_lead_in (shown_readings self.old)) lead_ins.old }
    {
        if self.in_lead_in() {
            *lead_ins = lead_ins.saturating_add(1);
        }
        self.meet(by_fields, link, beat);
        let standing = self.standing(alloc, link, beat);
        self.pass(link, beat);
        standing
    }
}
