//! One reading of the next beat of a channel.

ghost use Rattle.std.specs.Prelude.{◌≡◌, ◌≤◌, ◌^◌, false, nat_le};
ghost use Rattle.std.specs.Option.{option_map_or};
ghost use Rattle.tl_topology.specs.Topology.{IsSound};
ghost use Rattle.tl_topology.specs.declared.LinkDecl.{LinkDecl as AnyLink};
ghost use Rattle.tl_beats.specs.Beats.{IsWellFormed};
ghost use Rattle.tl_beats.specs.declared.Beat.{Beat as AnyBeat};
ghost use Rattle.tl_definitions.specs.Heads.{message_of};
ghost use Rattle.tl_definitions.specs.Breaks.{breaks_later};
ghost use Rattle.tl_definitions.specs.Readings.{is_due, missing_of, reading_after};
ghost use Rattle.tl_definitions.specs.Printed.{breaks_past};
ghost use Rattle.tl_midway.specs.Reading.{shown_reading, refuted_by, breaks_as, may_as, IsFormed};
ghost use Rattle.tl_midway.specs.Unjudged.{may_break_past};

use tl_beats::Beat;
use tl_link_rules::{beat_count, breaks_later, is_alike};
use tl_tables::{Chan, Rule, op_of};
use tl_topology::LinkDecl;

/// What the next beat of a channel may be.
#[derive(Clone, Copy, Debug)]
pub enum Reading {
    /// It begins a message.
    Due,
    /// It is one of the beats that a message still lacks.
    Rest {
        /// How many, 1 to 32,767.
        missing: u16,
        /// The first beat of the message; None where that came before the capture.
        head: Option<Beat>,
    },
}

impl Reading {
    /// Whether the beat begins a message.
    pub fn is_due(&self) -> bool
        ensures { result ≡ is_due (shown_reading self.now) }
    {
        matches!(self, Reading::Due)
    }

    /// How many beats come before the next head, 0 to 32,767.
    pub fn missing(&self) -> u16
        ensures { result ≡ missing_of (shown_reading self.now) }
    {
        match self {
            Reading::Due => 0,
            Reading::Rest { missing, .. } => *missing,
        }
    }

    /// Makes it the reading of the channel's next beat after this one.
    pub fn pass(&mut self, link: &LinkDecl, beat: &Beat)
        requires link { IsSound link.now }
        requires beat { IsWellFormed beat.now }
        ensures { shown_reading self.new ≡ reading_after link.now beat.now (shown_reading self.old) }
    {
        match self {
            Reading::Due => {
                let missing = beat_count(link, beat) - 1;
                if missing > 0 {
                    *self = Reading::Rest {
                        missing,
                        head: Some(*beat),
                    };
                }
            }
            Reading::Rest { .. } => self.pass_later(),
        }
    }

    /// The same after a beat that is no head: one beat fewer is missing.
    pub fn pass_later(&mut self)
        requires { is_due (shown_reading self.old) ≡ false }
        ensures { (link : AnyLink) (beat : AnyBeat) → shown_reading self.new ≡ reading_after link beat (shown_reading self.old) }
    {
        match self {
            Reading::Rest { missing, .. } if *missing > 1 => *missing -= 1,
            Reading::Due | Reading::Rest { .. } => *self = Reading::Due,
        }
    }

    /// Whether the fields of the beat speak against the reading, by which it isn't like its head. Of a message of the past fewer
    /// than `room` beats can be missing.
    pub fn is_refuted(&self, beat: &Beat, room: u16) -> bool
        ensures { result ≡ refuted_by beat.now room (shown_reading self.now) }
    {
        match self {
            Reading::Due => false,
            Reading::Rest {
                missing,
                head: None,
            } => room <= *missing,
            Reading::Rest {
                head: Some(head),
                ..
            } => !is_alike(head, beat),
        }
    }

    /// Whether the beat breaks a rule of later beats by the reading: F5, F7 or U1, and no other. A head is judged as a later beat
    /// of itself. [TileLink 1.8: serialization, byte lanes, denied and corrupt]
    pub fn breaks(&self, link: &LinkDecl, beat: &Beat, rule: Rule) -> bool
        requires link { IsSound link.now }
        requires beat { IsWellFormed beat.now }
        requires head { IsFormed (shown_reading self.now) }
        ensures { result ≡ breaks_as link.now beat.now rule (shown_reading self.now) }
    {
        match self {
            Reading::Due => breaks_after(link, beat, beat, rule),
            Reading::Rest { head: None, .. } => breaks_past(link, beat, rule),
            Reading::Rest {
                head: Some(head),
                ..
            } => breaks_after(link, head, beat, rule),
        }
    }

    /// Whether the beat may break a rule of later beats by the reading: of a message of the past nobody knows the head.
    pub fn may_break(&self, link: &LinkDecl, beat: &Beat, rule: Rule) -> bool
        requires link { IsSound link.now }
        requires beat { IsWellFormed beat.now }
        requires head { IsFormed (shown_reading self.now) }
        ensures { result ≡ may_as link.now beat.now rule (shown_reading self.now) }
    {
        match self {
            Reading::Rest { head: None, .. } => may_break_past(beat, rule),
            Reading::Due | Reading::Rest { head: Some(_), .. } => self.breaks(link, beat, rule),
        }
    }
}

/// Whether a later beat of this head breaks the rule. A head without a message has no later beats.
fn breaks_after(link: &LinkDecl, head: &Beat, beat: &Beat, rule: Rule) -> bool
    requires link { IsSound link.now }
    requires head { IsWellFormed head.now }
    ensures { result ≡ option_map_or (λ o. breaks_later link.now o head.now beat.now rule) (message_of link.now head.now) false }
{
    match op_of(link.level, head.chan, head.opcode) {
        Some(op) => breaks_later(link, op, head, beat, rule),
        None => false,
    }
}

/// Whether a later beat of a message of the past breaks the rule, whatever its head was: it has data and fills all lanes.
fn breaks_past(link: &LinkDecl, beat: &Beat, rule: Rule) -> bool
    requires link { IsSound link.now }
    ensures { result ≡ breaks_past link.now beat.now rule }
{
    match rule {
        Rule::F5 => matches!(beat.chan, Chan::A | Chan::B)
            && has_lane_beyond(link.width, beat.mask),
        Rule::F7 => beat.chan == Chan::D && beat.denied && !beat.corrupt,
        _ => false,
    }
}

/// Whether a later beat of a message of the past may break the rule, whatever its head was.
fn may_break_past(beat: &Beat, rule: Rule) -> bool
    ensures { result ≡ may_break_past beat.now rule }
{
    match rule {
        Rule::F5 => matches!(beat.chan, Chan::A | Chan::B),
        Rule::F7 => beat.chan == Chan::D && beat.denied && !beat.corrupt,
        Rule::U1 => true,
        _ => false,
    }
}

/// Whether a mask has a lane that a link of this width lacks.
fn has_lane_beyond(width: u8, mask: u64) -> bool
    requires lanes { width ≤ 64 }
    ensures { result ≡ nat_le (2 ^ width) mask }
{
    if width == 64 {
        false
    } else {
        let beyond: u64 = 1 << width;
        beyond <= mask
    }
}
