//! The readings of each channel of a link.

ghost use Rattle.std.specs.Prelude.{◌≡◌, IfOk};
ghost use Rattle.tl_topology.specs.Topology.{IsSound};
ghost use Rattle.tl_beats.specs.Beats.{IsWellFormed};
ghost use Rattle.tl_definitions.specs.Readings.{in_lead_in};
ghost use Rattle.tl_midway.specs.LeadIns.{with_beat};
ghost use Rattle.tl_midway.specs.LinkReadings.{IsFirst, IsKnown, Takes, channel_of};
ghost use Rattle.tl_midway.specs.Readings.{shown_readings};

use crate::midway::Midway;
use crate::readings::Readings;
use crate::standing::Standing;
use std::alloc::{AllocError, Global};
use tl_beats::Beat;
use tl_tables::Chan;
use tl_topology::LinkDecl;

/// What the next beat of each channel of a link may be.
#[derive(Drop)]
pub struct LinkReadings {
    /// The number of the link.
    pub number: u16,
    a: Readings,
    b: Readings,
    c: Readings,
    d: Readings,
    e: Readings,
}

impl LinkReadings {
    /// The readings of a link's first beats, where its capture begins so. AllocError where memory is refused.
    pub fn new(
        alloc: Global,
        law: Midway,
        number: u16,
        link: &LinkDecl,
    ) -> Result<LinkReadings, AllocError>
        requires { IsSound link.now }
        ensures first { IfOk result (λ state. IsFirst law link.now state) }
        ensures number { IfOk result (λ state. state.number ≡ number) }
    {
        Ok(LinkReadings {
            number,
            a: Readings::new(alloc, law.most(link, Chan::A))?,
            b: Readings::new(alloc, law.most(link, Chan::B))?,
            c: Readings::new(alloc, law.most(link, Chan::C))?,
            d: Readings::new(alloc, law.most(link, Chan::D))?,
            e: Readings::new(alloc, law.most(link, Chan::E))?,
        })
    }

    /// The readings of a channel.
    pub fn channel(&self, chan: Chan) -> &Readings
        ensures { result.now ≡ channel_of self.now chan }
    {
        match chan {
            Chan::A => &self.a,
            Chan::B => &self.b,
            Chan::C => &self.c,
            Chan::D => &self.d,
            Chan::E => &self.e,
        }
    }

    /// Whether the heads of a channel aren't known yet: by two readings another number of beats is missing.
    pub fn in_lead_in(&self, chan: Chan) -> bool
        ensures { result ≡ in_lead_in (shown_readings (channel_of self.now chan)) }
    {
        match chan {
            Chan::A => self.a.in_lead_in(),
            Chan::B => self.b.in_lead_in(),
            Chan::C => self.c.in_lead_in(),
            Chan::D => self.d.in_lead_in(),
            Chan::E => self.e.in_lead_in(),
        }
    }

    /// What the link's next beat is, which is this one; then makes the readings of its channel those of the beat after it.
    /// Adds the beat to those of lead-ins if it is one; 2^64 - 1 stays.
    pub fn take(
        &mut self,
        alloc: Global,
        by_fields: bool,
        link: &LinkDecl,
        beat: &Beat,
        lead_ins: &mut u64,
    ) -> Standing
        requires link { IsSound link.now }
        requires beat { IsWellFormed beat.now }
        requires known { IsKnown self.old }
        ensures takes { Takes link.now by_fields beat.now self.old result self.new }
        ensures lead_ins { lead_ins.new ≡ with_beat (in_lead_in (shown_readings (channel_of self.old beat.now.chan))) lead_ins.old }
    {
        match beat.chan {
            Chan::A => self.a.take(alloc, by_fields, link, beat, lead_ins),
            Chan::B => self.b.take(alloc, by_fields, link, beat, lead_ins),
            Chan::C => self.c.take(alloc, by_fields, link, beat, lead_ins),
            Chan::D => self.d.take(alloc, by_fields, link, beat, lead_ins),
            Chan::E => self.e.take(alloc, by_fields, link, beat, lead_ins),
        }
    }
}
