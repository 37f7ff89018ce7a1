//! One link, between two of its beats.

ghost use Rattle.std.specs.Prelude.{◌≡◌, ℕ, [], ◌∷◌, OnOk};
ghost use Rattle.tl_topology.specs.Topology.{IsSound};
ghost use Rattle.tl_beats.specs.Beats.{IsWellFormed};
ghost use Rattle.tl_definitions.specs.Heads.{before_on, is_head};
ghost use Rattle.tl_definitions.specs.Messages.{Links};
ghost use Rattle.tl_rows.specs.Counts.{is_unfinished, unfinished_count, IsOpenOn};
ghost use Rattle.tl_rows.specs.Links.{IsAt, OnLink, head_at};

use crate::counts::{Opened, one_if};
use crate::openers::Openers;
use std::alloc::{AllocError, Global};
use tl_beats::{Beat, Placed};
use tl_link_rules::{BurstState, Place};
use tl_tables::{Chan, chan_index, op_of};
use tl_topology::LinkDecl;

/// What the beats of one link leave that a reason can name.
#[derive(Drop)]
pub(crate) struct LinkOrigins {
    bursts: BurstState,
    /// The newest head of each channel.
    heads: [Option<Placed>; 5],
    pub(crate) openers: Openers,
}

impl LinkOrigins {
    /// That of a link without beats.
    pub(crate) fn new(alloc: Global) -> LinkOrigins
        ensures { (exponent : ℕ) (links : Links) (link : ℕ) → IsAt exponent links link result [] }
    {
        LinkOrigins {
            bursts: BurstState::new(),
            heads: [None; 5],
            openers: Openers::new(alloc),
        }
    }

    /// Whether the next beat of the link is a head.
    pub(crate) fn is_head(&self, decl: &LinkDecl, place: &Placed) -> bool
        requires decl { IsSound decl.now }
        requires beat { IsWellFormed place.now.beat }
        ensures { (exponent : ℕ) → OnLink exponent self.now decl.now place.now.link
            (λ links before. result ≡ is_head decl.now (before_on place.now.link place.now.beat.chan before)) }
    {
        let mut bursts = self.bursts;
        match bursts.step(decl, &place.beat) {
            Place::Head => true,
            Place::Later(_) => false,
        }
    }

    /// The newest head of a channel.
    pub(crate) fn head(&self, chan: Chan) -> Option<Placed>
        ensures { result ≡ head_at self.now chan }
    {
        self.heads[chan_index(chan)]
    }

    /// Whether a channel has a burst that misses beats: its next beat would be a later beat.
    fn is_unfinished(&self, decl: &LinkDecl, link: u16, chan: Chan) -> bool
        requires decl { IsSound decl.now }
        ensures { (exponent : ℕ) → OnLink exponent self.now decl.now link (λ links before. result ≡ is_unfinished links link before chan) }
    {
        let beat = Beat {
            cycle: 0,
            chan,
            opcode: 0,
            param: 0,
            size: 0,
            source: 0,
            sink: 0,
            address: 0,
            mask: 0,
            denied: false,
            corrupt: false,
        };
        !self.is_head(
            decl,
            &Placed {
                link,
                fragment: 0,
                line: 0,
                beat,
            },
        )
    }

    /// How many channels have such a burst.
    fn unfinished_count(&self, decl: &LinkDecl, link: u16) -> usize
        requires decl { IsSound decl.now }
        ensures { (exponent : ℕ) → OnLink exponent self.now decl.now link (λ links before. result ≡ unfinished_count links link before) }
    {
        let requests = self.is_unfinished(decl, link, Chan::A);
        let probes = self.is_unfinished(decl, link, Chan::B);
        let releases = self.is_unfinished(decl, link, Chan::C);
        let replies = self.is_unfinished(decl, link, Chan::D);
        let acks = self.is_unfinished(decl, link, Chan::E);
        one_if(requests) + one_if(probes) + one_if(releases) + one_if(replies) + one_if(acks)
    }

    /// How many are open on the link.
    pub(crate) fn open_count(&self, decl: &LinkDecl, link: u16, opened: Opened) -> usize
        requires decl { IsSound decl.now }
        ensures { (exponent : ℕ) → OnLink exponent self.now decl.now link (λ links before. IsOpenOn links exponent before opened link result) }
    {
        match opened {
            Opened::Request => self.openers.request_count(),
            Opened::Release => self.openers.release_count(),
            Opened::Probe => self.openers.probe_count(),
            Opened::Grant => self.openers.grant_count(),
            Opened::Burst => self.unfinished_count(decl, link),
        }
    }

    /// What the next beat of the link leaves. AllocError where memory is refused: then it may have part of the beat.
    pub(crate) fn step(
        &mut self,
        exponent: u8,
        decl: &LinkDecl,
        place: &Placed,
    ) -> Result<(), AllocError>
        requires decl { IsSound decl.now }
        requires beat { IsWellFormed place.now.beat }
        ensures { OnLink exponent self.old decl.now place.now.link
            (λ links before. OnOk result (IsAt exponent links place.now.link self.new (place.now ∷ before))) }
    {
        match self.bursts.step(decl, &place.beat) {
            Place::Later(_) => Ok(()),
            Place::Head => {
                self.heads[chan_index(place.beat.chan)] = Some(*place);
                match op_of(decl.level, place.beat.chan, place.beat.opcode) {
                    Some(op) => self.openers.take(exponent, op, place),
                    None => Ok(()),
                }
            }
        }
    }
}
