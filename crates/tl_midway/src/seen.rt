//! What is told of the beats of a channel so far, where bursts are told by their fields.

ghost use Rattle.std.specs.Prelude.{◌≡◌, ℕ, List, [], ◌∷◌, None, nat_le};
ghost use Rattle.tl_topology.specs.Topology.{IsSound};
ghost use Rattle.tl_beats.specs.Beats.{IsWellFormed};
ghost use Rattle.tl_beats.specs.declared.Beat.{Beat as AnyBeat};
ghost use Rattle.tl_definitions.specs.Readings.{rest, has_data, is_refuted};
ghost use Rattle.tl_midway.specs.Seen.{Tells};

use tl_beats::Beat;
use tl_link_rules::{beat_count, is_alike};
use tl_tables::{carries_data, op_of};
use tl_topology::LinkDecl;

/// The first beat of a channel, and how many there were.
#[derive(Clone, Copy, Debug)]
pub struct Seen {
    /// None before all beats.
    first: Option<Beat>,
    /// How many; 65,535 where there were more, which is more than any message has.
    count: u16,
}

/// Whether a beat that is read as a head carries data.
fn has_data(link: &LinkDecl, beat: &Beat) -> bool
    ensures { result ≡ has_data link.now beat.now }
{
    match op_of(link.level, beat.chan, beat.opcode) {
        Some(op) => carries_data(op),
        None => false,
    }
}

impl Seen {
    /// Before all beats.
    pub fn new() -> Seen
        ensures { Tells result [] }
    {
        Seen {
            first: None,
            count: 0,
        }
    }

    /// One more beat of the channel.
    pub fn add(&mut self, beat: &Beat)
        ensures { (before : List AnyBeat) → Tells self.old before → Tells self.new (beat.now ∷ before) }
    {
        if self.first.is_none() {
            self.first = Some(*beat);
        }
        self.count = self.count.saturating_add(1);
    }

    /// Of a message of the past that the channel's next beat may belong to, the beats from this one on, as far as the fields tell: fewer can be
    /// missing. 0 where the beat can't belong to one. Of such a message three things are known: it carries data; the channel's
    /// first beat is one of its beats, and so like it; and it has at least the beats that the capture has of it.
    pub fn room(&self, link: &LinkDecl, beat: &Beat) -> u16
        requires link { IsSound link.now }
        requires beat { IsWellFormed beat.now }
        ensures { (before : List AnyBeat) (missing : ℕ) → Tells self.now before
            → is_refuted link.now beat.now before (rest missing None) ≡ nat_le result missing }
    {
        let first = self.first.unwrap_or(*beat);
        if has_data(link, beat) && is_alike(&first, beat) {
            beat_count(link, beat).saturating_sub(self.count)
        } else {
            0
        }
    }
}
