//! Lead-ins: from which cycle on the heads of each channel are known.

ghost use Rattle.std.specs.Prelude.{◌≡◌, ◌+◌, ◌<◌, ◌&&◌, not, List, [], ◌∷◌, length, map, if◌then◌else◌, IfOk};
ghost use Rattle.std.specs.Io.Iter.{u64_saturate};
ghost use Rattle.std.specs.List.{All, Contains};
ghost use Rattle.tl_tables.specs.Messages.{same_chan};
ghost use Rattle.tl_topology.specs.Regions.{Area};
ghost use Rattle.tl_topology.specs.Topology.{IsSound};
ghost use Rattle.tl_beats.specs.Beats.{IsWellFormed};
ghost use Rattle.tl_definitions.specs.Captures.{manager_beats};
ghost use Rattle.tl_definitions.specs.Managers.{declared_links, manager_at};
ghost use Rattle.tl_definitions.specs.Positions.{clients_of};
ghost use Rattle.tl_definitions.specs.Readings.{in_lead_in};
ghost use Rattle.tl_definitions.specs.Rules.{Manager};
ghost use Rattle.tl_midway.specs.LeadIns.{first_sure, known_from, channel_heads, all_heads};
ghost use Rattle.tl_midway.specs.LinkReadings.{channel_of};
ghost use Rattle.tl_midway.specs.Midway.{beginning_of};
ghost use Rattle.tl_midway.specs.Readings.{shown_readings};

use crate::link_readings::LinkReadings;
use crate::midway::Midway;
use std::alloc::{AllocError, Global};
use tl_beats::Beat;
use tl_capture::Merged;
use tl_edits::Inputs;
use tl_tables::Chan;
use tl_topology::LinkDecl;

/// From which cycle on the heads of a link's channel are known.
#[derive(Clone, Copy, Debug, PartialEq, Eq)]
pub struct HeadsKnown {
    /// The link's number in its topology.
    pub link: u16,
    /// The channel.
    pub chan: Chan,
    /// The cycle of its first beat that is in no lead-in; None where it has no such beat.
    pub cycle: Option<u64>,
}

/// Whether the next beat of a link, which is this one, is on a channel and in no lead-in.
fn is_sure(readings: &LinkReadings, chan: Chan, beat: &Beat) -> bool
    ensures { result ≡ (same_chan beat.now.chan chan && not (in_lead_in (shown_readings (channel_of readings.now beat.now.chan)))) }
{
    beat.chan == chan && !readings.in_lead_in(beat.chan)
}

/// The cycle of the first beat of a walk over a link's beats that is on a channel and in no lead-in.
fn first_sure<'a>(
    alloc: Global,
    number: u16,
    link: &LinkDecl,
    chan: Chan,
    law: Midway,
    walk: Merged<'a>,
) -> Result<Option<u64>, AllocError>
    requires link { IsSound link.now }
    requires formed { All (λ p. IsWellFormed p.beat) walk }
    requires linked { All (λ p. Contains (number ∷ []) p.link) walk }
    ensures { (m : Manager) → m.links number ≡ link.now → IfOk result (λ cycle. cycle ≡ first_sure m (beginning_of law m) chan [] walk.entry) }
{
    let by_fields = law.by_fields();
    let mut readings = LinkReadings::new(alloc, law, number, link)?;
    let mut passed = 0u64;
    for at in walk {
        if is_sure(&readings, chan, &at.beat) {
            return Ok(Some(at.beat.cycle));
        }
        drop(readings.take(alloc, by_fields, link, &at.beat, &mut passed));
    }
    Ok(None)
}

/// The cycle of the first beat of a link's channel that is in no lead-in.
fn known_from(
    alloc: Global,
    inputs: &Inputs,
    link: u16,
    chan: Chan,
    law: Midway,
) -> Result<Option<u64>, AllocError>
    requires { link < length inputs.now.topo.links }
    ensures { IfOk result (λ cycle. cycle ≡ known_from law inputs.now link chan) }
{
    let decl = inputs.topo().link(link).unwrap();
    let walk = inputs.present().walk(alloc, &[link])?;
    first_sure(alloc, link, decl, chan, law, walk)
}

/// The cycles of the first beats of these channels of a link that are in no lead-in.
fn link_heads(
    alloc: Global,
    inputs: &Inputs,
    link: u16,
    chans: &[Chan],
    law: Midway,
) -> Result<Vec<HeadsKnown>, AllocError>
    requires { link < length inputs.now.topo.links }
    ensures { IfOk result (λ heads. heads.items ≡ map (channel_heads law inputs.now link) chans.now) }
{
    let mut heads = Vec::new(alloc);
    for chan in chans {
        let cycle = known_from(alloc, inputs, link, *chan, law)?;
        heads.push(HeadsKnown {
            link,
            chan: *chan,
            cycle,
        })?;
    }
    Ok(heads)
}

/// From which cycle on the heads of each channel are known, of what edits leave: of the links in the order of their numbers, and of
/// each from A to E. AllocError where memory is refused.
pub fn heads_known(
    alloc: Global,
    inputs: &Inputs,
    law: Midway,
) -> Result<Vec<HeadsKnown>, AllocError>
    ensures { IfOk result (λ heads. heads.items ≡ all_heads law inputs.now) }
{
    let chans = [Chan::A, Chan::B, Chan::C, Chan::D, Chan::E];
    let mut heads = Vec::new(alloc);
    for link in 0..inputs.topo().link_count() {
        let own = link_heads(alloc, inputs, link as u16, &chans, law)?;
        heads.extend_from_slice(&own)?;
    }
    Ok(heads)
}
