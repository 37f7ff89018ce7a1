//! The format rules of heads.

ghost use Rattle.std.specs.Prelude.{◌≡◌, ◌≤◌, true, [], filter};
ghost use Rattle.tl_topology.specs.Regions.{areas_of};
ghost use Rattle.tl_topology.specs.Topology.{IsSound};
ghost use Rattle.tl_beats.specs.Beats.{IsWellFormed};
ghost use Rattle.tl_definitions.specs.Heads.{message_of};
ghost use Rattle.tl_definitions.specs.Rules.{breaks_format, format_order, format_rules, is_in_region};

use crate::fields::{is_denied_data, is_off_lanes};
use crate::rule_list::RuleList;
use std::alloc::Global;
use tl_beats::Beat;
use tl_tables::{Chan, Op, Rule, carries_data, is_of_block, op_of, param_ok};
use tl_topology::{LinkDecl, RegionMap};

/// Whether one region permits the request to all its bytes, or there are no regions.
#[tactic(auto, using(crate::proofs::Lanes::last_coded))]
fn is_in_region(regions: &RegionMap, op: Op, beat: &Beat) -> bool
    requires { IsWellFormed beat.now }
    ensures { result ≡ is_in_region (areas_of regions.now) op beat.now }
{
    if regions.is_empty() {
        return true;
    }
    let bytes: u64 = 1 << beat.size;
    let first = beat.address / bytes * bytes;
    regions.permits(op, first, first + (bytes - 1))
}

/// Whether a head with this message breaks a format rule of its manager, whose blocks have `2^exponent` bytes.
fn breaks(
    link: &LinkDecl,
    exponent: u8,
    regions: &RegionMap,
    op: Op,
    beat: &Beat,
    rule: Rule,
) -> bool
    requires link { IsSound link.now }
    requires beat { IsWellFormed beat.now }
    ensures { result ≡ breaks_format exponent (areas_of regions.now) link.now op beat.now rule }
{
    let has_address = matches!(beat.chan, Chan::A | Chan::B | Chan::C);
    let has_size = beat.chan != Chan::E;
    match rule {
        Rule::F2 => !param_ok(op, beat.param),
        Rule::F3 => has_address && beat.address % (1 << beat.size) != 0,
        Rule::F4 => has_size && beat.size > link.max_size,
        Rule::F5 => is_off_lanes(link, op, beat, beat),
        Rule::F6 => has_size && beat.corrupt && !carries_data(op),
        Rule::F7 => is_denied_data(op, beat, beat),
        Rule::F8 => is_of_block(op) && beat.size != exponent,
        Rule::F9 => has_size && u32::from(beat.source) >= link.sources,
        Rule::F10 => beat.chan == Chan::A && !is_in_region(regions, op, beat),
        _ => false,
    }
}

/// Whether a head with this message is seen to break no format rule of its manager, whose blocks have `2^exponent` bytes; false says
/// nothing.
#[inline(always)]
pub fn keeps_format(link: &LinkDecl, exponent: u8, regions: &RegionMap, op: Op, beat: &Beat) -> bool
    requires link { IsSound link.now }
    requires beat { IsWellFormed beat.now }
    ensures { result ≡ true → filter (breaks_format exponent (areas_of regions.now) link.now op beat.now) format_order ≡ [] }
{
    !breaks(link, exponent, regions, op, beat, Rule::F2)
        && !breaks(link, exponent, regions, op, beat, Rule::F3)
        && !breaks(link, exponent, regions, op, beat, Rule::F4)
        && !breaks(link, exponent, regions, op, beat, Rule::F5)
        && !breaks(link, exponent, regions, op, beat, Rule::F6)
        && !breaks(link, exponent, regions, op, beat, Rule::F7)
        && !breaks(link, exponent, regions, op, beat, Rule::F8)
        && !breaks(link, exponent, regions, op, beat, Rule::F9)
        && !breaks(link, exponent, regions, op, beat, Rule::F10)
}

/// The format rules F1 to F10 that a head breaks, in the order of reports, each once. `exponent` is that of the manager's
/// block, and `regions` are the manager's. A head whose opcode is no message breaks F1 and no other rule.
/// [TileLink 1.8: message fields, alignment, byte lanes, corrupt and denied, transfer operations]
pub fn check_head(
    alloc: Global,
    link: &LinkDecl,
    exponent: u8,
    regions: &RegionMap,
    beat: &Beat,
) -> RuleList
    requires link { IsSound link.now }
    requires beat { IsWellFormed beat.now }
    ensures { result ≡ format_rules exponent (areas_of regions.now) link.now beat.now (message_of link.now beat.now) }
{
    let mut rules = RuleList::new(alloc);
    let Some(op) = op_of(link.level, beat.chan, beat.opcode) else {
        rules.push(Rule::F1);
        return rules;
    };
    rules.push_if(
        breaks(link, exponent, regions, op, beat, Rule::F2),
        Rule::F2,
    );
    rules.push_if(
        breaks(link, exponent, regions, op, beat, Rule::F3),
        Rule::F3,
    );
    rules.push_if(
        breaks(link, exponent, regions, op, beat, Rule::F4),
        Rule::F4,
    );
    rules.push_if(
        breaks(link, exponent, regions, op, beat, Rule::F5),
        Rule::F5,
    );
    rules.push_if(
        breaks(link, exponent, regions, op, beat, Rule::F6),
        Rule::F6,
    );
    rules.push_if(
        breaks(link, exponent, regions, op, beat, Rule::F7),
        Rule::F7,
    );
    rules.push_if(
        breaks(link, exponent, regions, op, beat, Rule::F8),
        Rule::F8,
    );
    rules.push_if(
        breaks(link, exponent, regions, op, beat, Rule::F9),
        Rule::F9,
    );
    rules.push_if(
        breaks(link, exponent, regions, op, beat, Rule::F10),
        Rule::F10,
    );
    rules
}
