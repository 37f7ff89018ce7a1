//! The rules of later beats of a burst.

ghost use Rattle.std.specs.Prelude.{◌≡◌, true, [], filter};
ghost use Rattle.tl_tables.specs.declared.Op.{Op as AnyOp};
ghost use Rattle.tl_topology.specs.declared.LinkDecl.{LinkDecl as AnyLink};
ghost use Rattle.tl_topology.specs.Topology.{IsSound};
ghost use Rattle.tl_beats.specs.Beats.{IsWellFormed};
ghost use Rattle.tl_definitions.specs.Breaks.{is_alike, breaks_later, later_order, later_rules};

use crate::fields::{is_denied_data, is_off_lanes};
use crate::rule_list::RuleList;
use std::alloc::Global;
use tl_beats::Beat;
use tl_tables::{Chan, Op, Rule, op_of};
use tl_topology::LinkDecl;

/// Whether a later beat has the fields that all beats of its burst share. [TileLink 1.8: serialization]
pub fn is_alike(head: &Beat, beat: &Beat) -> bool
    ensures { result ≡ is_alike head.now beat.now }
{
    let same_message = head.opcode == beat.opcode
        && head.param == beat.param
        && head.size == beat.size
        && head.source == beat.source;
    if head.chan == Chan::D {
        same_message && head.sink == beat.sink && head.denied == beat.denied
    } else {
        same_message && head.address == beat.address
    }
}

/// Whether a later beat of a head with this message breaks the rule: F5, F7 or U1, and no other. [TileLink 1.8: serialization,
/// byte lanes, denied and corrupt]
pub fn breaks(link: &LinkDecl, op: Op, head: &Beat, beat: &Beat, rule: Rule) -> bool
    requires link { IsSound link.now }
    requires head { IsWellFormed head.now }
    ensures { result ≡ breaks_later link.now op head.now beat.now rule }
{
    match rule {
        Rule::F5 => is_off_lanes(link, op, head, beat),
        Rule::F7 => is_denied_data(op, head, beat),
        Rule::U1 => !is_alike(head, beat),
        _ => false,
    }
}

/// Whether a later beat is seen to break no rule, whatever the message of its head is.
#[tactic(auto, using(crate::proofs::Clean::clean))]
fn is_clean(head: &Beat, beat: &Beat) -> bool
    ensures { result ≡ true → (link : AnyLink) (op : AnyOp) → filter (breaks_later link op head.now beat.now) later_order ≡ [] }
{
    let has_mask = matches!(head.chan, Chan::A | Chan::B);
    let is_denied = head.chan == Chan::D && beat.denied && !beat.corrupt;
    !has_mask && !is_denied && is_alike(head, beat)
}

/// Whether a later beat of a burst with this head is seen to break no rule, on whatever link; false says nothing.
#[tactic(auto, using(crate::proofs::Clean::none_later))]
pub fn keeps_burst(head: &Beat, beat: &Beat) -> bool
    ensures { result ≡ true → (link : AnyLink) → later_rules link beat.now head.now ≡ [] }
{
    is_clean(head, beat)
}

/// The rules that a later beat breaks, by the head of its burst, in the order of reports, each once: F5 by the head's
/// lanes and the beat's mask, F7 by the beat's own bits, U1 where it differs from the head in a field that all beats of a
/// burst share. [TileLink 1.8: serialization, byte lanes, denied and corrupt]
pub fn check_later(alloc: Global, link: &LinkDecl, head: &Beat, beat: &Beat) -> RuleList
    requires link { IsSound link.now }
    requires head { IsWellFormed head.now }
    ensures { result ≡ later_rules link.now beat.now head.now }
{
    let mut rules = RuleList::new(alloc);
    // Most later beats end here, and the message of their head isn't looked up.
    if is_clean(head, beat) {
        return rules;
    }
    let Some(op) = op_of(link.level, head.chan, head.opcode) else {
        return rules;
    };
    rules.push_if(breaks(link, op, head, beat, Rule::F5), Rule::F5);
    rules.push_if(breaks(link, op, head, beat, Rule::F7), Rule::F7);
    rules.push_if(breaks(link, op, head, beat, Rule::U1), Rule::U1);
    rules
}
