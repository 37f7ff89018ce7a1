//! The flow rules and the permission rules of a head, where nobody recorded the first messages of its link: those that it breaks
//! whatever these were.

ghost use Rattle.std.specs.Prelude.{◌≡◌, ◌==◌, [], true, not, filter};
ghost use Rattle.tl_tables.specs.Messages.{replies_to};
ghost use Rattle.tl_definitions.specs.OpenTables.{passes};
ghost use Rattle.tl_definitions.specs.Rules.{flow_order, permission_order, is_wrong};
ghost use Rattle.tl_definitions.specs.Known.{surely, bare};
ghost use Rattle.tl_definitions.specs.Printed.{every_bound, breaks_flow_surely, claims_wrongly_surely, keeps_above_surely};
ghost use Rattle.tl_midway.specs.Known.{known_of};

use crate::known::{Known, surely_closed, surely_open};
use crate::known_link::KnownLink;
use std::alloc::Global;
use tl_beats::{Beat, Request};
use tl_client_rules::is_wrong;
use tl_link_rules::{RuleList, has_other_size, is_unlike};
use tl_tables::{
    Chan, Op, Perm, Rule, from_of, is_above, is_acquire, is_grant, is_grant_ack, is_probe,
    is_probe_ack, is_release, is_release_ack, to_of,
};

/// Whether the message is surely no reply to the request.
fn surely_unlike(request: Known<Option<Request>>, op: Op) -> bool
    ensures { result ≡ surely (passes (λ answered. not (replies_to answered.op op))) (known_of request) }
{
    match request {
        Known::Sure(request) => is_unlike(&request, op),
        Known::Unknown => false,
    }
}

/// Whether the request surely has another size than the head.
fn surely_other_size(request: Known<Option<Request>>, head: &Beat) -> bool
    ensures { result ≡ surely (passes (λ answered. not (answered.size == head.now.size))) (known_of request) }
{
    match request {
        Known::Sure(request) => has_other_size(&request, head),
        Known::Unknown => false,
    }
}

/// Whether this is known to hold.
fn surely_is(known: Known<bool>) -> bool
    ensures { result ≡ surely (λ is. is) (known_of known) }
{
    match known {
        Known::Sure(is) => is,
        Known::Unknown => false,
    }
}

/// Whether this is known not to hold.
fn surely_not(known: Known<bool>) -> bool
    ensures { result ≡ surely not (known_of known) }
{
    match known {
        Known::Sure(is) => !is,
        Known::Unknown => false,
    }
}

impl KnownLink {
    ghost use Rattle.tl_midway.specs.KnownLink.{ForStanding, shown, breaks_shown_flow, breaks_shown_permission, permission_surely};

    /// Whether a head with this message surely breaks the flow rule; no rule of another kind.
    pub fn breaks_flow(&self, op: Op, head: &Beat, rule: Rule) -> bool
        ensures { result ≡ breaks_shown_flow self.now (bare op head.now) rule }
    {
        self.breaks_answering(op, head, self.request(op, head), rule)
    }

    /// The same of one that answers this request.
    fn breaks_answering(
        &self,
        op: Op,
        head: &Beat,
        request: Known<Option<Request>>,
        rule: Rule,
    ) -> bool
        ensures { result ≡ breaks_flow_surely (shown self.now).flow (known_of request) (bare op head.now) rule }
    {
        let is_reply = head.chan == Chan::D && !is_release_ack(op);
        match rule {
            Rule::S1 => head.chan == Chan::A && surely_open(self.source(head.source)),
            Rule::S2 => is_reply && surely_closed(request),
            Rule::S3 => is_reply && surely_unlike(request, op),
            Rule::S4 => is_reply && surely_other_size(request, head),
            Rule::S5 => is_release_ack(op) && surely_closed(request),
            Rule::S6 => is_release(op) && surely_open(self.release(head.source)),
            Rule::S7 => is_release_ack(op) && surely_other_size(request, head),
            Rule::S8 => is_grant(op) && surely_is(self.sink(head.sink)),
            Rule::S9 => is_grant_ack(op) && surely_not(self.sink(head.sink)),
            _ => false,
        }
    }

    /// Whether one that answers this request is seen to break no flow rule for certain, as most are; false says nothing.
    pub fn keeps_flow(&self, op: Op, head: &Beat, request: Known<Option<Request>>) -> bool
        ensures { result ≡ true → filter (breaks_flow_surely (shown self.now).flow (known_of request) (bare op head.now)) flow_order ≡ [] }
    {
        !self.breaks_answering(op, head, request, Rule::S1)
            && !self.breaks_answering(op, head, request, Rule::S2)
            && !self.breaks_answering(op, head, request, Rule::S3)
            && !self.breaks_answering(op, head, request, Rule::S4)
            && !self.breaks_answering(op, head, request, Rule::S5)
            && !self.breaks_answering(op, head, request, Rule::S6)
            && !self.breaks_answering(op, head, request, Rule::S7)
            && !self.breaks_answering(op, head, request, Rule::S8)
            && !self.breaks_answering(op, head, request, Rule::S9)
    }

    /// The flow rules that it surely breaks, in the order of reports.
    pub fn flow_rules(&self, alloc: Global, op: Op, head: &Beat) -> RuleList
        ensures { result ≡ filter (breaks_shown_flow self.now (bare op head.now)) flow_order }
    {
        let request = self.request(op, head);
        let mut rules = RuleList::new(alloc);
        rules.push_if(self.breaks_answering(op, head, request, Rule::S1), Rule::S1);
        rules.push_if(self.breaks_answering(op, head, request, Rule::S2), Rule::S2);
        rules.push_if(self.breaks_answering(op, head, request, Rule::S3), Rule::S3);
        rules.push_if(self.breaks_answering(op, head, request, Rule::S4), Rule::S4);
        rules.push_if(self.breaks_answering(op, head, request, Rule::S5), Rule::S5);
        rules.push_if(self.breaks_answering(op, head, request, Rule::S6), Rule::S6);
        rules.push_if(self.breaks_answering(op, head, request, Rule::S7), Rule::S7);
        rules.push_if(self.breaks_answering(op, head, request, Rule::S8), Rule::S8);
        rules.push_if(self.breaks_answering(op, head, request, Rule::S9), Rule::S9);
        rules
    }

    /// Whether a claim to have held this of the block is wrong by each bound that may stand.
    fn surely_wrong(&self, strict: bool, block: u64, from: Perm) -> bool
        ensures { result ≡ every_bound (λ held. is_wrong strict held from) ((shown self.now).client.bound block) }
    {
        (is_wrong(strict, Perm::Nothing, from) || !self.may_be(block, Perm::Nothing))
            && (is_wrong(strict, Perm::Branch, from) || !self.may_be(block, Perm::Branch))
            && (is_wrong(strict, Perm::Trunk, from) || !self.may_be(block, Perm::Trunk))
    }

    /// Whether a head with this message surely claims that the client held more than it can, or on a strict link less.
    fn claims_wrongly(&self, strict: bool, op: Op, head: &Beat) -> bool
        ensures { result ≡ claims_wrongly_surely strict self.now.exponent (shown self.now).client (bare op head.now) }
    {
        match from_of(op, head.param) {
            Some(from) => self.surely_wrong(strict, self.block(head.address), from),
            None => false,
        }
    }

    /// Whether it surely keeps more than the cap of the open Probe.
    fn keeps_above(&self, op: Op, head: &Beat) -> bool
        ensures { result ≡ keeps_above_surely self.now.exponent (shown self.now).client (bare op head.now) }
    {
        let probe = self.probe(self.block(head.address));
        match (to_of(op, head.param), probe) {
            (Some(to), Known::Sure(Some(Some(cap)))) => is_above(to, cap),
            _ => false,
        }
    }

    /// Whether a head with this message surely breaks the permission rule, on a strict link or another; no rule of another kind.
    pub fn breaks_permission(&self, strict: bool, op: Op, head: &Beat, rule: Rule) -> bool
        ensures shown { result ≡ breaks_shown_permission strict self.now (bare op head.now) rule }
        ensures stands { ForStanding self.now (λ m f link. result ≡ permission_surely strict m f link (bare op head.now) rule) }
    {
        self.breaks_shown(strict, op, head, rule)
    }

    /// The same by what the state shows.
    fn breaks_shown(&self, strict: bool, op: Op, head: &Beat, rule: Rule) -> bool
        ensures { result ≡ breaks_shown_permission strict self.now (bare op head.now) rule }
    {
        let block = self.block(head.address);
        let shrinks = is_probe_ack(op) || is_release(op);
        match rule {
            Rule::P1 => is_acquire(op) && self.claims_wrongly(strict, op, head),
            Rule::P2 => shrinks && self.claims_wrongly(strict, op, head),
            Rule::P3 => is_probe_ack(op) && self.probe_closed(block),
            Rule::P4 => is_probe_ack(op) && self.keeps_above(op, head),
            Rule::P5 => is_probe(op) && self.probe_open(block),
            Rule::P6 => is_acquire(op) && self.acquire_open(block),
            Rule::P7 => is_release(op) && self.acquire_open(block),
            Rule::P8 => (is_acquire(op) || shrinks) && self.release_open(block),
            _ => false,
        }
    }

    /// Whether it is seen to break no permission rule for certain, as most are; false says nothing.
    pub fn keeps_permissions(&self, strict: bool, op: Op, head: &Beat) -> bool
        ensures { result ≡ true → filter (breaks_shown_permission strict self.now (bare op head.now)) permission_order ≡ [] }
    {
        !self.breaks_shown(strict, op, head, Rule::P1)
            && !self.breaks_shown(strict, op, head, Rule::P2)
            && !self.breaks_shown(strict, op, head, Rule::P3)
            && !self.breaks_shown(strict, op, head, Rule::P4)
            && !self.breaks_shown(strict, op, head, Rule::P5)
            && !self.breaks_shown(strict, op, head, Rule::P6)
            && !self.breaks_shown(strict, op, head, Rule::P7)
            && !self.breaks_shown(strict, op, head, Rule::P8)
    }

    /// The permission rules that it surely breaks, in the order of reports.
    pub fn permission_rules(&self, alloc: Global, strict: bool, op: Op, head: &Beat) -> RuleList
        ensures shown { result ≡ filter (breaks_shown_permission strict self.now (bare op head.now)) permission_order }
        ensures stands { ForStanding self.now (λ m f link. result ≡ filter (permission_surely strict m f link (bare op head.now)) permission_order) }
    {
        let mut rules = RuleList::new(alloc);
        rules.push_if(self.breaks_permission(strict, op, head, Rule::P1), Rule::P1);
        rules.push_if(self.breaks_permission(strict, op, head, Rule::P2), Rule::P2);
        rules.push_if(self.breaks_permission(strict, op, head, Rule::P3), Rule::P3);
        rules.push_if(self.breaks_permission(strict, op, head, Rule::P4), Rule::P4);
        rules.push_if(self.breaks_permission(strict, op, head, Rule::P5), Rule::P5);
        rules.push_if(self.breaks_permission(strict, op, head, Rule::P6), Rule::P6);
        rules.push_if(self.breaks_permission(strict, op, head, Rule::P7), Rule::P7);
        rules.push_if(self.breaks_permission(strict, op, head, Rule::P8), Rule::P8);
        rules
    }
}
