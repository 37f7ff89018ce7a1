//! What the rules of a head ask about, where nobody recorded the first messages of its manager's links: whether that is known.

ghost use Rattle.std.specs.Prelude.{◌≡◌, ◌==◌, ◌&&◌, ◌||◌, not, true, false, List};
ghost use Rattle.std.specs.List.{list_any};
ghost use Rattle.tl_beats.specs.declared.Placed.{Placed as AnyPlaced};
ghost use Rattle.tl_definitions.specs.Heads.{message_of};
ghost use Rattle.tl_definitions.specs.Rules.{Manager};
ghost use Rattle.tl_tables.specs.Kinds.{conflicts};
ghost use Rattle.tl_definitions.specs.Rules.{is_wrong};
ghost use Rattle.tl_definitions.specs.Known.{Beginning, bare, known_request, known_pasts};
ghost use Rattle.tl_definitions.specs.Printed.{front};
ghost use Rattle.tl_tables.specs.declared.Rule.{Rule as AnyRule};
ghost use Rattle.tl_midway.specs.Asked.{is_plain};
ghost use Rattle.tl_midway.specs.Known.{known_of};
ghost use Rattle.tl_midway.specs.KnownLink as known_link;
ghost use Rattle.tl_midway.specs.KnownLink.{shown};
ghost use Rattle.tl_midway.specs.ManagerReadings.{HasPlace};
ghost use Rattle.tl_midway.specs.Unjudged.{is_unknown, some_bound};
ghost use Rattle.tl_midway.specs.declared.known_pasts.LinkPast.{LinkPast as AnyLink};

use crate::known::{Known, is_unknown};
use crate::known_link::KnownLink;
use crate::known_pasts::{KnownPasts, LinkPast};
use tl_beats::{Beat, Placed, Request};
use tl_client_rules::{claim, conflicts, granted_block, is_wrong};
use tl_tables::{
    Chan, Op, Perm, Rule, from_of, is_acquire, is_grant, is_grant_ack, is_probe, is_probe_ack,
    is_release, is_release_ack, op_of,
};
use tl_topology::LinkDecl;

/// Whether rules ask of the message about its source alone.
fn is_plain(op: Op) -> bool
    ensures { result ≡ is_plain op }
{
    !(is_acquire(op)
        || is_probe(op)
        || is_probe_ack(op)
        || is_release(op)
        || is_grant(op)
        || is_release_ack(op)
        || is_grant_ack(op))
}

impl KnownLink {
    ghost use Rattle.tl_midway.specs.KnownLink.{breaks_shown_flow, breaks_shown_permission};
    ghost use Rattle.tl_midway.specs.Unjudged.{asks_flow, may_claim_wrongly, asks_permission};

    /// Whether what the flow rule asks about of a head with this message isn't known; false of a rule of another kind.
    fn asks_flow(&self, op: Op, head: &Beat, rule: Rule) -> bool
        ensures { result ≡ asks_flow (shown self.now).flow (known_request (shown self.now).flow (bare op head.now)) (bare op head.now) rule }
    {
        match rule {
            Rule::S1 => head.chan == Chan::A && is_unknown(self.source(head.source)),
            Rule::S2 | Rule::S3 | Rule::S4 => {
                head.chan == Chan::D && !is_release_ack(op) && is_unknown(self.request(op, head))
            }
            Rule::S5 | Rule::S7 => is_release_ack(op) && is_unknown(self.request(op, head)),
            Rule::S6 => is_release(op) && is_unknown(self.release(head.source)),
            Rule::S8 => is_grant(op) && is_unknown(self.sink(head.sink)),
            Rule::S9 => is_grant_ack(op) && is_unknown(self.sink(head.sink)),
            _ => false,
        }
    }

    /// Whether a claim to have held this of the block is wrong by a bound that may stand.
    fn may_be_wrong(&self, strict: bool, block: u64, from: Perm) -> bool
        ensures { result ≡ some_bound (λ held. is_wrong strict held from) ((shown self.now).client.bound block) }
    {
        (is_wrong(strict, Perm::Nothing, from) && self.may_be(block, Perm::Nothing))
            || (is_wrong(strict, Perm::Branch, from) && self.may_be(block, Perm::Branch))
            || (is_wrong(strict, Perm::Trunk, from) && self.may_be(block, Perm::Trunk))
    }

    /// Whether a head with this message claims more than a bound that may stand, or on a strict link less.
    fn may_claim_wrongly(&self, strict: bool, op: Op, head: &Beat) -> bool
        ensures { result ≡ may_claim_wrongly strict self.now.exponent (shown self.now).client (bare op head.now) }
    {
        match from_of(op, head.param) {
            Some(from) => self.may_be_wrong(strict, self.block(head.address), from),
            None => false,
        }
    }

    /// Whether what the permission rule asks about of a head with this message isn't known, on a strict link or another; false of a rule
    /// of another kind.
    fn asks_permission(&self, strict: bool, op: Op, head: &Beat, rule: Rule) -> bool
        ensures { result ≡ asks_permission strict self.now.exponent (shown self.now).client (bare op head.now) rule }
    {
        match rule {
            Rule::P1 => is_acquire(op) && self.may_claim_wrongly(strict, op, head),
            Rule::P2 => {
                (is_probe_ack(op) || is_release(op)) && self.may_claim_wrongly(strict, op, head)
            }
            Rule::P3 | Rule::P4 => {
                is_probe_ack(op) && self.probe_hidden(self.block(head.address))
            }
            Rule::P5 => is_probe(op) && self.probe_hidden(self.block(head.address)),
            Rule::P6 => is_acquire(op),
            Rule::P7 => is_release(op),
            Rule::P8 => is_acquire(op) || is_release(op) || is_probe_ack(op),
            _ => false,
        }
    }

    /// Whether what the rule asks about of a head with this message isn't known; false of a format rule and of a manager rule.
    fn asks(&self, strict: bool, op: Op, head: &Beat, rule: Rule) -> bool
        ensures { result ≡ (asks_flow (shown self.now).flow (known_request (shown self.now).flow (bare op head.now)) (bare op head.now) rule
            || asks_permission strict self.now.exponent (shown self.now).client (bare op head.now) rule) }
    {
        self.asks_flow(op, head, rule) || self.asks_permission(strict, op, head, rule)
    }

    /// Whether such a head surely breaks the rule; no format rule and no manager rule.
    fn surely_breaks(&self, strict: bool, op: Op, head: &Beat, rule: Rule) -> bool
        ensures { result ≡ (breaks_shown_flow self.now (bare op head.now) rule || breaks_shown_permission strict self.now (bare op head.now) rule) }
    {
        self.breaks_flow(op, head, rule) || self.breaks_permission(strict, op, head, rule)
    }

    /// Whether the message is plain and its source is known.
    fn asks_nothing(&self, op: Op, source: u16) -> bool
        ensures { result ≡ (is_plain op && not (is_unknown ((shown self.now).flow.source source))) }
    {
        is_plain(op) && !is_unknown(self.source(source))
    }

    /// Whether a bound of the block that may stand conflicts with what is set on it.
    fn may_forbid(&self, block: u64, set: Perm) -> bool
        ensures { result ≡ some_bound (conflicts set) ((shown self.now).client.bound block) }
    {
        (conflicts(set, Perm::Nothing) && self.may_be(block, Perm::Nothing))
            || (conflicts(set, Perm::Branch) && self.may_be(block, Perm::Branch))
            || (conflicts(set, Perm::Trunk) && self.may_be(block, Perm::Trunk))
    }

    /// Whether it isn't known if a Probe of the block is open.
    fn probe_hidden(&self, block: u64) -> bool
        ensures { result ≡ is_unknown ((shown self.now).client.probe block) }
    {
        is_unknown(self.probe(block))
    }
}

/// Whether what is set on a block is forbidden by a bound that may stand, of another client than that of the link.
fn any_may_forbid(links: &[LinkPast], link: u16, block: u64, set: Perm) -> bool
    ensures { result ≡ list_any (λ (own : AnyLink). not (own.number == link) && some_bound (conflicts set) ((shown own.past).client.bound block)) links.now }
{
    links.iter().any(|own| own.number != link && own.past.may_forbid(block, set))
}

/// Whether it isn't known of some client if a Probe of the block is open.
fn any_probe_hidden(links: &[LinkPast], block: u64) -> bool
    ensures { result ≡ list_any (λ (own : AnyLink). is_unknown ((shown own.past).client.probe block)) links.now }
{
    links.iter().any(|own| own.past.probe_hidden(block))
}

impl KnownPasts {
    ghost use Rattle.tl_midway.specs.Unjudged.{asks};
    ghost use Rattle.tl_midway.specs.Asked.{may_conflict_shown, may_meet_shown, asks_shown_manager, WhereKnown, message_surely, OfDeclared, head_asks, head_open, head_may};
    ghost use Rattle.tl_midway.specs.KnownPasts.{numbers_of, StandsFor};

    /// Whether what a Grant sets may be forbidden by another client's bound. Its request may be of any block where it isn't known.
    fn may_conflict(&self, link: u16, op: Op, head: &Beat, request: Known<Option<Request>>) -> bool
        ensures { result ≡ may_conflict_shown self.now link (known_of request) (bare op head.now) }
    {
        match request {
            Known::Sure(request) => match claim(self.exponent, op, head, request) {
                Some((block, set)) => any_may_forbid(&self.links, link, block, set),
                None => false,
            },
            Known::Unknown => true,
        }
    }

    /// Whether it isn't known of some client if a Probe of a Grant's block is open.
    fn may_meet_probe(&self, request: Known<Option<Request>>) -> bool
        ensures { result ≡ may_meet_shown self.now (known_of request) }
    {
        match request {
            Known::Sure(request) => match granted_block(self.exponent, request) {
                Some(block) => any_probe_hidden(&self.links, block),
                None => false,
            },
            Known::Unknown => true,
        }
    }

    /// Whether what the manager rule asks about of a head with this message isn't known, by what is known of its link; false of a rule of
    /// another kind.
    fn asks_manager(&self, past: &KnownLink, op: Op, at: &Placed, rule: Rule) -> bool
        ensures { result ≡ asks_shown_manager self.now at.now.link (known_request (shown past.now).flow (bare op at.now.beat)) (bare op at.now.beat) rule }
    {
        match rule {
            Rule::M1 => {
                is_grant(op) && self.may_conflict(at.link, op, &at.beat, past.request(op, &at.beat))
            }
            Rule::M2 => is_grant(op) && self.may_meet_probe(past.request(op, &at.beat)),
            Rule::M3 => is_probe(op),
            _ => false,
        }
    }

    /// Whether what the rule asks about of the manager's next beat isn't known, where that is a head with this message: by what is
    /// known of its link, which is strict or isn't, and of the others.
    pub(crate) fn asks(
        &self,
        past: &KnownLink,
        strict: bool,
        op: Op,
        at: &Placed,
        rule: Rule,
    ) -> bool
        ensures { WhereKnown self.now past.now strict at.now.link (λ m start before.
            result ≡ asks m (known_pasts m start before) at.now.link (bare op at.now.beat) rule) }
    {
        past.asks(strict, op, &at.beat, rule) || self.asks_manager(past, op, at, rule)
    }

    /// Whether such a head surely breaks the rule; no format rule.
    pub(crate) fn surely_breaks(
        &self,
        past: &KnownLink,
        strict: bool,
        op: Op,
        at: &Placed,
        rule: Rule,
    ) -> bool
        ensures { WhereKnown self.now past.now strict at.now.link (λ m start before.
            result ≡ message_surely m (front m start before) at.now.link (bare op at.now.beat) rule) }
    {
        past.surely_breaks(strict, op, &at.beat, rule)
            || self.breaks(at.link, op, &at.beat, past.request(op, &at.beat), rule)
    }

    /// Whether the manager's next beat may break the rule as a head with this message, by what is known of its link, and doesn't surely;
    /// false of a format rule.
    pub(crate) fn leaves_open(
        &self,
        past: &KnownLink,
        strict: bool,
        op: Option<Op>,
        at: &Placed,
        rule: Rule,
    ) -> bool
        ensures { WhereKnown self.now past.now strict at.now.link (λ m start before.
            message_of (m.links at.now.link) at.now.beat ≡ op → result ≡ head_open m start before at.now rule) }
    {
        match op {
            Some(op) => {
                self.asks(past, strict, op, at, rule)
                    && !self.surely_breaks(past, strict, op, at, rule)
            }
            None => false,
        }
    }

    /// Whether it is seen at once that nothing is asked about the manager's next beat as a head that isn't known; false says nothing.
    pub fn asks_nothing(&self, link: &LinkDecl, at: &Placed) -> bool
        requires own { HasPlace (numbers_of self.now) at.now.link }
        ensures { result ≡ true → OfDeclared self.now at.now link.now (λ m start before. (r : AnyRule) → head_asks m start before at.now r ≡ false) }
    {
        let past = self.past(at);
        match op_of(link.level, at.beat.chan, at.beat.opcode) {
            Some(op) => past.asks_nothing(op, at.beat.source),
            None => true,
        }
    }

    /// The past of the link of a beat.
    pub(crate) fn past(&self, at: &Placed) -> &KnownLink
        requires own { HasPlace (numbers_of self.now) at.now.link }
        ensures { (m : Manager) (start : Beginning) (before : List AnyPlaced) → StandsFor m start self.now before → known_link.StandsFor m start at.now.link result.now before }
    {
        let place = self.place(at.link).unwrap();
        &self.links[place].past
    }

    /// Whether the manager's next beat may break the rule as a head; false of a format rule.
    pub fn may_break(&self, link: &LinkDecl, at: &Placed, rule: Rule) -> bool
        requires own { HasPlace (numbers_of self.now) at.now.link }
        ensures { OfDeclared self.now at.now link.now (λ m start before. result ≡ head_may m start before at.now rule) }
    {
        let place = self.place(at.link).unwrap();
        let past = &self.links[place].past;
        match op_of(link.level, at.beat.chan, at.beat.opcode) {
            Some(op) => {
                self.asks(past, link.strict, op, at, rule)
                    || self.surely_breaks(past, link.strict, op, at, rule)
            }
            None => false,
        }
    }
}
