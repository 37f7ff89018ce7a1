//! What is in flight on a link, and the flow rules of its heads.

ghost use Rattle.std.specs.Prelude.{◌≡◌, ◌==◌, ℕ, List, [], Some, filter, not, false, true, IfOk, OnOk, OnErr};
ghost use Rattle.std.specs.Bool.{Decides};
ghost use Rattle.std.specs.Option.{option_map_or};
ghost use Rattle.tl_tables.specs.Messages.{replies_to};
ghost use Rattle.tl_definitions.specs.Heads.{message_of};
ghost use Rattle.tl_definitions.specs.Messages.{Message, with_message};
ghost use Rattle.tl_definitions.specs.Rules.{breaks_flow, flow_order};
ghost use Rattle.tl_definitions.specs.Judging.{request_in, message_in, flow_after};
ghost use Rattle.tl_link_rules.specs.Flow.{SameFlow};

use crate::RuleList;
use std::alloc::{AllocError, Global};
use tl_beats::{Beat, Request};
use tl_same::Same;
use tl_state::Slots;
use tl_tables::{
    Chan, Op, Rule, is_grant, is_grant_ack, is_release, is_release_ack, op_of, replies,
};
use tl_topology::LinkDecl;

/// What is in flight on one link. [TileLink 1.8: source and sink identifiers]
#[derive(Drop)]
pub struct FlowState {
    /// The requests of channel A, by source.
    sources: Slots<Request>,
    /// The Releases, by source: these are other sources than those of channel A.
    releases: Slots<Request>,
    /// The Grants without their GrantAck, by sink.
    sinks: Slots<()>,
}

/// What a head breaks, and the request that it answers.
#[derive(Drop)]
pub struct FlowAnswer {
    /// Those of S1 to S9 that it breaks, in order.
    pub rules: RuleList,
    /// Of a head on D: the Release that is open on its source for a ReleaseAck, else the request that is open there.
    pub request: Option<Request>,
}

/// What is kept of a head that asks for a reply.
pub fn request_from(op: Op, head: &Beat) -> Request
    ensures { result ≡ record { op = op; param = head.now.param; size = head.now.size; source = head.now.source; address = head.now.address } }
{
    Request {
        op,
        param: head.param,
        size: head.size,
        source: head.source,
        address: head.address,
    }
}

impl FlowState {
    ghost use Rattle.tl_tables.specs.Messages.{op_at};
    ghost use Rattle.tl_link_rules.specs.Flow.{StandsFor, shown, source_at, release_at, has_sink, flow_rules, answered, rules_in, answered_in, flow_with, can_carry};

    /// The state of a link without messages.
    pub fn new(alloc: Global) -> FlowState
        ensures { StandsFor result [] }
    {
        FlowState {
            sources: Slots::new(alloc),
            releases: Slots::new(alloc),
            sinks: Slots::new(alloc),
        }
    }

    /// A state that shows the same. AllocError where memory is refused.
    #[tactic(auto, using(crate::proofs::SameLaws::shown_by_entries))]
    pub fn copy(&self) -> Result<FlowState, AllocError>
        ensures { IfOk result (λ copy. SameFlow self.now copy) }
    {
        Ok(FlowState {
            sources: self.sources.copy()?,
            releases: self.releases.copy()?,
            sinks: self.sinks.copy()?,
        })
    }

    /// The flow rules that the next head of the link breaks and the request that it answers, by what is open before it; then
    /// what it opens and closes. A head whose opcode is no message breaks none and changes nothing. A later beat is no
    /// message: the state is not stepped by it. AllocError where memory is refused: then nothing has changed.
    /// [TileLink 1.8: operations, source and sink identifiers]
    #[tactic(auto, using(crate::proofs::FlowLaws::rules_law, crate::proofs::FlowLaws::request_law))]
    pub fn step(
        &mut self,
        alloc: Global,
        link: &LinkDecl,
        head: &Beat,
    ) -> Result<FlowAnswer, AllocError>
        // Where the state stands for the messages of the link so far, the answer is the definition's, and the state then
        // stands for them and this head.
        ensures rules { (before : List Message) → StandsFor self.old before
            → IfOk result (λ answer. answer.rules ≡ flow_rules before head.now (message_of link.now head.now)) }
        ensures request { (before : List Message) → StandsFor self.old before
            → IfOk result (λ answer. answer.request ≡ answered before head.now (message_of link.now head.now)) }
        ensures stands { (before : List Message) → StandsFor self.old before
            → OnOk result (StandsFor self.new (with_message head.now (message_of link.now head.now) before)) }
        // Whatever the state shows, the head is judged by that.
        ensures judged { IfOk result (λ answer. (answer.rules ≡ rules_in (shown self.old) head.now (message_of link.now head.now))
            × (answer.request ≡ answered_in (shown self.old) head.now (message_of link.now head.now))) }
        ensures next { OnOk result (shown self.new ≡ flow_with (shown self.old) head.now (message_of link.now head.now)) }
        ensures err { OnErr result (shown self.new ≡ shown self.old) }
    {
        self.advance(alloc, link, head)
    }

    /// The same on what the state shows.
    fn advance(
        &mut self,
        alloc: Global,
        link: &LinkDecl,
        head: &Beat,
    ) -> Result<FlowAnswer, AllocError>
        ensures rules { IfOk result (λ answer. answer.rules ≡ rules_in (shown self.old) head.now (message_of link.now head.now)) }
        ensures request { IfOk result (λ answer. answer.request ≡ answered_in (shown self.old) head.now (message_of link.now head.now)) }
        ensures next { OnOk result (shown self.new ≡ flow_with (shown self.old) head.now (message_of link.now head.now)) }
        ensures err { OnErr result (shown self.new ≡ shown self.old) }
    {
        let Some(op) = op_of(link.level, head.chan, head.opcode) else {
            return Ok(FlowAnswer {
                rules: RuleList::new(alloc),
                request: None,
            });
        };
        let request = self.request_of(op, head);
        let rules = self.broken_rules(alloc, op, head, &request);
        self.pass(link, op, head)?;
        Ok(FlowAnswer { rules, request })
    }

    /// The request that a head with this message answers.
    #[inline(always)]
    pub fn request_of(&self, op: Op, head: &Beat) -> Option<Request>
        ensures { result ≡ request_in (shown self.now) op head.now }
    {
        if head.chan != Chan::D {
            None
        } else if is_release_ack(op) {
            self.releases.get(head.source)
        } else {
            self.sources.get(head.source)
        }
    }

    /// Whether a head with this message breaks the rule.
    fn breaks(&self, op: Op, head: &Beat, request: &Option<Request>, rule: Rule) -> bool
        ensures { result ≡ breaks_flow (shown self.now) (record { op = op; beat = head.now; request = request.now }) rule }
    {
        let is_reply = head.chan == Chan::D && !is_release_ack(op);
        match rule {
            Rule::S1 => head.chan == Chan::A && self.sources.get(head.source).is_some(),
            Rule::S2 => is_reply && request.is_none(),
            Rule::S3 => is_reply && is_unlike(request, op),
            Rule::S4 => is_reply && has_other_size(request, head),
            Rule::S5 => is_release_ack(op) && request.is_none(),
            Rule::S6 => is_release(op) && self.releases.get(head.source).is_some(),
            Rule::S7 => is_release_ack(op) && has_other_size(request, head),
            Rule::S8 => is_grant(op) && self.sinks.get(head.sink).is_some(),
            Rule::S9 => is_grant_ack(op) && self.sinks.get(head.sink).is_none(),
            _ => false,
        }
    }

    /// The rules that it breaks, in the order of reports.
    fn broken_rules(
        &self,
        alloc: Global,
        op: Op,
        head: &Beat,
        request: &Option<Request>,
    ) -> RuleList
        ensures { result ≡ filter (breaks_flow (shown self.now) (record { op = op; beat = head.now; request = request.now })) flow_order }
    {
        let mut rules = RuleList::new(alloc);
        rules.push_if(self.breaks(op, head, request, Rule::S1), Rule::S1);
        rules.push_if(self.breaks(op, head, request, Rule::S2), Rule::S2);
        rules.push_if(self.breaks(op, head, request, Rule::S3), Rule::S3);
        rules.push_if(self.breaks(op, head, request, Rule::S4), Rule::S4);
        rules.push_if(self.breaks(op, head, request, Rule::S5), Rule::S5);
        rules.push_if(self.breaks(op, head, request, Rule::S6), Rule::S6);
        rules.push_if(self.breaks(op, head, request, Rule::S7), Rule::S7);
        rules.push_if(self.breaks(op, head, request, Rule::S8), Rule::S8);
        rules.push_if(self.breaks(op, head, request, Rule::S9), Rule::S9);
        rules
    }

    /// Whether a head with this message, which answers this request, is seen to break no flow rule; false says nothing.
    #[inline(always)]
    pub fn keeps_flow(&self, op: Op, head: &Beat, request: &Option<Request>) -> bool
        requires { can_carry head.now.chan op ≡ true }
        ensures { result ≡ true → filter (breaks_flow (shown self.now) (record { op = op; beat = head.now; request = request.now })) flow_order ≡ [] }
    {
        match head.chan {
            Chan::A => self.sources.get(head.source).is_none(),
            Chan::B => true,
            Chan::C => !is_release(op) || self.releases.get(head.source).is_none(),
            Chan::D => {
                let is_answer = match request {
                    Some(request) => {
                        request.size == head.size && (is_release_ack(op) || replies(request.op, op))
                    }
                    None => false,
                };
                is_answer && (!is_grant(op) || self.sinks.get(head.sink).is_none())
            }
            Chan::E => self.sinks.get(head.sink).is_some(),
        }
    }

    /// The state with a head of this message. AllocError where memory is refused: then nothing has changed.
    #[tactic(auto, using(crate::proofs::FlowLaws::carried))]
    #[inline(always)]
    pub fn pass(&mut self, link: &LinkDecl, op: Op, head: &Beat) -> Result<(), AllocError>
        requires { message_of link.now head.now ≡ Some op }
        ensures next { OnOk result (shown self.new ≡ flow_with (shown self.old) head.now (message_of link.now head.now)) }
        ensures err { OnErr result (shown self.new ≡ shown self.old) }
    {
        self.change(op, head)
    }

    /// Opens and closes what a head with this message does. Each opens at most one entry, so that at want of memory nothing
    /// has changed.
    #[inline(always)]
    fn change(&mut self, op: Op, head: &Beat) -> Result<(), AllocError>
        requires { can_carry head.now.chan op ≡ true }
        ensures source { OnOk result ((key : ℕ) → source_at self.new key ≡ (flow_after (shown self.old) (message_in (shown self.old) head.now op)).source key) }
        ensures release { OnOk result ((key : ℕ) → release_at self.new key ≡ (flow_after (shown self.old) (message_in (shown self.old) head.now op)).release key) }
        ensures sink { OnOk result ((key : ℕ) → has_sink self.new key ≡ (flow_after (shown self.old) (message_in (shown self.old) head.now op)).sink key) }
        ensures err { OnErr result (shown self.new ≡ shown self.old) }
    {
        match head.chan {
            Chan::A => {
                self.sources.set(head.source, Some(request_from(op, head)))?;
            }
            Chan::C if is_release(op) => {
                self.releases
                    .set(head.source, Some(request_from(op, head)))?;
            }
            Chan::D if is_release_ack(op) => {
                self.releases.take(head.source);
            }
            Chan::D => {
                if is_grant(op) {
                    self.sinks.set(head.sink, Some(()))?;
                }
                self.sources.take(head.source);
            }
            Chan::E => {
                self.sinks.take(head.sink);
            }
            _ => {}
        }
        Ok(())
    }
}

impl Same for FlowState {
    ghost same = { SameFlow };

    #[tactic(auto, using(crate::proofs::SameLaws::shown_by_entries, crate::proofs::SameLaws::entries_by_shown))]
    fn is_same(&self, other: &Self) -> bool {
        self.sources.is_same(&other.sources)
            && self.releases.is_same(&other.releases)
            && self.sinks.is_same(&other.sinks)
    }
}

/// Whether the message is no reply to the request.
pub fn is_unlike(request: &Option<Request>, op: Op) -> bool
    ensures { result ≡ option_map_or (λ request. not (replies_to request.op op)) request.now false }
{
    match request {
        Some(request) => !replies(request.op, op),
        None => false,
    }
}

/// Whether the request has another size than the head.
pub fn has_other_size(request: &Option<Request>, head: &Beat) -> bool
    ensures { result ≡ option_map_or (λ request. not (request.size == head.now.size)) request.now false }
{
    match request {
        Some(request) => request.size != head.size,
        None => false,
    }
}
