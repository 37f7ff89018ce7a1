//! What a client may hold of each block, and the permission rules of the heads of its link.

ghost use Rattle.std.specs.Prelude.{◌≡◌, ◌≤◌, ℕ, List, [], None, Some, filter, length, nat_lt, is_some, true, false, IfOk, OnOk, OnErr};
ghost use Rattle.std.specs.Bool.{Decides};
ghost use Rattle.std.specs.Option.{option_copied, option_map_or};
ghost use Rattle.tl_tables.specs.declared.Perm.TheVariants.{Trunk};
ghost use Rattle.tl_definitions.specs.Heads.{message_of};
ghost use Rattle.tl_definitions.specs.Messages.{Message, bound_of};
ghost use Rattle.tl_definitions.specs.Past.{LinkPast, client_past};
ghost use Rattle.tl_definitions.specs.Rules.{breaks_permission, permission_order, is_wrong, claims_wrongly, keeps_above};
ghost use Rattle.tl_client_rules.specs.Client.{SameClient};

use crate::bounds::Bounds;
use crate::claims::{acquired_block, block_of, claim, granted_block};
use crate::open_blocks::OpenBlocks;
use std::alloc::{AllocError, Global};
use tl_beats::{Beat, Request};
use tl_link_rules::RuleList;
use tl_same::Same;
use tl_state::BlockMap;
use tl_tables::{
    Chan, Op, Perm, Rule, cap_of, from_of, is_above, is_acquire, is_grant, is_probe, is_probe_ack,
    is_release, is_release_ack, op_of, to_of,
};
use tl_topology::LinkDecl;

/// What one client, on its link, can hold of each block, and what is open on it. [TileLink 1.8: permission transitions]
#[derive(Drop)]
pub struct ClientState {
    /// A block has 2 to this power bytes.
    exponent: u8,
    /// The caps of the Probes without their ProbeAck, by block; None where the param named no cap.
    probes: BlockMap<Option<Perm>>,
    bounds: Bounds,
    /// The blocks of the Acquires by source; other requests of channel A are not kept.
    acquires: OpenBlocks,
    /// The Releases by source: these are other sources than those of channel A.
    releases: OpenBlocks,
    /// The Grants without their GrantAck by sink; None where the block is not known.
    grants: OpenBlocks,
}

/// Whether a claim to have held this is above the bound, or on a strict link below it.
pub fn is_wrong(strict: bool, bound: Perm, from: Perm) -> bool
    ensures { result ≡ is_wrong strict bound from }
{
    is_above(from, bound) || (strict && is_above(bound, from))
}

impl ClientState {
    ghost use Rattle.tl_client_rules.specs.Client.{ClientView, StandsFor, Shows, AfterMessages, ForShown, shown, probe_at, permission_rules, rules_in, messages_with_head, past_with_head, view_after, view_with, view_rules, head_with, can_carry, IsOpened, IsView};
    ghost use Rattle.tl_client_rules.specs.Bounds.{IsSettled};
    ghost use Rattle.tl_client_rules.specs.OpenBlocks.{block_at, open_on};

    /// The state of a client of a manager whose blocks have 2 to the exponent bytes, before all messages.
    pub fn new(alloc: Global, exponent: u8) -> ClientState
        ensures { StandsFor exponent result [] }
    {
        ClientState {
            exponent,
            probes: BlockMap::new(alloc),
            bounds: Bounds::new(alloc),
            acquires: OpenBlocks::new(alloc),
            releases: OpenBlocks::new(alloc),
            grants: OpenBlocks::new(alloc),
        }
    }

    /// The most that the client can hold of the block that begins at this address: what the last message set that set it. Where
    /// no block begins there, it is Nothing. [TileLink 1.8: permission transitions]
    #[inline(always)]
    pub fn bound(&self, block: u64) -> Perm
        ensures stands { (exponent : ℕ) (before : List Message) → StandsFor exponent self.now before → result ≡ bound_of exponent before block }
        ensures shown { result ≡ (shown self.now).past.bound block }
    {
        self.bounds.get(block)
    }

    /// Whether the client can hold the block that begins at this address as a Trunk; never where no block begins there.
    /// [TileLink 1.8: permission transitions]
    #[inline(always)]
    pub fn has_trunk(&self, block: u64) -> bool
        ensures stands { (exponent : ℕ) (before : List Message) → StandsFor exponent self.now before → Decides result (bound_of exponent before block ≡ Trunk) }
        ensures shown { Decides result ((shown self.now).past.bound block ≡ Trunk) }
    {
        self.bounds.has_trunk(block)
    }

    /// Whether a Probe of the block that begins at this address awaits its ProbeAck; never where no block begins there.
    /// [TileLink 1.8: Probe]
    #[inline(always)]
    pub fn probe_open(&self, block: u64) -> bool
        ensures stands { (exponent : ℕ) (before : List Message) → StandsFor exponent self.now before → result ≡ is_some ((client_past exponent before).probe block) }
        ensures shown { result ≡ is_some ((shown self.now).past.probe block) }
    {
        self.probes.get(block).is_some()
    }

    /// Whether a Grant of the block that begins at this address awaits its GrantAck; never where no block begins there.
    /// [TileLink 1.8: Grant and GrantAck]
    #[inline(always)]
    pub fn grant_open(&self, block: u64) -> bool
        ensures stands { (exponent : ℕ) (before : List Message) → StandsFor exponent self.now before → result ≡ nat_lt 0 ((client_past exponent before).grants block) }
        ensures shown { result ≡ nat_lt 0 ((shown self.now).past.grants block) }
    {
        self.grants.is_open(block)
    }

    /// Whether a head with this message claims that the client held more than it can, or on a strict link less.
    #[inline(always)]
    fn claims_wrongly(&self, strict: bool, op: Op, head: &Beat) -> bool
        ensures { result ≡ claims_wrongly strict self.now.exponent (shown self.now).past (head_with head.now None op) }
    {
        let bound = self.bounds.get(block_of(self.exponent, head.address));
        match from_of(op, head.param) {
            Some(from) => is_wrong(strict, bound, from),
            None => false,
        }
    }

    /// Whether it keeps more than the cap of the open Probe.
    #[inline(always)]
    fn keeps_above(&self, op: Op, head: &Beat) -> bool
        ensures { result ≡ keeps_above self.now.exponent (shown self.now).past (head_with head.now None op) }
    {
        let cap = self.probes.get(block_of(self.exponent, head.address));
        match (to_of(op, head.param), cap) {
            (Some(to), Some(Some(cap))) => is_above(to, cap),
            _ => false,
        }
    }

    /// Whether a head with this message breaks the rule, on a strict link or another.
    fn breaks(&self, strict: bool, op: Op, head: &Beat, rule: Rule) -> bool
        ensures { result ≡ breaks_permission strict self.now.exponent (shown self.now).past (head_with head.now None op) rule }
    {
        let block = block_of(self.exponent, head.address);
        let shrinks = is_probe_ack(op) || is_release(op);
        match rule {
            Rule::P1 => is_acquire(op) && self.claims_wrongly(strict, op, head),
            Rule::P2 => shrinks && self.claims_wrongly(strict, op, head),
            Rule::P3 => is_probe_ack(op) && self.probes.get(block).is_none(),
            Rule::P4 => is_probe_ack(op) && self.keeps_above(op, head),
            Rule::P5 => is_probe(op) && self.probes.get(block).is_some(),
            Rule::P6 => is_acquire(op) && self.acquires.is_open(block),
            Rule::P7 => is_release(op) && self.acquires.is_open(block),
            Rule::P8 => (is_acquire(op) || shrinks) && self.releases.is_open(block),
            _ => false,
        }
    }

    /// The rules that it breaks, in the order of reports.
    fn broken_rules(&self, alloc: Global, strict: bool, op: Op, head: &Beat) -> RuleList
        ensures { result ≡ filter (breaks_permission strict self.now.exponent (shown self.now).past (head_with head.now None op)) permission_order }
    {
        let mut rules = RuleList::new(alloc);
        rules.push_if(self.breaks(strict, op, head, Rule::P1), Rule::P1);
        rules.push_if(self.breaks(strict, op, head, Rule::P2), Rule::P2);
        rules.push_if(self.breaks(strict, op, head, Rule::P3), Rule::P3);
        rules.push_if(self.breaks(strict, op, head, Rule::P4), Rule::P4);
        rules.push_if(self.breaks(strict, op, head, Rule::P5), Rule::P5);
        rules.push_if(self.breaks(strict, op, head, Rule::P6), Rule::P6);
        rules.push_if(self.breaks(strict, op, head, Rule::P7), Rule::P7);
        rules.push_if(self.breaks(strict, op, head, Rule::P8), Rule::P8);
        rules
    }

    /// Whether a head with this message is seen to break no permission rule; false says nothing.
    #[inline(always)]
    pub fn keeps_permissions(&self, strict: bool, op: Op, head: &Beat) -> bool
        ensures { result ≡ true → filter (breaks_permission strict self.now.exponent (shown self.now).past (head_with head.now None op)) permission_order ≡ [] }
    {
        let block = block_of(self.exponent, head.address);
        match op {
            Op::AcquireBlock | Op::AcquirePerm => {
                !self.claims_wrongly(strict, op, head)
                    && !self.acquires.is_open(block)
                    && !self.releases.is_open(block)
            }
            Op::ProbeBlock | Op::ProbePerm => self.probes.get(block).is_none(),
            Op::ProbeAck | Op::ProbeAckData => {
                self.probes.get(block).is_some()
                    && !self.claims_wrongly(strict, op, head)
                    && !self.keeps_above(op, head)
                    && !self.releases.is_open(block)
            }
            Op::Release | Op::ReleaseData => {
                !self.claims_wrongly(strict, op, head)
                    && !self.acquires.is_open(block)
                    && !self.releases.is_open(block)
            }
            _ => true,
        }
    }

    /// The state with a head of this message, which answers this request. AllocError where memory is refused: then nothing has changed.
    #[tactic(auto, using(crate::proofs::Carried::carried, crate::proofs::ClientLaws::seen))]
    #[inline(always)]
    pub fn pass(
        &mut self,
        link: &LinkDecl,
        op: Op,
        head: &Beat,
        request: Option<Request>,
    ) -> Result<(), AllocError>
        requires { message_of link.now head.now ≡ Some op }
        ensures next { OnOk result (shown self.new ≡ view_with (shown self.old) head.now request (message_of link.now head.now)) }
        ensures err { OnErr result (shown self.new ≡ shown self.old) }
    {
        self.change(op, head, request)
    }

    /// A state that shows the same. AllocError where memory is refused.
    #[tactic(auto, using(crate::proofs::SameLaws::same_parts))]
    pub fn copy(&self) -> Result<ClientState, AllocError>
        ensures { IfOk result (λ copy. SameClient self.now copy) }
    {
        Ok(ClientState {
            exponent: self.exponent,
            probes: self.probes.copy()?,
            bounds: self.bounds.copy()?,
            acquires: self.acquires.copy()?,
            releases: self.releases.copy()?,
            grants: self.grants.copy()?,
        })
    }

    /// Settles what the client can hold, so that copies of the state share it, and cost what is open and what is set from then
    /// on. What the state shows stays the same, at want of memory too.
    pub fn settle(&mut self) -> Result<(), AllocError>
        ensures shown { shown self.new ≡ shown self.old }
        ensures settled { OnOk result (IsSettled self.new.bounds) }
    {
        self.bounds.settle()
    }

    /// The permission rules that the next head of the link breaks, by what is open and what the client can hold before it; then
    /// what it opens, closes and sets. The request is the one that the head answers, as the flow rules find it. A head whose
    /// opcode is no message breaks none and changes nothing; one whose param is not lawful claims nothing, and opens and
    /// closes. A later beat is no message: the state is not stepped by it. AllocError where memory is refused: then nothing
    /// has changed. [TileLink 1.8: permission transitions; own profile, after the concurrency rules]
    #[tactic(auto, using(crate::proofs::ClientLaws::standing_rules, crate::proofs::ClientLaws::shown_rules, crate::proofs::ClientLaws::few_rules))]
    pub fn step(
        &mut self,
        alloc: Global,
        link: &LinkDecl,
        head: &Beat,
        request: Option<&Request>,
    ) -> Result<RuleList, AllocError>
        // Where the state stands for the messages of the link so far, the rules are the definition's, and the state then
        // stands for them and this head.
        ensures rules { (exponent : ℕ) (before : List Message) → StandsFor exponent self.old before
            → IfOk result (λ rules. rules ≡ permission_rules link.now.strict exponent before head.now (message_of link.now head.now)) }
        ensures stands { AfterMessages self.old link.now head.now (option_copied request.entry)
            (λ exponent before. OnOk result (StandsFor exponent self.new (messages_with_head before link.now head.now))) }
        // Whatever past the state shows, the head is judged by that.
        ensures shown { (exponent : ℕ) (past : LinkPast) → Shows exponent self.old past
            → IfOk result (λ rules. rules ≡ rules_in link.now.strict exponent past head.now (message_of link.now head.now)) }
        ensures next { ForShown self.old link.now head.now (option_copied request.entry)
            (λ exponent past. OnOk result (Shows exponent self.new (past_with_head exponent past link.now head.now))) }
        // Of eight rules there can be no more.
        ensures few { IfOk result (λ rules. length rules ≤ 8) }
        ensures err { OnErr result (shown self.new ≡ shown self.old) }
    {
        self.advance(alloc, link, head, request.copied())
    }

    /// The same on what the state shows.
    fn advance(
        &mut self,
        alloc: Global,
        link: &LinkDecl,
        head: &Beat,
        request: Option<Request>,
    ) -> Result<RuleList, AllocError>
        ensures rules { IfOk result (λ rules. rules ≡ view_rules link.now.strict (shown self.old) head.now (message_of link.now head.now)) }
        ensures next { OnOk result (shown self.new ≡ view_with (shown self.old) head.now request (message_of link.now head.now)) }
        ensures err { OnErr result (shown self.new ≡ shown self.old) }
    {
        let Some(op) = op_of(link.level, head.chan, head.opcode) else {
            return Ok(RuleList::new(alloc));
        };
        let rules = self.broken_rules(alloc, link.strict, op, head);
        self.pass(link, op, head, request)?;
        Ok(rules)
    }

    /// Opens and closes what a head with this message does, and sets the bound that it sets. At want of memory nothing has
    /// changed.
    #[inline(always)]
    fn change(&mut self, op: Op, head: &Beat, request: Option<Request>) -> Result<(), AllocError>
        requires { can_carry head.now.chan op ≡ true }
        ensures ok { OnOk result (IsView self.new (view_after (shown self.old) (head_with head.now request op))) }
        ensures err { OnErr result (IsView self.new (shown self.old)) }
    {
        let Some((block, set)) = claim(self.exponent, op, head, request) else {
            return self.open_and_close(op, head, request);
        };
        if self.bounds.is_settled(block, set) {
            self.open_and_close(op, head, request)?;
            self.bounds.forget(block);
            return Ok(());
        }
        let before = self.bounds.set(block, set)?;
        let done = self.open_and_close(op, head, request);
        if done.is_err() {
            self.bounds.put_back(block, before);
        }
        done
    }

    /// Opens and closes what a head with this message does. Each opens at most one, so that at want of memory nothing has
    /// changed.
    #[inline(always)]
    fn open_and_close(
        &mut self,
        op: Op,
        head: &Beat,
        request: Option<Request>,
    ) -> Result<(), AllocError>
        requires { can_carry head.now.chan op ≡ true }
        ensures exponent { self.new.exponent ≡ self.old.exponent }
        ensures bounds { self.new.bounds ≡ self.old.bounds }
        ensures ok { OnOk result (IsOpened self.new (view_after (shown self.old) (head_with head.now request op))) }
        ensures err { OnErr result (IsOpened self.new (shown self.old)) }
    {
        match head.chan {
            Chan::A => match acquired_block(self.exponent, op, head.address) {
                Some(block) => self.acquires.open(head.source, Some(block))?,
                None => self.acquires.close(head.source),
            },
            Chan::B if is_probe(op) => {
                let block = block_of(self.exponent, head.address);
                self.probes.set(block, Some(cap_of(op, head.param)))?;
            }
            Chan::C if is_probe_ack(op) => {
                let block = block_of(self.exponent, head.address);
                self.probes.take(block);
            }
            Chan::C if is_release(op) => {
                let block = block_of(self.exponent, head.address);
                self.releases.open(head.source, Some(block))?;
            }
            Chan::D if is_release_ack(op) => {
                self.releases.close(head.source);
            }
            Chan::D => {
                if is_grant(op) {
                    let block = granted_block(self.exponent, request);
                    self.grants.open(head.sink, block)?;
                }
                self.acquires.close(head.source);
            }
            Chan::E => {
                self.grants.close(head.sink);
            }
            _ => {}
        }
        Ok(())
    }
}

impl Same for ClientState {
    ghost same = { SameClient };

    #[tactic(auto, using(crate::proofs::SameLaws::same_parts, crate::proofs::SameLaws::parts_of_same))]
    fn is_same(&self, other: &Self) -> bool {
        if self.exponent != other.exponent || !self.probes.is_same(&other.probes) {
            return false;
        }
        if !self.bounds.same_bounds(&other.bounds) || !self.acquires.same_blocks(&other.acquires) {
            return false;
        }
        self.releases.same_blocks(&other.releases) && self.grants.same_blocks(&other.grants)
    }
}
