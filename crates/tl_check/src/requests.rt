//! The requests in flight on a link below the level of caches.

ghost use Rattle.std.specs.Prelude.{◌≡◌, ◌==◌, ◌<◌, ℕ, None, Some, true, false, not, filter, if◌then◌else◌, vec_len, IfOk, OnOk};
ghost use Rattle.std.specs.Option.{option_map_or};
ghost use Rattle.tl_tables.specs.Messages.{level_le, replies_to};
ghost use Rattle.tl_tables.specs.declared.Level.TheVariants as level;
ghost use Rattle.tl_definitions.specs.Heads.{message_of};
ghost use Rattle.tl_definitions.specs.Judging.{message_in, flow_after};
ghost use Rattle.tl_definitions.specs.Past.{FlowPast};
ghost use Rattle.tl_link_rules.specs.Flow.{rules_in, flow_with};
ghost use Rattle.tl_check.specs.Requests.{is_plain, breaks_open, open_order};

use std::alloc::{AllocError, Global};
use tl_beats::{Beat, Request};
use tl_link_rules::RuleList;
use tl_tables::{Chan, Op, Rule, op_of, replies};
use tl_topology::LinkDecl;

/// The requests in flight, each at the place of its source. There are as many places as the highest source so far asks.
#[derive(Drop)]
pub struct Requests {
    slots: Vec<Option<Request>>,
}

impl Requests {
    ghost use Rattle.tl_check.specs.Requests.{request_at, Has};

    /// No request is in flight.
    pub fn new(alloc: Global) -> Requests
        ensures { (source : ℕ) → request_at result source ≡ None }
    {
        Requests {
            slots: Vec::new(alloc),
        }
    }

    /// The request in flight on a source.
    pub fn get(&self, source: u16) -> Option<Request>
        ensures { result ≡ request_at self.now source }
    {
        let place = usize::from(source);
        if place < self.slots.len() {
            self.slots[place]
        } else {
            None
        }
    }

    /// Makes a place for a source, where it has none. AllocError where memory is refused.
    fn make_room(&mut self, source: u16) -> Result<(), AllocError>
        ensures room { OnOk result (source < vec_len self.new.slots) }
        ensures same { OnOk result ((key : ℕ) → request_at self.new key ≡ request_at self.old key) }
    {
        let place = usize::from(source);
        if place < self.slots.len() {
            return Ok(());
        }
        self.slots.resize(place + 1, None)?;
        Ok(())
    }

    /// Opens a source for a request, in the place of the one that was in flight there. AllocError where memory is refused.
    fn open(&mut self, request: Request) -> Result<(), AllocError>
        ensures { OnOk result ((key : ℕ) → request_at self.new key ≡ (if request.source == key then Some request else request_at self.old key)) }
    {
        self.make_room(request.source)?;
        self.slots[usize::from(request.source)] = Some(request);
        Ok(())
    }

    /// Closes a source.
    fn close(&mut self, source: u16)
        ensures { (key : ℕ) → request_at self.new key ≡ (if source == key then None else request_at self.old key) }
    {
        let place = usize::from(source);
        if place < self.slots.len() {
            self.slots[place] = None;
        }
    }

    /// The flow rules that the next head of a link below the level of caches breaks, by what is in flight before it; then what it opens
    /// and closes. A head whose opcode is no message breaks none and changes nothing. AllocError where memory is refused: then what is
    /// in flight may have part of the head.
    pub fn step(
        &mut self,
        alloc: Global,
        link: &LinkDecl,
        head: &Beat,
    ) -> Result<RuleList, AllocError>
        requires { level_le level.C link.now.level ≡ false }
        ensures rules { (past : FlowPast) → Has self.old past → IfOk result (λ rules. rules ≡ rules_in past head.now (message_of link.now head.now)) }
        ensures next { (past : FlowPast) → Has self.old past → OnOk result (Has self.new (flow_with past head.now (message_of link.now head.now))) }
    {
        let Some(op) = op_of(link.level, head.chan, head.opcode) else {
            return Ok(RuleList::new(alloc));
        };
        let request = self.get(head.source);
        let rules = broken_rules(alloc, op, head, &request);
        self.change(op, head)?;
        Ok(rules)
    }

    /// Opens or closes the source of a head with this message.
    pub fn change(&mut self, op: Op, head: &Beat) -> Result<(), AllocError>
        requires { is_plain op ≡ true }
        ensures { (past : FlowPast) → Has self.old past → OnOk result (Has self.new (flow_after past (message_in past head.now op))) }
    {
        match head.chan {
            Chan::A => self.open(request_from(op, head)),
            Chan::D => {
                self.close(head.source);
                Ok(())
            }
            _ => Ok(()),
        }
    }
}

/// What is kept of a head that asks for a reply.
fn request_from(op: Op, head: &Beat) -> Request
    ensures { result ≡ record { op = op; param = head.now.param; size = head.now.size; source = head.now.source; address = head.now.address } }
{
    Request {
        op,
        param: head.param,
        size: head.size,
        source: head.source,
        address: head.address,
    }
}

/// Whether a head with this message breaks the rule, by the request that is in flight on its source.
fn breaks(op: Op, head: &Beat, request: &Option<Request>, rule: Rule) -> bool
    ensures { result ≡ breaks_open request.now op head.now rule }
{
    match rule {
        Rule::S1 => head.chan == Chan::A && request.is_some(),
        Rule::S2 => head.chan == Chan::D && request.is_none(),
        Rule::S3 => head.chan == Chan::D && is_unlike(request, op),
        Rule::S4 => head.chan == Chan::D && has_other_size(request, head),
        _ => false,
    }
}

/// The rules that it breaks, in the order of reports.
fn broken_rules(alloc: Global, op: Op, head: &Beat, request: &Option<Request>) -> RuleList
    ensures { result ≡ filter (breaks_open request.now op head.now) open_order }
{
    let mut rules = RuleList::new(alloc);
    rules.push_if(breaks(op, head, request, Rule::S1), Rule::S1);
    rules.push_if(breaks(op, head, request, Rule::S2), Rule::S2);
    rules.push_if(breaks(op, head, request, Rule::S3), Rule::S3);
    rules.push_if(breaks(op, head, request, Rule::S4), Rule::S4);
    rules
}

/// Whether the message is no reply to the request.
fn is_unlike(request: &Option<Request>, op: Op) -> bool
    ensures { result ≡ option_map_or (λ request. not (replies_to request.op op)) request.now false }
{
    match request {
        Some(request) => !replies(request.op, op),
        None => false,
    }
}

/// Whether the request has another size than the head.
fn has_other_size(request: &Option<Request>, head: &Beat) -> bool
    ensures { result ≡ option_map_or (λ request. not (request.size == head.now.size)) request.now false }
{
    match request {
        Some(request) => request.size != head.size,
        None => false,
    }
}
