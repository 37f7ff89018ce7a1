//! What is known of the past of one link.

ghost use Rattle.std.specs.Prelude.{◌≡◌, true, is_some, is_none, OnOk};
ghost use Rattle.tl_tables.specs.Kinds.{conflicts};
ghost use Rattle.tl_definitions.specs.Heads.{message_of};
ghost use Rattle.tl_definitions.specs.Known.{unknown, known, surely, bare, cap_given, first_past, known_request, bound_after, known_with};
ghost use Rattle.tl_definitions.specs.Printed.{every_bound, grant_open};
ghost use Rattle.tl_definitions.specs.Messages.{round_down};
ghost use Rattle.tl_client_rules.specs.Client.{can_carry};
ghost use Rattle.tl_midway.specs.Known.{known_of, opened};
ghost use Rattle.tl_midway.specs.KnownTable.{IsSet};
ghost use Rattle.tl_midway.specs.CountedTable.{HasBlock, IsCounted, IsSetTo};
ghost use Rattle.tl_midway.specs.KnownBounds.{may_be, AreBounds};
ghost use Rattle.tl_midway.specs.KnownLink.{first_entry, granted_made};

use crate::counted::CountedTable;
use crate::known::{Known, closed, opened, shut, surely_closed, surely_open};
use crate::known_bounds::KnownBounds;
use crate::table::{KnownBlocks, KnownTable};
use std::alloc::{AllocError, Global};
use tl_beats::{Beat, Request};
use tl_client_rules::{acquired_block, block_of, claim, conflicts, granted_block};
use tl_link_rules::request_from;
use tl_tables::{
    Chan, Op, Perm, cap_of, is_grant, is_probe, is_probe_ack, is_release, is_release_ack, op_of,
};
use tl_topology::LinkDecl;

/// What is known of the messages of one link so far, where nobody recorded the first of them.
#[derive(Drop)]
pub struct KnownLink {
    /// A block has 2 to this power bytes.
    exponent: u8,
    /// How many sources the link has.
    sources: u32,
    /// The requests of channel A, by source: counted are the Acquires.
    requests: CountedTable<Request>,
    /// The Releases, by source: these are other sources than those of channel A.
    releases: CountedTable<Request>,
    /// Whether a Grant awaits its GrantAck, by sink.
    sinks: KnownTable<bool>,
    /// The blocks of the Grants without their GrantAck, by sink; None where a Grant answers no Acquire.
    granted: CountedTable<Option<u64>>,
    /// The caps of the Probes without their ProbeAck, by block; None where the param named no cap.
    probes: KnownBlocks<Option<Option<Perm>>>,
    bounds: KnownBounds,
}

/// What is known at first of a source: one that the link doesn't have has nothing open.
fn first_entry(sources: u32, source: u16) -> Known<Option<Request>>
    ensures { known_of result ≡ first_entry sources source }
{
    if u32::from(source) < sources {
        Known::Unknown
    } else {
        Known::Sure(None)
    }
}

/// What is known of the block of a Grant that is open, from what is known of the request that it answers.
fn known_block(exponent: u8, request: Known<Option<Request>>) -> Known<Option<Option<u64>>>
    ensures { known_of result ≡ granted_made exponent (known_of request) }
{
    match request {
        Known::Sure(request) => Known::Sure(Some(granted_block(exponent, request))),
        Known::Unknown => Known::Unknown,
    }
}

/// The block that is known, if there is one.
fn block_in(made: Known<Option<Option<u64>>>) -> Option<u64>
    ensures { HasBlock (λ block. block) result (known_of made) }
{
    match made {
        Known::Sure(Some(block)) => block,
        Known::Sure(None) | Known::Unknown => None,
    }
}

/// Opens the sink of a Grant. A block has 2 to the exponent bytes.
fn open_grant(
    sinks: &mut KnownTable<bool>,
    granted: &mut CountedTable<Option<u64>>,
    exponent: u8,
    certain: bool,
    sink: u16,
    request: Known<Option<Request>>,
) -> Result<(), AllocError>
    ensures sinks { OnOk result (IsSet sinks.old sinks.new sink (opened certain (known true))) }
    ensures granted { OnOk result (IsSetTo granted.old granted.new sink (opened certain (granted_made exponent (known_of request)))) }
    ensures counted { OnOk result (IsCounted (λ block. block) (λ key. unknown) granted.old → IsCounted (λ block. block) (λ key. unknown) granted.new) }
{
    sinks.set(sink, opened(certain, Known::Sure(true)))?;
    let made = known_block(exponent, request);
    granted.open(certain, sink, made, block_in(made))?;
    Ok(())
}

/// The permission that a Grant gives on the block of its request, if it gives one.
fn cap_given(op: Op, head: &Beat) -> Option<Perm>
    ensures { result ≡ cap_given (bare op head.now) }
{
    if head.denied {
        None
    } else {
        cap_of(op, head.param)
    }
}

impl KnownLink {
    ghost use Rattle.tl_midway.specs.KnownLink.{Shows, ForShown, ForStanding, shown, has_open_acquire, has_open_release, has_open_grant, known_after, known_next, IsOpened, IsPast, AreCounted};

    /// What is known of a link at first, of a manager whose blocks have 2 to the exponent bytes.
    pub fn new(alloc: Global, exponent: u8, link: &LinkDecl) -> KnownLink
        ensures { Shows exponent result (first_past link.now) }
    {
        KnownLink {
            exponent,
            sources: link.sources,
            requests: CountedTable::new(alloc),
            releases: CountedTable::new(alloc),
            sinks: KnownTable::new(alloc),
            granted: CountedTable::new(alloc),
            probes: KnownBlocks::new(alloc),
            bounds: KnownBounds::new(alloc),
        }
    }

    /// The address of the block that an address lies in.
    pub(crate) fn block(&self, address: u64) -> u64
        ensures { result ≡ round_down self.now.exponent address }
    {
        block_of(self.exponent, address)
    }

    /// The request in flight on a source of channel A.
    pub(crate) fn source(&self, source: u16) -> Known<Option<Request>>
        ensures { known_of result ≡ (shown self.now).flow.source source }
    {
        self.requests.get(source, first_entry(self.sources, source))
    }

    /// The Release in flight on a source of channel C.
    pub(crate) fn release(&self, source: u16) -> Known<Option<Request>>
        ensures { known_of result ≡ (shown self.now).flow.release source }
    {
        self.releases.get(source, first_entry(self.sources, source))
    }

    /// Whether a Grant is open on a sink.
    pub(crate) fn sink(&self, sink: u16) -> Known<bool>
        ensures { known_of result ≡ (shown self.now).flow.sink sink }
    {
        self.sinks.get(sink, Known::Unknown)
    }

    /// The cap of the Probe that is open on a block, if its param is lawful.
    pub(crate) fn probe(&self, block: u64) -> Known<Option<Option<Perm>>>
        ensures { known_of result ≡ (shown self.now).client.probe block }
    {
        self.probes.get(block, Known::Unknown)
    }

    /// The request that a head with this message answers.
    pub fn request(&self, op: Op, head: &Beat) -> Known<Option<Request>>
        ensures { known_of result ≡ known_request (shown self.now).flow (bare op head.now) }
    {
        if head.chan != Chan::D {
            Known::Sure(None)
        } else if is_release_ack(op) {
            self.release(head.source)
        } else {
            self.source(head.source)
        }
    }

    /// Whether the bound of the block may be this permission.
    pub fn may_be(&self, block: u64, held: Perm) -> bool
        ensures { result ≡ (shown self.now).client.bound block held }
    {
        self.bounds.may_be(block, held)
    }

    /// Whether the bound of the block conflicts with what is set on it, whatever it is of those that it may be.
    pub fn forbids(&self, block: u64, set: Perm) -> bool
        ensures { result ≡ every_bound (conflicts set) ((shown self.now).client.bound block) }
    {
        (conflicts(set, Perm::Nothing) || !self.may_be(block, Perm::Nothing))
            && (conflicts(set, Perm::Branch) || !self.may_be(block, Perm::Branch))
            && (conflicts(set, Perm::Trunk) || !self.may_be(block, Perm::Trunk))
    }

    /// Whether a Probe of the block is known to be open.
    pub fn probe_open(&self, block: u64) -> bool
        ensures { result ≡ surely is_some ((shown self.now).client.probe block) }
    {
        surely_open(self.probe(block))
    }

    /// Whether it is known that no Probe of the block is open.
    pub(crate) fn probe_closed(&self, block: u64) -> bool
        ensures { result ≡ surely is_none ((shown self.now).client.probe block) }
    {
        surely_closed(self.probe(block))
    }

    /// Whether an Acquire of the block is known to be open.
    pub(crate) fn acquire_open(&self, block: u64) -> bool
        ensures { result ≡ has_open_acquire self.now block }
    {
        self.requests.is_open(block)
    }

    /// Whether a Release of the block is known to be open.
    pub(crate) fn release_open(&self, block: u64) -> bool
        ensures { result ≡ has_open_release self.now block }
    {
        self.releases.is_open(block)
    }

    /// Whether a Grant of the block is known to be open.
    pub fn grant_open(&self, block: u64) -> bool
        ensures shown { result ≡ has_open_grant self.now block }
        ensures stands { ForStanding self.now (λ m f link. result ≡ grant_open f link block) }
    {
        self.granted.is_open(block)
    }

    /// What is known after one more beat of the link, which begins a message for certain, or may. One whose opcode is no message
    /// changes nothing. AllocError where memory is refused: the state is then for nothing more.
    #[tactic(auto, using(tl_client_rules::proofs::Carried::carried))]
    pub fn step(&mut self, certain: bool, link: &LinkDecl, head: &Beat) -> Result<(), AllocError>
        ensures { ForShown self.old (λ exponent past. OnOk result
            (Shows exponent self.new (known_with exponent certain past head.now (message_of link.now head.now)))) }
    {
        match op_of(link.level, head.chan, head.opcode) {
            Some(op) => self.change(certain, op, head),
            None => Ok(()),
        }
    }

    /// The same of a message.
    fn change(&mut self, certain: bool, op: Op, head: &Beat) -> Result<(), AllocError>
        requires { can_carry head.now.chan op ≡ true }
        ensures exponent { self.new.exponent ≡ self.old.exponent }
        ensures past { OnOk result (IsPast self.new (known_next certain self.old (bare op head.now))) }
        ensures counted { OnOk result (AreCounted self.old → AreCounted self.new) }
    {
        let request = self.request(op, head);
        self.set_bound(certain, op, head, request)?;
        self.open_and_close(certain, op, head, request)?;
        Ok(())
    }

    /// Sets the bound that a message sets. Of a Grant whose request is not known, it may be that of any block.
    fn set_bound(
        &mut self,
        certain: bool,
        op: Op,
        head: &Beat,
        request: Known<Option<Request>>,
    ) -> Result<(), AllocError>
        ensures rest { self.new ≡ record self.old { bounds = self.new.bounds } }
        ensures bound { OnOk result (AreBounds self.new.bounds
            (bound_after self.old.exponent certain (bare op head.now) (known_of request) (may_be self.old.bounds))) }
    {
        if !is_grant(op) {
            let claimed = claim(self.exponent, op, head, None);
            self.bounds.claim(certain, claimed)?;
            return Ok(());
        }
        match request {
            Known::Sure(request) => {
                let claimed = claim(self.exponent, op, head, request);
                self.bounds.claim(certain, claimed)?;
            }
            Known::Unknown => {
                self.bounds.join_all(cap_given(op, head))?;
            }
        }
        Ok(())
    }

    /// Opens and closes what a message does.
    fn open_and_close(
        &mut self,
        certain: bool,
        op: Op,
        head: &Beat,
        request: Known<Option<Request>>,
    ) -> Result<(), AllocError>
        requires { can_carry head.now.chan op ≡ true }
        ensures exponent { self.new.exponent ≡ self.old.exponent }
        ensures bounds { self.new.bounds ≡ self.old.bounds }
        ensures past { OnOk result (IsOpened self.new (known_after self.old.exponent certain (known_of request) (shown self.old) (bare op head.now))) }
        ensures counted { OnOk result (AreCounted self.old → AreCounted self.new) }
    {
        match head.chan {
            Chan::A => {
                let block = acquired_block(self.exponent, op, head.address);
                let made = Known::Sure(Some(request_from(op, head)));
                self.requests.open(certain, head.source, made, block)?;
            }
            Chan::B if is_probe(op) => {
                let block = block_of(self.exponent, head.address);
                let made = Known::Sure(Some(cap_of(op, head.param)));
                self.probes.set(block, opened(certain, made))?;
            }
            Chan::C if is_probe_ack(op) => {
                let block = block_of(self.exponent, head.address);
                let old = self.probes.get(block, Known::Unknown);
                self.probes.set(block, closed(certain, old))?;
            }
            Chan::C if is_release(op) => {
                let block = block_of(self.exponent, head.address);
                let made = Known::Sure(Some(request_from(op, head)));
                self.releases.open(certain, head.source, made, Some(block))?;
            }
            Chan::D if is_release_ack(op) => {
                let first = first_entry(self.sources, head.source);
                self.releases.close(certain, head.source, first)?;
            }
            Chan::D => {
                let first = first_entry(self.sources, head.source);
                self.requests.close(certain, head.source, first)?;
                if is_grant(op) {
                    open_grant(
                        &mut self.sinks,
                        &mut self.granted,
                        self.exponent,
                        certain,
                        head.sink,
                        request,
                    )?;
                }
            }
            Chan::E => {
                let old = self.sinks.get(head.sink, Known::Unknown);
                self.sinks.set(head.sink, shut(certain, old))?;
                self.granted.close(certain, head.sink, Known::Unknown)?;
            }
            _ => {}
        }
        Ok(())
    }
}
