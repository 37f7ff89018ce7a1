//! What the messages of one link leave that a reason can name.

ghost use Rattle.std.specs.Prelude.{◌≡◌, ℕ, List, [], ◌∷◌, true, OnOk};
ghost use Rattle.std.specs.BTreeMap.{IsOrdered};
ghost use Rattle.std.specs.Ordering.{nat_cmp};
ghost use Rattle.tl_definitions.specs.Messages.{sources, releases, sinks, probes};
ghost use Rattle.tl_client_rules.specs.Client.{can_carry};
ghost use Rattle.tl_rows.specs.Counts.{IsCount};
ghost use Rattle.tl_rows.specs.Origins.{message, origin_at};
ghost use Rattle.tl_rows.specs.Openers.{first_in, shown};
ghost use Rattle.tl_rows.specs.Reasons.{acquires, gives_back, grants, link_reason};

use crate::origin::Origin;
use crate::reason::Reason;
use std::alloc::{AllocError, Global};
use std::collections::BTreeMap;
use tl_beats::{Beat, Placed, Request};
use tl_client_rules::{block_of, claim, granted_block};
use tl_tables::{
    Chan, Op, Perm, Rule, is_acquire, is_grant, is_probe, is_probe_ack, is_release, is_release_ack,
};

/// The openers that are open on one link, and the last messages that set a bound of its client.
#[derive(Drop)]
pub(crate) struct Openers {
    /// The requests of channel A, by source.
    sources: BTreeMap<u16, Origin>,
    /// The Releases, by source.
    releases: BTreeMap<u16, Origin>,
    /// The Grants, by sink.
    sinks: BTreeMap<u16, Origin>,
    /// The Probes, by block.
    probes: BTreeMap<u64, Origin>,
    /// What set a bound, by block.
    setters: BTreeMap<u64, Origin>,
}

impl Openers {
    ghost use Rattle.tl_rows.specs.declared.origin.Origin.{Origin as AnyOrigin};
    ghost use Rattle.tl_rows.specs.Reasons.{answered, bound_by};
    ghost use Rattle.tl_rows.specs.Openers.{StandsFor, AreOrdered, source_at, release_at, sink_at, probe_at, setter_at, opened_after, setter_after};

    /// Those of a link without messages.
    pub(crate) fn new(alloc: Global) -> Openers
        ensures { (exponent : ℕ) → StandsFor exponent result [] }
    {
        Openers {
            sources: BTreeMap::new(alloc),
            releases: BTreeMap::new(alloc),
            sinks: BTreeMap::new(alloc),
            probes: BTreeMap::new(alloc),
            setters: BTreeMap::new(alloc),
        }
    }

    /// The request that is open on a source.
    pub(crate) fn source(&self, source: u16) -> Option<Origin>
        ensures { result ≡ source_at self.now source }
    {
        self.sources.get(&source).copied()
    }

    /// The Release that is open on a source.
    pub(crate) fn release(&self, source: u16) -> Option<Origin>
        ensures { result ≡ release_at self.now source }
    {
        self.releases.get(&source).copied()
    }

    /// The Grant that is open on a sink.
    pub(crate) fn sink(&self, sink: u16) -> Option<Origin>
        ensures { result ≡ sink_at self.now sink }
    {
        self.sinks.get(&sink).copied()
    }

    /// The Probe that is open on a block.
    pub(crate) fn probe(&self, block: u64) -> Option<Origin>
        ensures { result ≡ probe_at self.now block }
    {
        self.probes.get(&block).copied()
    }

    /// The last message that set the bound of a block.
    pub(crate) fn setter(&self, block: u64) -> Option<Origin>
        ensures { result ≡ setter_at self.now block }
    {
        self.setters.get(&block).copied()
    }

    /// The bound of a block.
    pub(crate) fn bound(&self, exponent: u8, block: u64) -> Perm
        ensures { result ≡ bound_by exponent (setter_at self.now block) }
    {
        let Some(origin) = self.setter(block) else {
            return Perm::Nothing;
        };
        match claim(exponent, origin.op, &origin.place.beat, origin.request) {
            Some((_, set)) => set,
            None => Perm::Nothing,
        }
    }

    /// The Acquire of a block that is open on the least source.
    pub(crate) fn acquire(&self, exponent: u8, block: u64) -> Option<Origin>
        ensures { result ≡ first_in self.now.sources (acquires exponent block) }
    {
        for origin in self.sources.values() {
            if is_acquire(origin.op) && block_of(exponent, origin.place.beat.address) == block {
                return Some(*origin);
            }
        }
        None
    }

    /// The Release of a block that is open on the least source.
    pub(crate) fn giving(&self, exponent: u8, block: u64) -> Option<Origin>
        ensures { result ≡ first_in self.now.releases (gives_back exponent block) }
    {
        for origin in self.releases.values() {
            if block_of(exponent, origin.place.beat.address) == block {
                return Some(*origin);
            }
        }
        None
    }

    /// The Grant of a block that is open on the least sink.
    pub(crate) fn grant(&self, exponent: u8, block: u64) -> Option<Origin>
        ensures { result ≡ first_in self.now.sinks (grants exponent block) }
    {
        for origin in self.sinks.values() {
            if is_granted(exponent, origin.request, block) {
                return Some(*origin);
            }
        }
        None
    }

    /// How many requests are open.
    pub(crate) fn request_count(&self) -> usize
        ensures { (exponent : ℕ) (before : List AnyOrigin) → StandsFor exponent self.now before → IsCount sources before result }
    {
        self.sources.len()
    }

    /// How many Releases are open.
    pub(crate) fn release_count(&self) -> usize
        ensures { (exponent : ℕ) (before : List AnyOrigin) → StandsFor exponent self.now before → IsCount releases before result }
    {
        self.releases.len()
    }

    /// How many Probes are open.
    pub(crate) fn probe_count(&self) -> usize
        ensures { (exponent : ℕ) (before : List AnyOrigin) → StandsFor exponent self.now before → IsCount (probes exponent) before result }
    {
        self.probes.len()
    }

    /// How many Grants are open.
    pub(crate) fn grant_count(&self) -> usize
        ensures { (exponent : ℕ) (before : List AnyOrigin) → StandsFor exponent self.now before → IsCount sinks before result }
    {
        self.sinks.len()
    }

    /// The request that a head with this message answers.
    pub(crate) fn request_of(&self, op: Op, head: &Beat) -> Option<Request>
        ensures { result ≡ answered (source_at self.now) (release_at self.now) op head.now }
    {
        if head.chan != Chan::D {
            return None;
        }
        let request = if is_release_ack(op) {
            self.release(head.source)?
        } else {
            self.source(head.source)?
        };
        Some(request.kept_request())
    }

    /// What makes a head of the link break a rule of its own link.
    pub(crate) fn reason(&self, exponent: u8, head: &Beat, rule: Rule) -> Reason
        ensures { result ≡ link_reason exponent (shown exponent self.now) head.now rule }
    {
        let block = block_of(exponent, head.address);
        match rule {
            Rule::S1 | Rule::S2 | Rule::S3 | Rule::S4 => {
                Reason::of_request(self.source(head.source))
            }
            Rule::S5 | Rule::S6 | Rule::S7 => Reason::of_release(self.release(head.source)),
            Rule::S8 | Rule::S9 => Reason::of_grant(self.sink(head.sink)),
            Rule::P1 | Rule::P2 => Reason::of_setter(self.setter(block)),
            Rule::P3 | Rule::P4 | Rule::P5 => Reason::of_probe(self.probe(block)),
            Rule::P6 | Rule::P7 => Reason::of_request(self.acquire(exponent, block)),
            Rule::P8 => Reason::of_release(self.giving(exponent, block)),
            _ => Reason::ByItself,
        }
    }

    /// What the next message of the link leaves. AllocError where memory is refused: then it may have part of the message.
    pub(crate) fn take(&mut self, exponent: u8, op: Op, place: &Placed) -> Result<(), AllocError>
        requires { can_carry place.now.beat.chan op ≡ true }
        ensures { (before : List AnyOrigin) → StandsFor exponent self.old before → OnOk result (StandsFor exponent self.new (origin_at before place.now op ∷ before)) }
    {
        let request = self.request_of(op, &place.beat);
        let origin = Origin {
            place: *place,
            op,
            request,
        };
        self.set_bound(exponent, origin)?;
        self.open_and_close(exponent, origin)
    }

    /// Keeps it where it sets a bound.
    fn set_bound(&mut self, exponent: u8, origin: Origin) -> Result<(), AllocError>
        ensures setter { OnOk result ((block : ℕ) → setter_at self.new block ≡ setter_after exponent origin (setter_at self.old) block) }
        ensures source { (key : ℕ) → source_at self.new key ≡ source_at self.old key }
        ensures release { (key : ℕ) → release_at self.new key ≡ release_at self.old key }
        ensures sink { (key : ℕ) → sink_at self.new key ≡ sink_at self.old key }
        ensures probe { (key : ℕ) → probe_at self.new key ≡ probe_at self.old key }
        ensures ordered { AreOrdered self.old → AreOrdered self.new }
    {
        let set = claim(exponent, origin.op, &origin.place.beat, origin.request);
        if let Some((block, _)) = set {
            self.setters.insert(block, origin)?;
        }
        Ok(())
    }

    /// Opens and closes what it does.
    fn open_and_close(&mut self, exponent: u8, origin: Origin) -> Result<(), AllocError>
        requires { can_carry origin.place.beat.chan origin.op ≡ true }
        ensures setter { (block : ℕ) → setter_at self.new block ≡ setter_at self.old block }
        ensures source { OnOk result ((key : ℕ) → source_at self.new key ≡ opened_after sources origin (source_at self.old) key) }
        ensures release { OnOk result ((key : ℕ) → release_at self.new key ≡ opened_after releases origin (release_at self.old) key) }
        ensures sink { OnOk result ((key : ℕ) → sink_at self.new key ≡ opened_after sinks origin (sink_at self.old) key) }
        ensures probe { OnOk result ((key : ℕ) → probe_at self.new key ≡ opened_after (probes exponent) origin (probe_at self.old) key) }
        ensures ordered { AreOrdered self.old → OnOk result (AreOrdered self.new) }
    {
        let head = &origin.place.beat;
        match head.chan {
            Chan::A => {
                self.sources.insert(head.source, origin)?;
            }
            Chan::B if is_probe(origin.op) => {
                self.probes
                    .insert(block_of(exponent, head.address), origin)?;
            }
            Chan::C if is_probe_ack(origin.op) => {
                self.probes.remove(&block_of(exponent, head.address));
            }
            Chan::C if is_release(origin.op) => {
                self.releases.insert(head.source, origin)?;
            }
            Chan::D if is_release_ack(origin.op) => {
                self.releases.remove(&head.source);
            }
            Chan::D => {
                if is_grant(origin.op) {
                    self.sinks.insert(head.sink, origin)?;
                }
                self.sources.remove(&head.source);
            }
            Chan::E => {
                self.sinks.remove(&head.sink);
            }
            _ => {}
        }
        Ok(())
    }
}

ghost use Rattle.std.specs.Option.{option_and_then};
ghost use Rattle.tl_definitions.specs.Past.{grants_block};
ghost use Rattle.tl_client_rules.specs.Client.{acquired_block};

/// Whether the block of a Grant that answers this request is known to be this.
fn is_granted(exponent: u8, request: Option<Request>, block: u64) -> bool
    ensures { result ≡ grants_block block (option_and_then (acquired_block exponent) request) }
{
    match granted_block(exponent, request) {
        Some(granted) => granted == block,
        None => false,
    }
}
