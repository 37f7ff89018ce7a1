//! What a manager knows of one link from the events that it told.

ghost use Rattle.std.specs.Prelude.{◌≡◌, ℕ, nat_lt, is_some, OnOk, if◌then◌else◌};
ghost use Rattle.tl_definitions.specs.Messages.{claimed_or};
ghost use Rattle.tl_definitions.specs.Events.{is_on, shown_next};
ghost use Rattle.tl_state.specs.BlockMap.{value_at};
ghost use Rattle.tl_apart.specs.Events.{said};
ghost use Rattle.tl_apart.specs.Grants.{open_on};
ghost use Rattle.tl_apart.specs.Holder.{perm_of, bound_in, probed_in, probed_after, granted_after};

use crate::event::Event;
use crate::grants::OpenGrants;
use std::alloc::{AllocError, Global};
use tl_state::BlockMap;
use tl_tables::{Perm, is_grant, is_grant_ack, is_probe, is_probe_ack};

/// What a manager knows of one link.
#[derive(Drop)]
pub(crate) struct Holder {
    /// The number of the link.
    pub(crate) link: u16,
    /// The most that it can hold of each block, where that is something.
    bounds: BlockMap<Perm>,
    /// The blocks with an open Probe.
    probes: BlockMap<()>,
    /// The Grants that are open.
    grants: OpenGrants,
}

/// What is kept of a bound.
fn kept(bound: Perm) -> Option<Perm>
    ensures { perm_of result ≡ bound }
{
    match bound {
        Perm::Nothing => None,
        _ => Some(bound),
    }
}

/// What is kept of a Probe, open or not.
fn mark(opens: bool) -> Option<()>
    ensures { is_some result ≡ opens }
{
    if opens { Some(()) } else { None }
}

/// Sets a bound, if one is set. AllocError where memory is refused.
fn set_bound(bounds: &mut BlockMap<Perm>, sets: Option<(u64, Perm)>) -> Result<(), AllocError>
    ensures { OnOk result ((block : ℕ) → bound_in bounds.new block ≡ claimed_or sets block (bound_in bounds.old block)) }
{
    if let Some((block, bound)) = sets {
        bounds.set(block, kept(bound))?;
    }
    Ok(())
}

/// Opens a Probe of the block, or closes it; None is no block. AllocError where memory is refused.
fn set_probe(probes: &mut BlockMap<()>, block: Option<u64>, opens: bool) -> Result<(), AllocError>
    ensures { OnOk result ((other : ℕ) → probed_in probes.new other ≡ (if is_on other block then opens else probed_in probes.old other)) }
{
    if let Some(block) = block {
        probes.set(block, mark(opens))?;
    }
    Ok(())
}

/// Counts the Grants that an event opens and closes. AllocError where memory is refused.
fn count(grants: &mut OpenGrants, event: &Event) -> Result<(), AllocError>
    ensures { OnOk result ((block : ℕ) → open_on grants.new block ≡ granted_after event.now block (open_on grants.old block)) }
{
    if is_grant(event.op) {
        grants.close(event.closes);
        return grants.open(event.block);
    }
    if is_grant_ack(event.op) {
        grants.close(event.closes);
    }
    Ok(())
}

impl Holder {
    ghost use Rattle.tl_apart.specs.Holder.{shown, nothing_shown};

    /// Nothing is known of a link that it holds or has open.
    pub(crate) fn new(alloc: Global, link: u16) -> Holder
        ensures link { result.link ≡ link }
        ensures nothing { shown result ≡ nothing_shown }
    {
        Holder {
            link,
            bounds: BlockMap::new(alloc),
            probes: BlockMap::new(alloc),
            grants: OpenGrants::new(alloc),
        }
    }

    /// The most that it can hold of a block.
    pub(crate) fn bound(&self, block: u64) -> Perm
        ensures { result ≡ (shown self.now).bound block }
    {
        self.bounds.get(block).unwrap_or(Perm::Nothing)
    }

    /// Whether a Probe of the block is open.
    pub(crate) fn is_probed(&self, block: u64) -> bool
        ensures { result ≡ (shown self.now).probed block }
    {
        self.probes.get(block).is_some()
    }

    /// Whether a Grant of the block is open.
    pub(crate) fn is_granted(&self, block: u64) -> bool
        ensures { result ≡ nat_lt 0 ((shown self.now).grants block) }
    {
        self.grants.is_open(block)
    }

    /// Takes the Probe that an event opens or closes. AllocError where memory is refused.
    fn learn_probe(&mut self, event: &Event) -> Result<(), AllocError>
        ensures probes { OnOk result ((block : ℕ) → probed_in self.new.probes block
            ≡ probed_after event.now block (probed_in self.old.probes block)) }
        ensures link { self.new.link ≡ self.old.link }
        ensures bounds { self.new.bounds ≡ self.old.bounds }
        ensures grants { self.new.grants ≡ self.old.grants }
    {
        let opens = is_probe(event.op);
        if opens || is_probe_ack(event.op) {
            set_probe(&mut self.probes, event.block, opens)?;
        }
        Ok(())
    }

    /// Takes the next event of its link. AllocError where memory is refused: then it is for nothing more.
    pub(crate) fn learn(&mut self, event: &Event) -> Result<(), AllocError>
        ensures next { OnOk result (shown self.new ≡ shown_next (shown self.old) (said event.now)) }
        ensures link { self.new.link ≡ self.old.link }
    {
        set_bound(&mut self.bounds, event.sets)?;
        self.learn_probe(event)?;
        count(&mut self.grants, event)
    }
}
