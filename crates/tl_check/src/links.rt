//! One link of a manager, between two of its beats.

ghost use Rattle.std.specs.Prelude.{◌≡◌, IfOk, OnOk, None, Some, is_none, false};
ghost use Rattle.std.specs.Bool.{Decides};
ghost use Rattle.tl_topology.specs.Topology.{IsSound};
ghost use Rattle.tl_beats.specs.Beats.{IsWellFormed};
ghost use Rattle.tl_definitions.specs.Heads.{message_of};
ghost use Rattle.tl_link_rules.specs.Bursts.{slot_at};
ghost use Rattle.tl_check.specs.Links.{IsAnswer, IsNext, IsOpening, SameLink};

use std::alloc::{AllocError, Global};
use tl_beats::Beat;
use tl_link_rules::{BurstState, FlowAnswer, FlowState};
use tl_same::Same;
use tl_tables::Op;
use tl_topology::LinkDecl;

/// What the beats of one link leave: the bursts that miss beats, and what is in flight.
#[derive(Drop)]
pub struct LinkState {
    pub bursts: BurstState,
    pub flow: FlowState,
}

impl LinkState {
    /// The state of a link without beats.
    pub fn new(alloc: Global) -> LinkState
        ensures { IsOpening result }
    {
        LinkState {
            bursts: BurstState::new(),
            flow: FlowState::new(alloc),
        }
    }

    /// Takes the next beat of the link, which is a head: the flow rules that it breaks and the request that it answers. AllocError where memory is refused: then the state may have part of
    /// the head.
    pub fn begin(
        &mut self,
        alloc: Global,
        decl: &LinkDecl,
        head: &Beat,
    ) -> Result<FlowAnswer, AllocError>
        requires decl { IsSound decl.now }
        requires beat { IsWellFormed head.now }
        requires head { slot_at self.old.bursts head.now.chan ≡ None }
        ensures answer { IfOk result (IsAnswer decl.now head.now self.old) }
        ensures next { OnOk result (IsNext decl.now head.now self.old self.new) }
    {
        self.bursts.pass(decl, head);
        self.flow.step(alloc, decl, head)
    }

    /// The state with the first beat of this message. AllocError where memory is refused: then the state may have part of it.
    pub fn pass(&mut self, decl: &LinkDecl, op: Op, first: &Beat) -> Result<(), AllocError>
        requires decl { IsSound decl.now }
        requires beat { IsWellFormed first.now }
        requires head { slot_at self.old.bursts first.now.chan ≡ None }
        requires message { message_of decl.now first.now ≡ Some op }
        ensures { OnOk result (IsNext decl.now first.now self.old self.new) }
    {
        self.bursts.begin(decl, op, first);
        self.flow.pass(decl, op, first)
    }

    /// The state with a later beat.
    pub fn go_on(&mut self, decl: &LinkDecl, beat: &Beat)
        requires decl { IsSound decl.now }
        requires beat { IsWellFormed beat.now }
        requires later { is_none (slot_at self.old.bursts beat.now.chan) ≡ false }
        ensures { IsNext decl.now beat.now self.old self.new }
    {
        self.bursts.pass(decl, beat);
    }

    /// A state that shows the same. AllocError where memory is refused.
    pub fn copy(&self) -> Result<LinkState, AllocError>
        ensures { IfOk result (SameLink self.now) }
    {
        Ok(LinkState {
            bursts: self.bursts,
            flow: self.flow.copy()?,
        })
    }
}

impl Same for LinkState {
    ghost same = { SameLink };

    fn is_same(&self, other: &Self) -> bool {
        self.bursts.is_same(&other.bursts) && self.flow.is_same(&other.flow)
    }
}
