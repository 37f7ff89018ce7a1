//! The rule of a hall's table, and what each step tells.

use crate::entry::View;
use atomic_table::{Join, Play, Seat, Split, Table, TableRule};
use std::alloc::Global;
use std::marker::{Brand, PhantomData};
use tl_desk::Desk;
use tl_monitor::Monitor;
use tl_topology::Topo;

/// There is one history, it leads to the desk in the slot, and what each pass has seen is a beginning of it.
pub struct HallRule;

impl<M: Monitor> TableRule<Option<Desk<M>>, View, Topo> for HallRule {
    ghost use Rattle.tl_hall.specs.Rule.{Kept, newcomer};

    ghost holds = { Kept };

    ghost first = { newcomer };
}

pub(crate) type Board<M> = Table<Option<Desk<M>>, View, Topo, HallRule, Global>;

pub(crate) type Place<M> = Seat<Option<Desk<M>>, View>;

/// Takes the turn, if it is free.
pub(crate) struct Enter;

impl<M: Monitor> Play<Option<Desk<M>>, View> for Enter {
    ghost use Rattle.tl_hall.specs.Rule.{entered};

    ghost then = { entered };
}

/// Which call is recorded. Each caller picks it.
pub trait Said {
    ghost use Rattle.tl_desk.specs.declared.call.Call.{Call};

    ghost call: { Call };
}

impl Said for Brand {
    ghost use Rattle.tl_desk.specs.declared.call.Call.TheVariants as call_kind;

    ghost call = { call_kind.Publish 0 };
}

/// Which change is submitted. The caller picks it.
pub trait Asked {
    ghost use Rattle.tl_edits.specs.declared.edit.Change.{Change};

    ghost change: { Change };
}

impl Asked for Brand {
    ghost use Rattle.tl_edits.specs.declared.edit.Change.TheVariants as change_kind;

    ghost change = { change_kind.Detach 0 };
}

/// What a job came to that is handed in. The caller picks it.
pub trait Came {
    ghost use Rattle.tl_desk.specs.declared.call.Outcome.{Outcome};

    ghost found: { Outcome };
}

impl Came for Brand {
    ghost use Rattle.std.specs.Prelude.{[]};
    ghost use Rattle.tl_desk.specs.declared.call.Outcome.TheVariants as outcome_kind;

    ghost found = { outcome_kind.Monitor (record { count = 0 }) (record { count = 0 }) [] };
}

/// Adds the call to the history.
pub(crate) struct Record<C: Said> {
    said: PhantomData<C>,
}

impl<M: Monitor, C: Said> Play<Option<Desk<M>>, View> for Record<C> {
    ghost use Rattle.tl_hall.specs.Rule.{recorded};

    ghost then = { recorded C.call };
}

/// Adds nothing.
pub(crate) struct Stay;

impl<M: Monitor> Play<Option<Desk<M>>, View> for Stay {
    ghost use Rattle.tl_hall.specs.Rule.{stayed};

    ghost then = { stayed };
}

/// Gives the turn up.
pub(crate) struct Leave;

impl<M: Monitor> Play<Option<Desk<M>>, View> for Leave {
    ghost use Rattle.tl_hall.specs.Rule.{left};

    ghost then = { left };
}

/// A new pass that has seen the same.
pub(crate) struct Twin;

impl Split<View> for Twin {
    ghost use Rattle.tl_hall.specs.Rule.{elder, younger};

    ghost left = { elder };

    ghost right = { younger };
}

/// A new helper that has seen the same.
pub(crate) struct Aide;

impl Split<View> for Aide {
    ghost use Rattle.tl_hall.specs.Rule.{helped, helper};

    ghost left = { helped };

    ghost right = { helper };
}

/// Keeps both lists.
pub(crate) struct Meet;

impl Join<View> for Meet {
    ghost use Rattle.tl_hall.specs.Rule.{both, nobody};

    ghost both = { both };

    ghost spent = { nobody };
}

/// Keeps the longer list.
pub(crate) struct Learn;

impl<M: Monitor> Play<Option<Desk<M>>, View> for Learn {
    ghost use Rattle.tl_hall.specs.Rule.{learned};

    ghost then = { learned };
}
