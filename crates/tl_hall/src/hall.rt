//! The hall, its passes, and the turn.

ghost use Rattle.std.specs.Prelude.{◌≡◌, ◌++◌, [], ◌∷◌, IfOk, true, false, None, Some};
ghost use Rattle.tl_desk.specs.Core.{Core, IsDesk};
ghost use Rattle.tl_hall.specs.History.{entry, IsOfWorker, Leads};
ghost use Rattle.tl_hall.specs.Passes.{IsResting, IsInside, Saw, Closes};

use crate::rule::{Board, Enter, Leave, Place, Record, Said, Stay};
use atomic_table::{Refused, Table};
use std::alloc::{AllocError, Global};
use std::marker::{Model, PhantomData};
use std::sync::Wait;
use std::thread::yield_now;
use tl_desk::Desk;
use tl_monitor::Monitor;
use tl_topology::Topo;

/// A desk that threads call in turn. All calls that changed it stand in one history, in one order; each is one step on the desk.
#[derive(Drop)]
pub struct Hall<M: Monitor> {
    pub(crate) table: Board<M>,
}

impl<M: Monitor> Model for Hall<M> {
    ghost use Rattle.std.specs.Prelude.{◌≡◌};
    ghost use Rattle.tl_hall.specs.Passes.{HallData};

    ghost Value = { HallData };

    ghost view = { λ h. record { hall = h.table.shared.table_id; topo = h.table.shared.key } };

    ghost invariant = { λ h. (h.table.shared.table_id.words ≡ 2) × (h.table.shared.table_id.slots ≡ 1) };
}

/// Which calls are allowed.
pub trait Rights {
    ghost use Rattle.std.specs.Prelude.{Bool};

    /// Whether these are to take windows, to hand them in and to abandon them, and no other.
    ghost helps: { Bool };
}

/// Each call.
pub struct All;

impl Rights for All {
    ghost use Rattle.std.specs.Prelude.{false};

    ghost helps = { false };
}

/// To take windows, to hand them in and to abandon them.
pub struct Windows;

impl Rights for Windows {
    ghost use Rattle.std.specs.Prelude.{true};

    ghost helps = { true };
}

/// The right to call a hall, with what its holder knows of the hall's history: a beginning of it, in which all entries of this
/// pass stand.
#[derive(Drop)]
pub struct Access<M: Monitor, K: Rights> {
    pub(crate) seat: Place<M>,
    pub(crate) rights: PhantomData<K>,
}

/// The right to make each call.
pub type Pass<M> = Access<M, All>;

/// The right to check windows, and no other.
pub type Helper<M> = Access<M, Windows>;

impl<M: Monitor, K: Rights> Model for Access<M, K> {
    ghost use Rattle.std.specs.Coded.{codes};
    ghost use Rattle.tl_hall.specs.contracts.entry.Entry as entry_row;
    ghost use Rattle.tl_hall.specs.Passes.{PassData, passed, IsAtRest};

    ghost Value = { PassData };

    ghost coded = { Prim.hlevel (codes, entry_row.the_row.coded) };

    ghost view = { λ p. passed p.seat.table_id p.seat.me.0 };

    ghost invariant = { λ p. IsAtRest K.helps p.seat.me };
}

/// What a pass had seen of a hall's history.
#[derive(Drop)]
pub struct Note<M: Monitor> {
    pub(crate) seat: Place<M>,
}

impl<M: Monitor> Model for Note<M> {
    ghost use Rattle.std.specs.Coded.{codes};
    ghost use Rattle.tl_hall.specs.contracts.entry.Entry as entry_row;
    ghost use Rattle.tl_hall.specs.Passes.{PassData, passed, IsResting};

    ghost Value = { PassData };

    ghost coded = { Prim.hlevel (codes, entry_row.the_row.coded) };

    ghost view = { λ n. passed n.seat.table_id n.seat.me.0 };

    ghost invariant = { λ n. IsResting n.seat.me };
}

impl<M: Monitor> Hall<M> {
    /// A hall with a desk of its own, on which nothing was done, and the pass that has seen the empty history. AllocError where
    /// memory is refused.
    pub fn new(alloc: Global, topo: Topo) -> Result<(Hall<M>, Pass<M>), AllocError>
        ensures { IfOk result (λ r. (r.1.hall ≡ r.0.hall) × (r.0.topo ≡ topo) × (r.1.topo ≡ topo) × (r.1.seen ≡ []) × (r.1.sole ≡ true)) }
    {
        let key = topo.copy(alloc)?;
        let mut slots = Vec::with_capacity(alloc, 1)?;
        let desk = Desk::new(alloc, topo)?;
        // What is true of every desk.
        let _ = desk.log();
        slots.push(Some(desk))?;
        match Table::new(alloc, &[0, 0], slots, &key) {
            Ok((table, seat)) => {
                let rights = PhantomData;
                Ok((Hall { table }, Access { seat, rights }))
            }
            Err(Refused { slots: _ }) => Err(AllocError),
        }
    }

    /// Takes the turn for good, and keeps the desk: a history leads to it that begins with all that the pass has seen, and has no
    /// other entry of it. It may wait for another thread.
    pub fn close<R: Wait, K: Rights>(self, rt: &R, pass: Access<M, K>) -> Desk<M>
        requires { pass.hall ≡ self.hall }
        ensures { Closes pass result }
    {
        let Access { mut seat, .. } = pass;
        let desk = self.enter(rt, &mut seat);
        self.table.shared.fetch_add::<Stay>(&mut seat, 0, 0);
        let Hall { table } = self;
        drop(table);
        desk
    }
}

impl<M: Monitor> Hall<M> {
    /// Waits for the turn and takes it, and the desk out of the slot.
    pub(crate) fn enter<R: Wait>(&self, rt: &R, seat: &mut Place<M>) -> Desk<M>
        requires hall { seat.old.table_id ≡ self.now.hall }
        requires resting { IsResting seat.old.me }
        ensures hall { seat.new.table_id ≡ seat.old.table_id }
        ensures inside { IsInside seat.new.me }
        ensures saw { Saw seat.old.me.0 seat.new.me.0 }
        ensures desk { Leads seat.old.me.0.topo seat.new.me.0.seen result }
    {
        for _ in rt.forever() {
            if self.table.shared.compare_exchange::<Enter>(seat, 1, 0, 1) == 0 {
                return self.desk_out(seat);
            }
            yield_now();
        }
        unreachable!()
    }

    fn desk_out(&self, seat: &mut Place<M>) -> Desk<M>
        requires hall { seat.old.table_id ≡ self.now.hall }
        requires some { (c : Core) × (seat.old.me.1 ≡ (0, Some c) ∷ []) }
        ensures hall { seat.new.table_id ≡ seat.old.table_id }
        ensures now { (seat.old.me.1 ≡ (0, Some result) ∷ []) × (seat.new.me ≡ (seat.old.me.0, (0, None) ∷ [])) }
    {
        let Some(desk) = self.table.shared.exchange(seat, 0, None) else {
            unreachable!()
        };
        desk
    }

    /// Puts the desk back into the slot, and gives the turn up.
    pub(crate) fn leave(&self, seat: &mut Place<M>, desk: Desk<M>)
        requires hall { seat.old.table_id ≡ self.now.hall }
        requires inside { IsInside seat.old.me }
        requires desk { Leads seat.old.me.0.topo seat.old.me.0.seen desk }
        ensures hall { seat.new.table_id ≡ seat.old.table_id }
        ensures now { seat.new.me ≡ (record seat.old.me.0 { turn = false }, []) }
    {
        self.table.shared.exchange(seat, 0, Some(desk));
        self.table.shared.fetch_add::<Stay>(seat, 0, 0);
        self.table.shared.store::<Leave>(seat, 1, 0);
    }

    /// The same after a call that becomes an entry, which the caller picks by what it tells.
    pub(crate) fn leave_with<C: Said, T>(&self, seat: &mut Place<M>, desk: Desk<M>, _told: &T)
        requires hall { seat.old.table_id ≡ self.now.hall }
        requires inside { IsInside seat.old.me }
        requires may { seat.old.me.0.helps ≡ true → IsOfWorker C.call }
        requires desk { IsDesk desk → Leads seat.old.me.0.topo (seat.old.me.0.seen ++ entry seat.old.me.0.number C.call ∷ []) desk }
        ensures hall { seat.new.table_id ≡ seat.old.table_id }
        ensures now { seat.new.me ≡ (record seat.old.me.0 { turn = false; seen = seat.old.me.0.seen ++ entry seat.old.me.0.number C.call ∷ [] }, []) }
        ensures desk { IsDesk desk }
    {
        // What is true of every desk.
        let _ = desk.log();
        self.table.shared.exchange(seat, 0, Some(desk));
        self.table.shared.fetch_add::<Record<C>>(seat, 0, 1);
        self.table.shared.store::<Leave>(seat, 1, 0);
    }
}
