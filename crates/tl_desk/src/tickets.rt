//! The tickets that are out.

ghost use Rattle.std.specs.Prelude.{◌≡◌, ◌+◌, ◌<◌, ◌==◌, ℕ, [], OnOk, OnErr, IfOk, nat_le, Some, None, is_some, true, false};
ghost use Rattle.std.specs.Bool.{Decides};
ghost use Rattle.std.specs.Ordering.{nat_cmp};
ghost use Rattle.std.specs.BTreeMap.{insert_entry, is_at};
ghost use Rattle.std.specs.Map.{remove_entry};
ghost use Rattle.tl_desk.specs.TicketData.{taken_at, most_tickets, IsOutFor, AreTickets};

use crate::piece::Piece;
use std::alloc::{AllocError, Global};
use std::collections::BTreeMap;
use std::collections::btree_map::Iter;
use std::marker::Model;

/// The number of the last ticket that is ever given.
const MOST_TICKETS: u64 = 4_611_686_018_427_387_904;

/// What a ticket was given for: a window, and how many edits were accepted before.
#[derive(Clone, Copy, Debug, PartialEq, Eq)]
pub struct Taken {
    pub piece: Piece,
    pub edits: u64,
}

/// The tickets that were given and haven't come back, by number, and the number of the last one that was given, or 0. Tickets
/// rise from 1.
#[derive(Drop)]
pub struct Tickets {
    out: BTreeMap<u64, Taken>,
    last: u64,
}

impl Model for Tickets {
    ghost use Rattle.tl_desk.specs.TicketData.{TicketsData, AreTickets};

    ghost Value = { TicketsData };

    ghost view = { λ t. record { out = t.out.entries; last = t.last } };

    ghost invariant = { λ t. AreTickets (record { out = t.out.entries; last = t.last }) };
}

impl Tickets {
    /// None was given.
    pub fn new(alloc: Global) -> Tickets
        ensures { result ≡ record { out = []; last = 0 } }
    {
        Tickets {
            out: BTreeMap::new(alloc),
            last: 0,
        }
    }

    /// Whether the last ticket was given.
    pub fn are_spent(&self) -> bool
        ensures exact { result ≡ nat_le most_tickets self.now.last }
        // Each that is out was given.
        ensures kept { AreTickets self.now }
    {
        self.last >= MOST_TICKETS
    }

    /// What a ticket that is out was given for.
    pub fn taken(&self, ticket: u64) -> Option<Taken>
        ensures { result ≡ taken_at ticket self.now.out }
    {
        self.out.get(&ticket).copied()
    }

    /// The tickets that are out, from the lowest on, each with what it was given for.
    pub fn iter(&self) -> Iter<'_, u64, Taken>
        ensures exact { result ≡ self.now.out }
        // Each that is out was given, and they stand in order.
        ensures kept { AreTickets self.now }
    {
        self.out.iter()
    }

    /// Whether a ticket is out for a window.
    pub fn is_out(&self, ticket: u64, piece: &Piece) -> bool
        ensures { Decides result (IsOutFor ticket piece.now self.now.out) }
    {
        match self.out.get(&ticket) {
            Some(taken) => taken.piece.is_same(piece),
            None => false,
        }
    }

    /// Gives the next ticket, and answers its number. AllocError where memory is refused: then nothing has changed.
    pub fn give(&mut self, taken: Taken) -> Result<u64, AllocError>
        requires { self.old.last < most_tickets }
        ensures number { IfOk result (λ number. number ≡ self.old.last + 1) }
        ensures ok { OnOk result (self.new ≡ record { out = insert_entry nat_cmp self.old.out (self.old.last + 1) taken; last = self.old.last + 1 }) }
        // Each that is out was given, and they stand in order.
        ensures kept { AreTickets self.new }
        ensures err { OnErr result (self.new ≡ self.old) }
    {
        let ticket = self.last + 1;
        self.out.insert(ticket, taken)?;
        self.last = ticket;
        Ok(ticket)
    }

    /// A ticket is out no more.
    pub fn end(&mut self, ticket: u64)
        ensures exact { self.new ≡ record self.old { out = remove_entry (is_at (nat_cmp ticket)) self.old.out } }
        // Each that is out was given, and they stand in order.
        ensures kept { AreTickets self.new }
    {
        self.out.remove(&ticket);
    }
}
