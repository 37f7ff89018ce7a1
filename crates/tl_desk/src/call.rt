//! Calls on a desk.

use crate::Piece;
use tl_beats::Watch;
use tl_board::{Rows, Tally};
use tl_check::SpanState;
use tl_edits::Change;

/// What the check of a window begins from. Contracts speak of it; no value of it is made.
#[derive(Drop)]
pub enum Start {
    /// Of a manager's window the state that is taken to stand before it.
    Manager(SpanState),
    /// Of a monitor's window the tally.
    Monitor(Tally),
}

/// What the check of a window came to: what it began from, what it ended with, and its rows. Contracts speak of it; no value of it
/// is made.
#[derive(Drop)]
pub enum Outcome {
    /// Of a manager's window.
    Manager(SpanState, SpanState, Rows),
    /// Of a monitor's window.
    Monitor(Tally, Tally, Rows),
}

/// A call on a desk that was not refused, with its answer, as plain data. Contracts speak of it; no value of it is made.
#[derive(Drop)]
pub enum Call {
    /// A change was accepted as the edit of this number.
    Edit(Change, u64),
    /// A monitor with this number and watch was attached by the edit of this number.
    Attach(u32, Watch, u64),
    /// All windows were settled, and so many were checked for it.
    Recheck(u64),
    /// The report of this version was published.
    Publish(u64),
    /// This window went out under the ticket of this number, to be checked from this.
    Take(u64, Piece, Start),
    /// This window came back with this outcome under the ticket of this number, which was out: whether its result was taken.
    HandIn(u64, Piece, Outcome, bool),
    /// This window came back unchecked under the ticket of this number, which was out.
    Abandon(u64, Piece),
    /// The ticket of this number, which was live, was called back.
    Recall(u64),
}
