//! What is kept of a piece.

ghost use Rattle.std.specs.Prelude.{◌≡◌};
ghost use Rattle.tl_pieces.specs.Slots.{blank, passes, changed};

use std::sync::Arc;

/// A result of a window: the state that it was checked from, the state after it, and its rows.
#[derive(Drop)]
pub struct Stored<S, R> {
    pub entry: Arc<S>,
    pub exit: Arc<S>,
    pub rows: R,
}

/// A piece, and whether it is wanted.
#[derive(Drop)]
pub(crate) struct Slot<S, R> {
    pub(crate) result: Option<Stored<S, R>>,
    pub(crate) live: Option<u64>,
    pub(crate) wanted: bool,
}

/// What slots are counted and looked for by.
#[derive(Clone, Copy, Drop)]
pub(crate) enum Mark {
    /// It is wanted.
    Wanted,
    /// It is wanted, and has no live ticket.
    Free,
}

/// What is changed of a slot.
#[derive(Drop)]
pub(crate) enum Change<S, R> {
    /// Whether it is wanted.
    Wanted(bool),
    /// Its live ticket.
    Live(Option<u64>),
    /// Its result; its mark is not judged.
    Result(Stored<S, R>),
    /// It has neither a result nor a live ticket.
    Touched,
}

impl<S, R> Slot<S, R> {
    /// The slot of a window that was never checked.
    pub(crate) fn blank() -> Self
        ensures { result ≡ blank }
    {
        Slot {
            result: None,
            live: None,
            wanted: true,
        }
    }

    /// Whether it has the mark.
    pub(crate) fn passes(&self, mark: Mark) -> bool
        ensures { result ≡ passes mark self.now }
    {
        match mark {
            Mark::Wanted => self.wanted,
            Mark::Free => self.wanted && self.live.is_none(),
        }
    }

    /// Makes the change.
    pub(crate) fn apply(&mut self, what: Change<S, R>)
    where
        S: Drop,
        R: Drop,
        ensures { self.new ≡ changed what self.old }
    {
        match what {
            Change::Wanted(wanted) => self.wanted = wanted,
            Change::Live(live) => self.live = live,
            Change::Result(stored) => self.result = Some(stored),
            Change::Touched => {
                self.result = None;
                self.live = None;
                self.wanted = true;
            }
        }
    }
}
