//! Tallies as states of windows.

ghost use Rattle.tl_board.specs.Tally.{SameTally};

use tl_same::Same;

/// What the beats of a monitor's windows leave for those after them.
#[derive(Clone, Copy, Debug, PartialEq, Eq, Drop)]
pub struct Tally {
    /// Of a Budget how many beats were of its class; of an After 1 once one was of its first class, else 0.
    pub count: u32,
}

impl Same for Tally {
    ghost same = { SameTally };

    fn is_same(&self, other: &Tally) -> bool {
        self.count == other.count
    }
}
