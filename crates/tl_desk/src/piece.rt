//! Whose window it is.

ghost use Rattle.std.specs.Bool.{Decides};
ghost use Rattle.std.specs.Prelude.{◌≡◌};

/// A window with its owner: the number of a manager or of a monitor, then the number of the window, which holds the 4,096 cycles
/// from 4,096 times that on.
#[derive(Clone, Copy, Debug, PartialEq, Eq)]
pub enum Piece {
    /// A window of a manager.
    Manager(u16, u64),
    /// A window of a monitor.
    Monitor(u32, u64),
}

impl Piece {
    /// Whether both are the same window of the same owner.
    pub fn is_same(&self, other: &Piece) -> bool
        ensures { Decides result (self.now ≡ other.now) }
    {
        match (self, other) {
            (Piece::Manager(owner, window), Piece::Manager(other_owner, other_window)) => {
                owner == other_owner && window == other_window
            }
            (Piece::Monitor(owner, window), Piece::Monitor(other_owner, other_window)) => {
                owner == other_owner && window == other_window
            }
            _ => false,
        }
    }
}
