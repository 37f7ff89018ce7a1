//! Cycles of rows.

ghost use Rattle.std.specs.Prelude.{◌≡◌};
ghost use Rattle.tl_rows.specs.Choice.{has_cycle};

/// The cycles from one to another.
#[derive(Clone, Copy, Debug, PartialEq, Eq)]
pub struct Cycles {
    /// The first of them.
    pub first: u64,
    /// The last of them.
    pub last: u64,
}

impl Cycles {
    /// All cycles.
    pub const ALL: Cycles = Cycles {
        first: 0,
        last: u64::MAX,
    };

    /// Whether the cycle is one of them; the first and the last are.
    pub fn has(&self, cycle: u64) -> bool
        ensures { result ≡ has_cycle self.now cycle }
    {
        self.first <= cycle && cycle <= self.last
    }
}
