//! Why no job is given.

ghost use Rattle.std.specs.Prelude.{◌≡◌};
ghost use Rattle.tl_desk.specs.TakeFaults.{take_code};
ghost use Rattle.tl_desk.specs.declared.take_fault.TakeFault.TheVariants.{Memory};

use std::alloc::{AllocError, AllocFailed};
use thiserror::Error;

/// The first cause for which a take is refused, in the order in which they stand here.
#[derive(Clone, Copy, Debug, Drop, Error, PartialEq, Eq)]
pub enum TakeFault {
    /// The last ticket was given.
    #[error("the last ticket was given")]
    TicketsSpent,
    /// A growth was refused.
    #[error("out of memory")]
    Memory,
}

impl TakeFault {
    /// The number of the refusal.
    pub fn code(&self) -> u8
        ensures { result ≡ take_code self.now }
    {
        match self {
            TakeFault::TicketsSpent => 34,
            TakeFault::Memory => 20,
        }
    }
}

impl From<AllocError> for TakeFault {
    ghost from_gives = { λ _ e. e ≡ Memory };

    fn from(_error: AllocError) -> TakeFault {
        TakeFault::Memory
    }
}

impl<T: Drop> From<AllocFailed<T>> for TakeFault {
    ghost from_gives = { λ _ e. e ≡ Memory };

    fn from(_error: AllocFailed<T>) -> TakeFault {
        TakeFault::Memory
    }
}
