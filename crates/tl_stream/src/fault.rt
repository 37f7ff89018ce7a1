//! Why a fragment is refused.

ghost use Rattle.std.specs.Prelude.{◌≡◌};
ghost use Rattle.tl_stream.specs.Faults.{code_of, number_of};
ghost use Rattle.tl_stream.specs.declared.fault.StreamFault.TheVariants.{Memory};

use std::alloc::{AllocError, AllocFailed};
use thiserror::Error;

/// The first cause for which a stream refuses a fragment, in the order in which they stand here.
#[derive(Clone, Copy, Debug, Drop, Error, PartialEq, Eq)]
pub enum StreamFault {
    /// The topology has no such link.
    #[error("no such link")]
    UnknownLink,
    /// The link had a fragment of this number or a higher one.
    #[error("the number is not above that of the link's last fragment")]
    NumberNotAbove,
    /// The range does not begin after that of the link's last fragment; the number of that fragment.
    #[error("the range does not begin after that of fragment {0}")]
    RangeNotAfter(u32),
    /// A growth was refused.
    #[error("out of memory")]
    Memory,
}

impl StreamFault {
    /// The number of the refusal.
    pub fn code(&self) -> u8
        ensures { result ≡ code_of self.now }
    {
        match self {
            StreamFault::UnknownLink => 21,
            StreamFault::NumberNotAbove => 22,
            StreamFault::RangeNotAfter(_) => 24,
            StreamFault::Memory => 20,
        }
    }

    /// The fragment that is printed with it, where the refusal names one.
    pub fn number(&self) -> Option<u32>
        ensures { result ≡ number_of self.now }
    {
        match self {
            StreamFault::RangeNotAfter(number) => Some(*number),
            _ => None,
        }
    }
}

impl From<AllocError> for StreamFault {
    ghost from_gives = { λ _ e. e ≡ Memory };

    fn from(_error: AllocError) -> StreamFault {
        StreamFault::Memory
    }
}

impl<T: Drop> From<AllocFailed<T>> for StreamFault {
    ghost from_gives = { λ _ e. e ≡ Memory };

    fn from(_error: AllocFailed<T>) -> StreamFault {
        StreamFault::Memory
    }
}
