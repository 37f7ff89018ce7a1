//! Why links that are judged apart don't go on.

use std::alloc::AllocError;

/// Why a fragment is not taken.
#[derive(Clone, Copy, Debug, PartialEq, Eq)]
pub enum ApartFault {
    /// Memory is refused.
    Memory,
    /// The topology lacks its link, or it is of another link.
    UnknownLink,
    /// It does not come after those of its link, by its number or by its range.
    Late,
}

impl From<AllocError> for ApartFault {
    fn from(_error: AllocError) -> ApartFault {
        ApartFault::Memory
    }
}
