//! Why a text of waivers is refused.

ghost use Rattle.std.specs.Prelude.{◌≡◌};
ghost use Rattle.tl_formats.specs.declared.waiver_fault.WaiverFault.TheVariants.{Memory};

use std::alloc::{AllocError, AllocFailed};
use thiserror::Error;

/// The first cause in the first faulty line; each but `Memory` names that line, from 1.
#[derive(Clone, Copy, Debug, Drop, Error, PartialEq, Eq)]
pub enum WaiverFault {
    /// The line is not four words and a reason, with one space between them.
    #[error("line {0} is not RULE LINK FROM TO and a reason, with one space between them")]
    BadLine(u64),
    /// The first word is no rule and no `*`.
    #[error("line {0} begins with a word that is no rule and no *")]
    NoRule(u64),
    /// The second word is no link of the topology and no `*`.
    #[error("line {0} has a second word that is no link of the topology and no *")]
    NoLink(u64),
    /// FROM or TO is no cycle, or FROM is above TO.
    #[error("line {0} has FROM and TO that are no two cycles, the first not above the last")]
    BadCycles(u64),
    /// A growth was refused.
    #[error("out of memory")]
    Memory,
}

impl From<AllocError> for WaiverFault {
    ghost from_gives = { λ _ e. e ≡ Memory };

    fn from(_error: AllocError) -> WaiverFault {
        WaiverFault::Memory
    }
}

impl<T: Drop> From<AllocFailed<T>> for WaiverFault {
    ghost from_gives = { λ _ e. e ≡ Memory };

    fn from(_error: AllocFailed<T>) -> WaiverFault {
        WaiverFault::Memory
    }
}
