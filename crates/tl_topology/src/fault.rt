//! Why a topology text is refused.

ghost use Rattle.std.specs.Prelude.{◌≡◌};
ghost use Rattle.tl_topology.specs.Faults.{code_of, number_of};
ghost use Rattle.tl_topology.specs.declared.fault.TopoFault.TheVariants.{Memory};

use std::alloc::{AllocError, AllocFailed};
use thiserror::Error;

/// The first cause in the first faulty line; each but `Memory` names that line, from 1.
#[derive(Clone, Copy, Debug, Drop, Error, PartialEq, Eq)]
pub enum TopoFault {
    /// The line is spelled as none of the text's version, has no newline, has a number above 65,536, or has no sources.
    #[error("line {0} is no line of a topology")]
    BadLine(u64),
    /// The name is another link's or manager's.
    #[error("line {0} declares a name again")]
    NameTwice(u64),
    /// The width is no power of two from 1 to 64 bytes.
    #[error("line {0} has a width that is no power of two from 1 to 64")]
    BadWidth(u64),
    /// The block is no power of two from 8 to 4,096 bytes.
    #[error("line {0} has a block that is no power of two from 8 to 4096")]
    BadBlock(u64),
    /// No earlier line declares the link's manager.
    #[error("line {0} names a manager that no earlier line declares")]
    NoManager(u64),
    /// 256 links stand before it.
    #[error("line {0} declares the 257th link")]
    TooManyLinks(u64),
    /// 64 managers stand before it.
    #[error("line {0} declares the 65th manager")]
    TooManyManagers(u64),
    /// The largest size is above 15, above one beat on TL-UL, or below the block on TL-C.
    #[error("line {0} has a largest size that doesn't fit the link")]
    BadSize(u64),
    /// The link is strict and of another level than TL-C.
    #[error("line {0} has a strict link of a level without caching")]
    StrictLevel(u64),
    /// A growth was refused.
    #[error("out of memory")]
    Memory,
}

impl TopoFault {
    /// The number of the refusal.
    pub fn code(&self) -> u8
        ensures { result ≡ code_of self.now }
    {
        match self {
            TopoFault::BadLine(_) => 1,
            TopoFault::NameTwice(_) => 2,
            TopoFault::BadWidth(_) => 3,
            TopoFault::BadBlock(_) => 4,
            TopoFault::NoManager(_) => 5,
            TopoFault::TooManyLinks(_) => 6,
            TopoFault::TooManyManagers(_) => 9,
            TopoFault::BadSize(_) => 10,
            TopoFault::StrictLevel(_) => 37,
            TopoFault::Memory => 20,
        }
    }

    /// The line that is printed with it, from 1.
    pub fn number(&self) -> Option<u64>
        ensures { result ≡ number_of self.now }
    {
        match self {
            TopoFault::BadLine(line)
            | TopoFault::NameTwice(line)
            | TopoFault::BadWidth(line)
            | TopoFault::BadBlock(line)
            | TopoFault::NoManager(line)
            | TopoFault::TooManyLinks(line)
            | TopoFault::TooManyManagers(line)
            | TopoFault::BadSize(line)
            | TopoFault::StrictLevel(line) => Some(*line),
            TopoFault::Memory => None,
        }
    }
}

impl From<AllocError> for TopoFault {
    ghost from_gives = { λ _ e. e ≡ Memory };

    fn from(_error: AllocError) -> TopoFault {
        TopoFault::Memory
    }
}

impl<T: Drop> From<AllocFailed<T>> for TopoFault {
    ghost from_gives = { λ _ e. e ≡ Memory };

    fn from(_error: AllocFailed<T>) -> TopoFault {
        TopoFault::Memory
    }
}
