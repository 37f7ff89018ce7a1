//! Why an edit is refused, or what it left isn't told.

ghost use Rattle.std.specs.Prelude.{◌≡◌};
ghost use Rattle.tl_edits.specs.Edits.{code_of, number_of, past_code_of, past_number_of};
ghost use Rattle.tl_edits.specs.declared.fault.EditFault.TheVariants.{Memory};
ghost use Rattle.tl_edits.specs.declared.fault.PastFault.TheVariants.{Memory as Refused};

use std::alloc::{AllocError, AllocFailed};
use thiserror::Error;

/// The first cause for which an edit is refused, in the order in which they stand here.
#[derive(Clone, Copy, Debug, Drop, Error, PartialEq, Eq)]
pub enum EditFault {
    /// The topology has no such link.
    #[error("no such link")]
    UnknownLink,
    /// The topology has no such manager.
    #[error("no such manager")]
    UnknownManager,
    /// A fragment is added whose number its link has already.
    #[error("the link has a fragment of this number")]
    FragmentExists,
    /// The link has no fragment of the number that is replaced or withdrawn.
    #[error("the link has no fragment of this number")]
    NoFragment,
    /// The manager has no region of the number.
    #[error("the manager has no region of this number")]
    NoRegion,
    /// A monitor of this number was attached before, whether it still is or not.
    #[error("a monitor of this number was attached before")]
    MonitorExists,
    /// No monitor of this number is attached.
    #[error("no monitor of this number is attached")]
    NoMonitor,
    /// The monitor is an After, which has no limit.
    #[error("the monitor has no limit")]
    WrongKind,
    /// Another fragment of the link shares a cycle with this one; the lowest such number.
    #[error("the range shares a cycle with fragment {0}")]
    RangeOverlap(u32),
    /// Another region of the manager shares an address with this one; the lowest such number.
    #[error("the region overlaps region {0}")]
    RegionOverlap(u8),
    /// 65,536 edits were accepted.
    #[error("65536 edits were accepted")]
    LogFull,
    /// A growth was refused.
    #[error("out of memory")]
    Memory,
}

impl EditFault {
    /// The number of the refusal.
    pub fn code(&self) -> u8
        ensures { result ≡ code_of self.now }
    {
        match self {
            EditFault::UnknownLink => 21,
            EditFault::UnknownManager => 35,
            EditFault::FragmentExists => 22,
            EditFault::NoFragment => 23,
            EditFault::NoRegion => 26,
            EditFault::MonitorExists => 27,
            EditFault::NoMonitor => 28,
            EditFault::WrongKind => 29,
            EditFault::RangeOverlap(_) => 24,
            EditFault::RegionOverlap(_) => 25,
            EditFault::LogFull => 30,
            EditFault::Memory => 20,
        }
    }

    /// The fragment or region that is printed with it, where the refusal names one.
    pub fn number(&self) -> Option<u32>
        ensures { result ≡ number_of self.now }
    {
        match self {
            EditFault::RangeOverlap(number) => Some(*number),
            EditFault::RegionOverlap(number) => Some(u32::from(*number)),
            _ => None,
        }
    }
}

impl From<AllocError> for EditFault {
    ghost from_gives = { λ _ e. e ≡ Memory };

    fn from(_error: AllocError) -> EditFault {
        EditFault::Memory
    }
}

impl<T: Drop> From<AllocFailed<T>> for EditFault {
    ghost from_gives = { λ _ e. e ≡ Memory };

    fn from(_error: AllocFailed<T>) -> EditFault {
        EditFault::Memory
    }
}

/// Why what some edits left isn't told.
#[derive(Clone, Copy, Debug, Drop, Error, PartialEq, Eq)]
pub enum PastFault {
    /// Fewer edits were accepted than this.
    #[error("there is no edit {0}")]
    NoSuchEdit(u64),
    /// A growth was refused.
    #[error("out of memory")]
    Memory,
}

impl PastFault {
    /// The number of the refusal.
    pub fn code(&self) -> u8
        ensures { result ≡ past_code_of self.now }
    {
        match self {
            PastFault::NoSuchEdit(_) => 43,
            PastFault::Memory => 20,
        }
    }

    /// The edit that was asked for, where the refusal names it.
    pub fn number(&self) -> Option<u64>
        ensures { result ≡ past_number_of self.now }
    {
        match self {
            PastFault::NoSuchEdit(edit) => Some(*edit),
            PastFault::Memory => None,
        }
    }
}

impl From<AllocError> for PastFault {
    ghost from_gives = { λ _ e. e ≡ Refused };

    fn from(_error: AllocError) -> PastFault {
        PastFault::Memory
    }
}
