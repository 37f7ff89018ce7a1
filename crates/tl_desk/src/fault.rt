//! Why nothing is checked or published.

ghost use Rattle.std.specs.Prelude.{◌≡◌};
ghost use Rattle.tl_desk.specs.Faults.{publish_code, recheck_code, recheck_number};
ghost use Rattle.tl_desk.specs.declared.fault.PublishFault.TheVariants as unpublished;
ghost use Rattle.tl_desk.specs.declared.fault.RecheckFault.TheVariants as unchecked;

use std::alloc::{AllocError, AllocFailed};
use thiserror::Error;

/// The first cause for which a publish is refused, in the order in which they stand here.
#[derive(Clone, Copy, Debug, Drop, Error, PartialEq, Eq)]
pub enum PublishFault {
    /// Some window is not settled.
    #[error("some windows are not checked")]
    NotReady,
    /// 65,536 reports were published.
    #[error("65536 reports were published")]
    VersionFull,
    /// A growth was refused.
    #[error("out of memory")]
    Memory,
}

impl PublishFault {
    /// The number of the refusal.
    pub fn code(&self) -> u8
        ensures { result ≡ publish_code self.now }
    {
        match self {
            PublishFault::NotReady => 31,
            PublishFault::VersionFull => 32,
            PublishFault::Memory => 20,
        }
    }
}

impl From<AllocError> for PublishFault {
    ghost from_gives = { λ _ e. e ≡ unpublished.Memory };

    fn from(_error: AllocError) -> PublishFault {
        PublishFault::Memory
    }
}

impl<T: Drop> From<AllocFailed<T>> for PublishFault {
    ghost from_gives = { λ _ e. e ≡ unpublished.Memory };

    fn from(_error: AllocFailed<T>) -> PublishFault {
        PublishFault::Memory
    }
}

/// Why not all is checked.
#[derive(Clone, Copy, Debug, Drop, Error, PartialEq, Eq)]
pub enum RecheckFault {
    /// The monitor of this number isn't settled, and is out with a job: the lowest such number.
    #[error("monitor {0} is out with a job")]
    BoxOut(u32),
    /// A growth was refused.
    #[error("out of memory")]
    Memory,
}

impl RecheckFault {
    /// The number of the refusal.
    pub fn code(&self) -> u8
        ensures { result ≡ recheck_code self.now }
    {
        match self {
            RecheckFault::BoxOut(_) => 33,
            RecheckFault::Memory => 20,
        }
    }

    /// The number of the monitor that is out.
    pub fn number(&self) -> Option<u32>
        ensures { result ≡ recheck_number self.now }
    {
        match self {
            RecheckFault::BoxOut(number) => Some(*number),
            RecheckFault::Memory => None,
        }
    }
}

impl From<AllocError> for RecheckFault {
    ghost from_gives = { λ _ e. e ≡ unchecked.Memory };

    fn from(_error: AllocError) -> RecheckFault {
        RecheckFault::Memory
    }
}
