//! Why a fragment is refused.

ghost use Rattle.std.specs.Prelude.{◌≡◌};
ghost use Rattle.tl_beats.specs.Faults.{code_of, number_of};
ghost use Rattle.tl_beats.specs.declared.fault.FragmentFault.TheVariants.{Memory, WriteFault as Unwritten};
ghost use Rattle.tl_beats.specs.Faults.{of_text};

use std::alloc::{AllocError, AllocFailed};
use thiserror::Error;
use tl_text::{TextFault, WriteFault};

/// The first cause in the first faulty line; those that name a line count the header as 1.
#[derive(Clone, Copy, Debug, Drop, Error, PartialEq, Eq)]
pub enum FragmentFault {
    /// The first line is no header, or its first cycle is above its last.
    #[error("the first line is no header of a fragment")]
    BadHeader,
    /// The line is no beat of a channel, or stands after the end of the fragment.
    #[error("line {0} is no beat")]
    BadField(u32),
    /// The beat's cycle and channel are not above those of the line before.
    #[error("line {0} does not come after the line before")]
    NotRising(u32),
    /// The beat's cycle is outside the fragment's range.
    #[error("line {0} is outside the range of the fragment")]
    OutOfRange(u32),
    /// The text ends before the line's newline.
    #[error("the text ends in line {0}")]
    Truncated(u32),
    /// There is a 65,537th beat.
    #[error("there are more than 65536 beats")]
    TooManyBeats,
    /// A read failed.
    #[error("a read failed")]
    ReadFault,
    /// The text is longer than 8,388,608 bytes.
    #[error("the text is longer than 8388608 bytes")]
    TooLong,
    /// A write failed.
    #[error("a write failed")]
    WriteFault,
    /// A growth was refused.
    #[error("out of memory")]
    Memory,
}

impl FragmentFault {
    /// The number of the refusal.
    pub fn code(&self) -> u8
        ensures { result ≡ code_of self.now }
    {
        match self {
            FragmentFault::BadHeader => 11,
            FragmentFault::BadField(_) => 12,
            FragmentFault::NotRising(_) => 13,
            FragmentFault::OutOfRange(_) => 14,
            FragmentFault::Truncated(_) => 15,
            FragmentFault::TooManyBeats => 16,
            FragmentFault::ReadFault => 17,
            FragmentFault::TooLong => 18,
            FragmentFault::WriteFault => 19,
            FragmentFault::Memory => 20,
        }
    }

    /// The line that is printed with it, from 1, where the refusal names one.
    pub fn number(&self) -> Option<u32>
        ensures { result ≡ number_of self.now }
    {
        match self {
            FragmentFault::BadField(line)
            | FragmentFault::NotRising(line)
            | FragmentFault::OutOfRange(line)
            | FragmentFault::Truncated(line) => Some(*line),
            _ => None,
        }
    }
}

impl From<AllocError> for FragmentFault {
    ghost from_gives = { λ _ e. e ≡ Memory };

    fn from(_error: AllocError) -> FragmentFault {
        FragmentFault::Memory
    }
}

impl<T: Drop> From<AllocFailed<T>> for FragmentFault {
    ghost from_gives = { λ _ e. e ≡ Memory };

    fn from(_error: AllocFailed<T>) -> FragmentFault {
        FragmentFault::Memory
    }
}

impl From<TextFault> for FragmentFault {
    ghost from_gives = { λ fault e. e ≡ of_text fault };

    fn from(fault: TextFault) -> FragmentFault {
        match fault {
            TextFault::ReadFault => FragmentFault::ReadFault,
            TextFault::TooLong => FragmentFault::TooLong,
            TextFault::Memory => FragmentFault::Memory,
        }
    }
}

impl From<WriteFault> for FragmentFault {
    ghost from_gives = { λ _ e. e ≡ Unwritten };

    fn from(_error: WriteFault) -> FragmentFault {
        FragmentFault::WriteFault
    }
}
