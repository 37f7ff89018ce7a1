//! Why a text of a report is refused, and why reports can't be merged.

ghost use Rattle.std.specs.Prelude.{◌≡◌};
ghost use Rattle.tl_formats.specs.declared.report_fault.MergeFault.TheVariants.{Memory as Unmerged};
ghost use Rattle.tl_formats.specs.declared.report_fault.ReportFault.TheVariants.{Memory};
ghost use Rattle.tl_formats.specs.declared.report_fault.TextsFault.TheVariants.{Merge};

use std::alloc::{AllocError, AllocFailed};
use thiserror::Error;

/// Why a text is no report, in the order in which they are looked for.
#[derive(Clone, Copy, Debug, Drop, Error, PartialEq, Eq)]
pub enum ReportFault {
    /// The first line is not that of a report.
    #[error("line 1 is not report 1 edit EDITS rows ROWS")]
    BadHead,
    /// A line is not spelled as a row.
    #[error("line {0} is not LINK FRAGMENT LINE RULE, with the monitor after X1")]
    BadRow(u64),
    /// A line of JSON is not the object of a row.
    #[error("line {0} is no object with cycle, link, fragment, line and rule, and with the monitor of X1 alone")]
    BadObject(u64),
    /// A row is of a link that the topology lacks.
    #[error("line {0} has a row of a link that the topology lacks")]
    NoLink(u64),
    /// A row does not come after the row before it.
    #[error("line {0} has a row that stands out of order")]
    OutOfOrder(u64),
    /// The first line does not count the rows.
    #[error("line 1 counts {counted} rows, and there are {found}: part of the report is missing, or there is more than one")]
    WrongCount {
        /// What the first line says.
        counted: u64,
        /// How many there are.
        found: u64,
    },
    /// A report in JSON does not end with a newline.
    #[error("line {0} has no newline: part of the report is missing")]
    CutShort(u64),
    /// A growth was refused.
    #[error("out of memory")]
    Memory,
}

impl From<AllocError> for ReportFault {
    ghost from_gives = { λ _ e. e ≡ Memory };

    fn from(_error: AllocError) -> ReportFault {
        ReportFault::Memory
    }
}

impl<T: Drop> From<AllocFailed<T>> for ReportFault {
    ghost from_gives = { λ _ e. e ≡ Memory };

    fn from(_error: AllocFailed<T>) -> ReportFault {
        ReportFault::Memory
    }
}

/// Why reports can't be merged.
#[derive(Clone, Copy, Debug, Drop, Error, PartialEq, Eq)]
pub enum MergeFault {
    /// Two reports have rows of one manager.
    #[error("two reports have rows of one manager")]
    ManagerTwice {
        /// The number of a link of the manager with a row in the second of the reports.
        link: u16,
        /// The place of the first of the reports, from 0.
        first: usize,
        /// The place of the second.
        second: usize,
    },
    /// They count more than 2^64 - 1 edits together.
    #[error("the reports count too many edits")]
    ManyEdits,
    /// A growth was refused.
    #[error("out of memory")]
    Memory,
}

impl From<AllocError> for MergeFault {
    ghost from_gives = { λ _ e. e ≡ Unmerged };

    fn from(_error: AllocError) -> MergeFault {
        MergeFault::Memory
    }
}

impl<T: Drop> From<AllocFailed<T>> for MergeFault {
    ghost from_gives = { λ _ e. e ≡ Unmerged };

    fn from(_error: AllocFailed<T>) -> MergeFault {
        MergeFault::Memory
    }
}

/// Why texts of reports can't be merged.
#[derive(Clone, Copy, Debug, Drop, Error, PartialEq, Eq)]
pub enum TextsFault {
    /// A text is no report.
    #[error("text {place} is no report: {fault}")]
    Report {
        /// Its place, from 0.
        place: usize,
        /// Why.
        fault: ReportFault,
    },
    /// One text is JSON, or empty, and another is not.
    #[error("text {json} is JSON, or empty, and text {plain} is not")]
    Mixed {
        /// The place of the first that is, from 0.
        json: usize,
        /// The place of the first that is not.
        plain: usize,
    },
    /// The reports can't be merged.
    #[error("{0}")]
    Merge(MergeFault),
}

impl From<AllocError> for TextsFault {
    ghost from_gives = { λ _ e. e ≡ Merge Unmerged };

    fn from(_error: AllocError) -> TextsFault {
        TextsFault::Merge(MergeFault::Memory)
    }
}

impl<T: Drop> From<AllocFailed<T>> for TextsFault {
    ghost from_gives = { λ _ e. e ≡ Merge Unmerged };

    fn from(_error: AllocFailed<T>) -> TextsFault {
        TextsFault::Merge(MergeFault::Memory)
    }
}

impl From<MergeFault> for TextsFault {
    ghost from_gives = { λ found e. e ≡ Merge found };

    fn from(found: MergeFault) -> TextsFault {
        TextsFault::Merge(found)
    }
}
