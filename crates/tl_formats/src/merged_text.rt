//! What a merge is given and makes, whatever the kind of the reports.

ghost use Rattle.std.specs.Prelude.{◌≡◌, Ok, IfOk};

use crate::report_fault::{ReportFault, TextsFault};

/// A merge as it is written.
#[derive(Drop)]
pub struct MergedText {
    /// Its text.
    pub text: Vec<u8>,
    /// How many rows it has.
    pub rows: u64,
}

/// What the text at this place was read as, or its fault with the place.
pub(crate) fn at_place<T: Drop>(place: usize, read: Result<T, ReportFault>) -> Result<T, TextsFault>
    ensures { IfOk result (λ report. read ≡ Ok report) }
{
    match read {
        Ok(report) => Ok(report),
        Err(fault) => Err(TextsFault::Report { place, fault }),
    }
}
