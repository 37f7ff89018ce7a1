//! What reports of either kind have in common: rows, each of a link, one after another.

ghost use Rattle.std.specs.Prelude.{◌≡◌, ℕ, List, ◌++◌, ◌∷◌, [], OnOk};

use crate::report_fault::ReportFault;

/// A row as its line in a report tells it.
pub(crate) trait ReportLine: Copy {
    ghost row_link: { Self → ℕ };

    /// The number of its link.
    fn link(&self) -> u16
        ensures { result ≡ row_link self.now };

    /// Whether it may stand after another.
    fn is_after(&self, before: &Self) -> bool;
}

/// A report.
pub(crate) trait HasRows {
    /// What its lines tell.
    type Row: ReportLine;

    ghost lines: { Self → List Self.Row };

    /// Its rows, in their order.
    fn rows(&self) -> &[Self::Row]
        ensures { result.now ≡ lines self.now };
}

/// Puts the row of a line with this number after others; refused where it may not stand there.
pub(crate) fn push_after<T: ReportLine>(
    rows: &mut Vec<T>,
    row: T,
    number: u64,
) -> Result<(), ReportFault>
    ensures { OnOk result (rows.new.items ≡ rows.old.items ++ row ∷ []) }
{
    if rows.last().is_some_and(|before| !row.is_after(before)) {
        return Err(ReportFault::OutOfOrder(number));
    }
    rows.push(row)?;
    Ok(())
}
