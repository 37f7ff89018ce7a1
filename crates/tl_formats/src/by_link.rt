//! Rows of different managers, in the order of their links.

ghost use Rattle.std.specs.Prelude.{◌≡◌, ◌<◌, ℕ, IfOk};
ghost use Rattle.std.specs.List.{All, flat_map};
ghost use Rattle.tl_formats.specs.Merging.{IsByLink};

use crate::report_fault::MergeFault;
use crate::report_line::{HasRows, ReportLine};
use std::alloc::{AllocError, Global};
use tl_topology::Topo;

/// The rows of all reports, one report after the other.
pub(crate) fn all_rows<R: HasRows>(alloc: Global, reports: &[R]) -> Result<Vec<R::Row>, AllocError>
    ensures { IfOk result (λ rows. rows.items ≡ flat_map R.lines reports.now) }
{
    let mut rows = Vec::new(alloc);
    for report in reports {
        rows.extend_from_slice(report.rows())?;
    }
    Ok(rows)
}

/// Rows in the order of their links, those of one link as they stood.
pub(crate) fn sorted_by_link<T: ReportLine>(mut rows: Vec<T>) -> Result<Vec<T>, AllocError>
    ensures sorted { IfOk result (λ sorted. IsByLink T.row_link rows.items sorted.items) }
    ensures links { (count : ℕ) → All (λ row. T.row_link row < count) rows.items
        → IfOk result (λ sorted. All (λ row. T.row_link row < count) sorted.items) }
{
    rows.sort_by_key(|row| row.link())?;
    Ok(rows)
}

/// The place of the report with rows of each manager, by its number, if there is one.
type Owners = Vec<Option<usize>>;

/// Takes the manager of a link with a row for the report at this place; refused where another has it.
fn claim(topo: &Topo, owners: &mut Owners, place: usize, link: u16) -> Result<(), MergeFault> {
    let Some(decl) = topo.link(link) else {
        return Ok(());
    };
    let Some(owner) = owners.get_mut(usize::from(decl.manager)) else {
        return Ok(());
    };
    match *owner {
        Some(first) if first != place => Err(MergeFault::ManagerTwice {
            link,
            first,
            second: place,
        }),
        _ => {
            *owner = Some(place);
            Ok(())
        }
    }
}

/// Takes the managers of rows for the report at this place; refused where another has one of them.
fn claim_all<T: ReportLine>(
    topo: &Topo,
    owners: &mut Owners,
    place: usize,
    rows: &[T],
) -> Result<(), MergeFault> {
    for row in rows {
        claim(topo, owners, place, row.link())?;
    }
    Ok(())
}

/// Refused where two reports have rows of one manager.
pub(crate) fn check_apart<R: HasRows>(
    alloc: Global,
    topo: &Topo,
    reports: &[R],
) -> Result<(), MergeFault> {
    let mut owners = Vec::new(alloc);
    for _ in 0..topo.manager_count() {
        owners.push(None)?;
    }
    for (place, report) in reports.iter().enumerate() {
        claim_all(topo, &mut owners, place, report.rows())?;
    }
    Ok(())
}
