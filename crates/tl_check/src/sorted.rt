//! Rows in the order of a report.

ghost use Rattle.std.specs.Prelude.{◌≡◌, ◌↔◌};
ghost use Rattle.std.specs.List.{Contains};
ghost use Rattle.std.specs.List.Sorted.{IsStrictlySortedBy};
ghost use Rattle.tl_beats.specs.declared.Row.{Row as AnyRow};
ghost use Rattle.tl_definitions.specs.Report.{row_order};

use tl_beats::Row;
use tl_same::Exact;

/// The items in order, each once.
pub fn sort_once<T: Ord + Exact + Drop>(items: Vec<T>) -> Vec<T>
    ensures rises { IsStrictlySortedBy T.cmp result.items }
    ensures members { (x : T) → Contains result.items x ↔ Contains items.items x }
{
    let mut sorted = items;
    sorted.sort_unstable();
    sorted.dedup();
    sorted
}

/// The rows in the order of reports, each once.
pub fn sort_rows(rows: Vec<Row>) -> Vec<Row>
    ensures rises { IsStrictlySortedBy row_order result.items }
    ensures members { (row : AnyRow) → Contains result.items row ↔ Contains rows.items row }
{
    sort_once(rows)
}
