//! The rows of what beats break.

ghost use Rattle.std.specs.Prelude.{◌≡◌, ◌++◌, map, OnOk};
ghost use Rattle.tl_definitions.specs.Breaks.{row_of};

use std::alloc::AllocError;
use tl_beats::{Placed, Row};
use tl_link_rules::RuleList;

/// Puts the rows of one beat at the end. Most beats have none.
#[inline]
pub fn add_rows(rows: &mut Vec<Row>, at: &Placed, rules: &RuleList) -> Result<(), AllocError>
    ensures { OnOk result (rows.new.items ≡ rows.old.items ++ map (row_of at.now) rules.now) }
{
    if rules.as_slice().is_empty() {
        return Ok(());
    }
    put_rows(rows, at, rules)
}

/// Puts a row of each rule at the end.
#[cold]
#[inline(never)]
fn put_rows(rows: &mut Vec<Row>, at: &Placed, rules: &RuleList) -> Result<(), AllocError>
    ensures { OnOk result (rows.new.items ≡ rows.old.items ++ map (row_of at.now) rules.now) }
{
    for rule in rules.as_slice() {
        rows.push(Row {
            link: at.link,
            cycle: at.beat.cycle,
            chan: at.beat.chan,
            rule: *rule,
            monitor: None,
            fragment: at.fragment,
            line: at.line,
        })?;
    }
    Ok(())
}
