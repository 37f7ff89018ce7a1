//! Rows as the text of a report tells them.

ghost use Rattle.std.specs.Prelude.{◌≡◌, ◌<◌, ℕ, IfOk, map};
ghost use Rattle.std.specs.List.{All};
ghost use Rattle.tl_formats.specs.Merging.{as_row};

use crate::report_line::ReportLine;
use std::alloc::{AllocError, Global};
use tl_beats::Row;
use tl_tables::{Chan, Rule, rule_number};

/// A row as its line tells it, which says nothing of its beat's cycle and channel.
#[derive(Clone, Copy, Debug, PartialEq, Eq)]
pub struct ReportRow {
    /// The number of its link.
    pub link: u16,
    /// The number of its fragment.
    pub fragment: u32,
    /// The line of its beat in the fragment's text, from 1.
    pub line: u32,
    /// The rule that its beat breaks.
    pub rule: Rule,
    /// The monitor of an X1.
    pub monitor: Option<u32>,
}

impl ReportRow {
    /// A row with this line, of a beat of which no more is known.
    pub(crate) fn as_row(&self) -> Row
        ensures { result ≡ as_row self.now }
    {
        Row {
            link: self.link,
            cycle: 0,
            chan: Chan::A,
            rule: self.rule,
            monitor: self.monitor,
            fragment: self.fragment,
            line: self.line,
        }
    }
}

impl ReportLine for ReportRow {
    ghost row_link = { λ row. row.link };

    fn link(&self) -> u16 {
        self.link
    }

    /// The fragments of a link may have any order, which the text of a report doesn't tell.
    fn is_after(&self, before: &ReportRow) -> bool {
        if self.link != before.link {
            return self.link > before.link;
        }
        if self.fragment != before.fragment {
            return true;
        }
        if self.line != before.line {
            return self.line > before.line;
        }
        if self.rule != before.rule {
            return rule_number(self.rule) > rule_number(before.rule);
        }
        self.monitor > before.monitor
    }
}

/// Rows with these lines. AllocError where memory is refused.
pub(crate) fn as_rows(alloc: Global, rows: &[ReportRow]) -> Result<Vec<Row>, AllocError>
    ensures exact { IfOk result (λ made. made.items ≡ map as_row rows.now) }
    ensures links { (count : ℕ) → All (λ row. row.link < count) rows.now → IfOk result (λ made. All (λ row. row.link < count) made.items) }
{
    let mut made = Vec::new(alloc);
    for row in rows {
        made.push(row.as_row())?;
    }
    Ok(made)
}
