//! A row by its name, and what it is drawn as.

ghost use Rattle.std.specs.Prelude.{◌≡◌, find};
ghost use Rattle.tl_rows.specs.Choice.{is_named};

use tl_beats::Row;
use tl_tables::{Rule, rule_number};

/// A row as a report names it, on a link.
#[derive(Clone, Copy, Debug, PartialEq, Eq)]
pub struct RowName {
    /// The number of its fragment.
    pub fragment: u32,
    /// The line of its beat in the fragment's text; the header is line 1.
    pub line: u32,
    /// The rule that the beat breaks.
    pub rule: Rule,
}

/// What a row is drawn as.
#[derive(Clone, Copy, Debug, PartialEq, Eq)]
pub enum Drawing {
    /// Text: a ladder.
    Ladder,
    /// An image, as SVG.
    Image,
    /// A waveform, as a Value Change Dump.
    Waveform,
}

/// Whether a row is the one of this name on this link.
fn is_named(link: u16, name: &RowName, row: &Row) -> bool
    ensures { result ≡ is_named link name.now row.now }
{
    row.link == link
        && row.fragment == name.fragment
        && row.line == name.line
        && rule_number(row.rule) == rule_number(name.rule)
}

/// The first of these rows with this name on the link with this number; None where there is none.
pub fn row_named(rows: &[Row], link: u16, name: &RowName) -> Option<Row>
    ensures { result ≡ find (is_named link name.now) rows.now }
{
    rows.iter().copied().find(|row| is_named(link, name, row))
}
