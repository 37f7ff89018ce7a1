//! The entry of each rule, as docs/entries wrote it from docs/RULES.md.

use crate::{flow_entries, format_entries, permission_entries};
use tl_tables::Rule;

/// The entry of a rule.
pub(crate) fn rule_entry(rule: Rule) -> &'static str {
    match rule {
        Rule::F1 => format_entries::F1,
        Rule::F2 => format_entries::F2,
        Rule::F3 => format_entries::F3,
        Rule::F4 => format_entries::F4,
        Rule::F5 => format_entries::F5,
        Rule::F6 => format_entries::F6,
        Rule::F7 => format_entries::F7,
        Rule::F8 => format_entries::F8,
        Rule::F9 => format_entries::F9,
        Rule::F10 => format_entries::F10,
        Rule::U1 => format_entries::U1,
        Rule::S1 => flow_entries::S1,
        Rule::S2 => flow_entries::S2,
        Rule::S3 => flow_entries::S3,
        Rule::S4 => flow_entries::S4,
        Rule::S5 => flow_entries::S5,
        Rule::S6 => flow_entries::S6,
        Rule::S7 => flow_entries::S7,
        Rule::S8 => flow_entries::S8,
        Rule::S9 => flow_entries::S9,
        Rule::P1 => permission_entries::P1,
        Rule::P2 => permission_entries::P2,
        Rule::P3 => permission_entries::P3,
        Rule::P4 => permission_entries::P4,
        Rule::P5 => permission_entries::P5,
        Rule::P6 => permission_entries::P6,
        Rule::P7 => permission_entries::P7,
        Rule::P8 => permission_entries::P8,
        Rule::M1 => permission_entries::M1,
        Rule::M2 => permission_entries::M2,
        Rule::M3 => permission_entries::M3,
        Rule::X1 => permission_entries::X1,
    }
}
