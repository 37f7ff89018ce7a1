//! What a rule or a refusal means, in the words of `docs/RULES.md`.

use crate::refusal_entries;
use crate::rule_entries::rule_entry;
use std::alloc::{AllocError, Global};
use tl_rows::rule_named;
use tl_tables::RULES;
use tl_text::decimal;

/// The greatest number that a word of a refusal's code may spell.
const MOST_CODE: u64 = 255;

/// The entry of the refusal with this code, if there is one.
fn refusal_entry(code: u64) -> Option<&'static str> {
    let entry = match code {
        1 => refusal_entries::BAD_LINE,
        2 => refusal_entries::NAME_TWICE,
        3 => refusal_entries::BAD_WIDTH,
        4 => refusal_entries::BAD_BLOCK,
        5 => refusal_entries::NO_MANAGER,
        6 => refusal_entries::TOO_MANY_LINKS,
        7 => refusal_entries::REGION_OVERLAP,
        8 => refusal_entries::NO_REGION,
        9 => refusal_entries::TOO_MANY_MANAGERS,
        10 => refusal_entries::BAD_SIZE,
        11 => refusal_entries::BAD_HEADER,
        12 => refusal_entries::BAD_FIELD,
        13 => refusal_entries::NOT_RISING,
        14 => refusal_entries::OUT_OF_RANGE,
        15 => refusal_entries::TRUNCATED,
        16 => refusal_entries::TOO_MANY_BEATS,
        17 => refusal_entries::READ_FAULT,
        18 => refusal_entries::TOO_LONG,
        19 => refusal_entries::WRITE_FAULT,
        20 => refusal_entries::MEMORY,
        21 => refusal_entries::UNKNOWN_LINK,
        22 => refusal_entries::FRAGMENT_EXISTS,
        23 => refusal_entries::NO_FRAGMENT,
        24 => refusal_entries::RANGE_OVERLAP,
        25 => refusal_entries::REGION_OVERLAP_OF_EDIT,
        26 => refusal_entries::NO_REGION_OF_EDIT,
        27 => refusal_entries::MONITOR_EXISTS,
        28 => refusal_entries::NO_MONITOR,
        29 => refusal_entries::WRONG_KIND,
        30 => refusal_entries::LOG_FULL,
        31 => refusal_entries::NOT_READY,
        32 => refusal_entries::VERSION_FULL,
        33 => refusal_entries::BOX_OUT,
        34 => refusal_entries::TICKETS_SPENT,
        35 => refusal_entries::UNKNOWN_MANAGER,
        36 => refusal_entries::WRONG_BOX,
        37 => refusal_entries::STRICT_LEVEL,
        41 => refusal_entries::BAD_COMMAND,
        42 => refusal_entries::SCRIPT_TRUNCATED,
        43 => refusal_entries::NO_SUCH_EDIT,
        44 => refusal_entries::FILE_TOO_LONG,
        45 => refusal_entries::FILE_FAULT,
        _ => return None,
    };
    Some(entry)
}

/// The entry of the rule with this name in any case, or of the refusal with this code in decimal; None for any other word.
pub fn entry_of(word: &str) -> Option<&'static str> {
    match rule_named(word.as_bytes()) {
        Some(rule) => Some(rule_entry(rule)),
        None => refusal_entry(decimal(word.as_bytes(), MOST_CODE)?),
    }
}

/// Puts the first line of an entry after a text.
fn push_title(text: &mut String, entry: &str) -> Result<(), AllocError> {
    let title = entry.lines().next().unwrap_or("");
    text.push_str(title)?;
    text.push('\n')
}

/// Puts the first line of each refusal's entry after a text.
fn push_refusals(text: &mut String) -> Result<(), AllocError> {
    for code in 0..=MOST_CODE {
        if let Some(entry) = refusal_entry(code) {
            push_title(text, entry)?;
        }
    }
    Ok(())
}

/// The first line of each entry: those of the rules, then those of the refusals. AllocError where memory is refused.
pub fn titles(alloc: Global) -> Result<String, AllocError> {
    let mut text = String::new(alloc);
    for rule in &RULES {
        push_title(&mut text, rule_entry(*rule))?;
    }
    push_refusals(&mut text)?;
    Ok(text)
}
