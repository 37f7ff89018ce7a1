//! What monitors tell at their end.

use std::alloc::{AllocError, Global};
use tl_beats::Watch;

/// The line of what a monitor tells at its end: its number, its last watch, and the edit that closed it, or 0. AllocError where memory
/// is refused.
pub fn settlement_line(
    alloc: Global,
    number: u32,
    watch: Watch,
    closed_at: u64,
) -> Result<String, AllocError> {
    match watch {
        Watch::Budget { limit, .. } => {
            format!(in alloc; "settlement {number} budget {limit} closed {closed_at}\n")
        }
        Watch::After { .. } => {
            format!(in alloc; "settlement {number} after closed {closed_at}\n")
        }
    }
}
