//! Rows: beats and rules in words, the earlier beat that makes a row, and what is asked of rows: which, and how they are written.
#![tactic(auto)]

mod beat_words;
mod counts;
mod cycles;
mod format;
pub mod laws;
mod link;
mod manager;
mod names;
mod openers;
mod origin;
mod reason;
mod row_name;
mod rule_names;
mod telling;

pub use beat_words::{beat_text, bytes_text};
pub use counts::{OpenCounts, Opened};
pub use cycles::Cycles;
pub use format::Format;
pub use manager::ManagerOrigins;
pub use names::{chan_text, op_text, param_text};
pub use origin::Origin;
pub use reason::Reason;
pub use row_name::{Drawing, RowName, row_named};
pub use rule_names::rule_named;
pub use telling::{Telling, Told, tell};
