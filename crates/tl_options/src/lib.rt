//! The words of the command line, and the entries that `explain` writes.
#![tactic(auto)]

mod capture;
mod doctor;
mod explain;
mod flow_entries;
mod format_entries;
mod merge;
mod midway;
mod permission_entries;
mod picture;
mod refusal_entries;
mod rule_entries;
mod stream;
mod usage;
mod view;
mod words;

pub use capture::Capture;
pub use explain::{entry_of, titles};
pub use picture::Picture;
pub use stream::StreamOptions;
pub use view::View;
pub use words::{AuditWords, Command, Deny, How, OnceWords, RunWords, Told, not_utf8, read_words};
