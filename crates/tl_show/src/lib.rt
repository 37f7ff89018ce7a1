//! Rows shown: each beside its beat in words, the earlier beat that makes it so, and what was expected.
#![tactic(auto)]

mod expected;
mod form;
mod lines;
mod quote;
mod shown;
mod streaming;
mod survey;
mod trail;

pub use form::{Shown, note};
pub use quote::{first_line, line_at, lines_from, quoted};
pub use shown::{shown_audit, shown_report, shown_row};
pub use streaming::ShownStream;
pub use survey::{Counts, Survey, survey_beats};
