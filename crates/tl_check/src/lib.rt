//! Checking: one window from any state, a manager from the beginning, links apart; and reports.
#![tactic(auto)]

mod apart;
mod beside;
mod checking;
mod clean;
mod form;
mod links;
mod managers;
mod once;
mod plain_laws;
mod report;
mod requests;
mod row_form;
mod rows;
mod sorted;
mod standing;
mod state;
mod walked;
mod watching;
pub mod window_laws;

pub use apart::PlainLink;
pub use beside::Judges;
pub use checking::check_all;
pub use form::{Form, Plain};
pub use managers::{are_plain, has_caches};
pub use once::{OnceFault, all_added, run_once, run_once_as, run_once_beside};
pub use plain_laws::guarded_reports_are_coherent;
pub use report::{Report, audit_head, audit_text, head_text, listed, report_text, row_text};
pub use row_form::{Completed, PlainRows, RowForm};
pub use rows::add_rows;
pub use sorted::sort_rows;
pub use standing::{audit, scratch};
pub use state::SpanState;
pub use tl_beats::{Placed, Row};
pub use walked::{check_window, go_on};
pub use watching::watches_rows;
