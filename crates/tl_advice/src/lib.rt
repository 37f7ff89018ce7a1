//! Faults in sentences: where each is, what was found there, and what would be right; the summary at the end of a run;
//! and what looks wrong in a topology or in how a capture was made.
#![tactic(auto)]

mod advice;
mod causes;
mod doctor;
mod fields;
mod fits;
mod forms;
mod fronts;
mod kinds;
mod links;
mod places;
mod refusals;
mod sentences;
mod summary;
mod tallies;

pub use advice::edit_cause;
pub use causes::{Advice, Cause};
pub use doctor::{Diagnosis, diagnose};
pub use kinds::kind_of;
pub use places::{Line, Look, More, Place, Sentence};
pub use refusals::{Script, script_sentences};
pub use sentences::{Home, fragment_cause, length_cause, line_of, topology_cause};
pub use summary::{report_summary, run_summary};
pub use tl_show::line_at;
