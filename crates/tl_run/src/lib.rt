//! The run of a script, and the audit of its edits.
#![tactic(auto)]

mod answer;
mod boxes;
mod coming;
pub mod laws;
mod lines;
mod making;
mod midway;
mod run;
mod runner;
mod session;
mod showing;

pub use answer::{Answer, answer_text};
pub use boxes::Boxes;
pub use coming::{ComingFault, carry_out_coming};
pub use making::{Maker, Making};
pub use run::{carry_out, run_nothing, run_script};
pub use runner::Runner;
pub use session::{CommandFault, Session};
pub use showing::Showing;
