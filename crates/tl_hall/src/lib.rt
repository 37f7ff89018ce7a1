//! A hall: a desk that threads call in turn, with one history of all calls that changed it.
#![tactic(auto)]

mod calls;
mod entry;
mod hall;
mod jobs;
pub mod laws;
mod passes;
mod rule;
mod working;

pub use entry::{Entry, View};
pub use hall::{Access, All, Hall, Helper, Note, Pass, Rights, Windows};
pub use rule::HallRule;
pub use working::{Gate, Round, WorkCount, work_once, worker};
