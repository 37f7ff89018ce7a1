//! Rules of a user's own: monitors, and where those of a desk are.
#![tactic(auto)]

mod after;
mod away;
mod boxed;
mod boxes;
mod budget;
mod check;
pub mod laws;
mod monitor;
mod slot;
mod watch;
mod watched;

pub use after::After;
pub use away::Away;
pub use boxes::Boxes;
pub use budget::Budget;
pub use check::{Checked, monitor_check};
pub use monitor::{Monitor, Settlement};
pub use watched::Watched;
