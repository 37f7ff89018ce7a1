//! Edits of captures, regions and monitors: the log of those that were accepted, and what the first of them leave.
#![tactic(auto)]

mod accepted;
mod edit;
mod fault;
mod inputs;
mod log;
mod refused;

pub use edit::{Change, Edit};
pub use fault::{EditFault, PastFault};
pub use inputs::Inputs;
pub use log::Log;
