//! Scripts: their commands, what each asks for, the edits that are accepted, and audits of them.
#![tactic(auto)]

mod asked;
mod audit;
mod command;
mod fault;
mod input;
pub mod laws;
mod line;
mod reading;
mod replies;
mod role;
mod stop;
mod visiting;

pub use asked::{Asked, asked_by, fragment_of};
pub use audit::{AuditFault, audit_script, audit_script_as, audit_script_beside, log_of};
pub use command::{Command, Text};
pub use fault::ScriptFault;
pub use input::read_script;
pub use reading::{monitors_of, read_command};
pub use replies::{edit_line, refusal_line};
pub use role::Role;
pub use stop::{Outcome, Stop, StopCause};
pub use visiting::{End, Spot, Visitor, visit_all};
