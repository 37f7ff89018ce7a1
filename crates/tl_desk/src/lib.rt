//! The desk: a log of edits with the windows of managers and monitors, the monitors themselves, all reports, and the tickets of windows
//! that are out to be checked, each as a job with its check.
#![tactic(auto)]

mod call;
mod desk;
mod edits;
mod fault;
mod job;
mod job_of_manager;
mod job_of_monitor;
mod jobs;
pub mod laws;
mod manager_jobs;
mod monitor_jobs;
mod oldest;
mod piece;
mod places;
mod play;
mod publish;
mod recheck;
mod take_fault;
mod tickets;

pub use call::{Call, Outcome, Start};
pub use desk::Desk;
pub use fault::{PublishFault, RecheckFault};
pub use job::{Done, HandIn, Job, work};
pub use job_of_manager::{ManagerDone, ManagerJob};
pub use job_of_monitor::{MonitorDone, MonitorJob};
pub use piece::Piece;
pub use play::{Reply, Step};
pub use take_fault::TakeFault;
pub use tl_board::is_watch;
pub use tl_check::Report;
