//! A monitor that is out.

use tl_beats::Watch;

/// A monitor that is out with a job.
#[derive(Clone, Copy, Debug, PartialEq, Eq)]
pub struct Away {
    /// The ticket of the job.
    pub ticket: u64,
    /// The watch that it left with.
    pub taken: Watch,
    /// The watch that it is to have when it comes back: the one that it left with, with the last limit.
    pub watch: Watch,
    /// The number of the edit that detached it meanwhile, from 1 on.
    pub closing: Option<u64>,
}
