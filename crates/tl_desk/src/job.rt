//! Jobs, and the check of one.

ghost use Rattle.std.specs.Prelude.{◌≡◌, IfOk, IfErr};
ghost use Rattle.tl_desk.specs.Works.{ticket_of, window_of, done_ticket, done_window, job_of, IsChecked, IsDoneFrom, ComesBack};

use crate::Piece;
use crate::job_of_manager::{ManagerDone, ManagerJob, work_manager};
use crate::job_of_monitor::{MonitorDone, MonitorJob, work_monitor};
use std::alloc::Global;
use tl_monitor::Monitor;

/// A window that went out to be checked, with its ticket. It must be spent: by `work`, by its desk, which takes it back, or by
/// `forfeit`. It can't be let go.
pub enum Job<M: Monitor> {
    /// A window of a manager.
    Manager(ManagerJob),
    /// A window of a monitor, with the monitor itself.
    Monitor(MonitorJob<M>),
}

impl<M: Monitor> Job<M> {
    /// The number of its ticket.
    pub fn ticket(&self) -> u64
        ensures { result ≡ ticket_of self.now }
    {
        match self {
            Job::Manager(job) => job.ticket(),
            Job::Monitor(job) => job.ticket(),
        }
    }

    /// Whose window it is.
    pub fn piece(&self) -> Piece
        ensures { result ≡ window_of self.now }
    {
        match self {
            Job::Manager(job) => job.piece(),
            Job::Monitor(job) => job.piece(),
        }
    }

    /// Gives the job up; a monitor is dropped, and no edit has closed it. Its desk hears nothing of it: the ticket stays out there,
    /// and live until it is recalled.
    pub fn forfeit(self) {
        match self {
            Job::Manager(job) => job.forfeit(),
            Job::Monitor(job) => job.forfeit(),
        }
    }
}

/// A job that was checked. Its result is the pass of its own window, from what it was to be checked from, whoever checked it. It
/// must be spent, as a job.
pub enum Done<M: Monitor> {
    /// A window of a manager.
    Manager(ManagerDone),
    /// A window of a monitor, with the monitor itself.
    Monitor(MonitorDone<M>),
}

impl<M: Monitor> Done<M> {
    /// The number of its ticket.
    pub fn ticket(&self) -> u64
        ensures { result ≡ done_ticket self.now }
    {
        match self {
            Done::Manager(done) => done.ticket(),
            Done::Monitor(done) => done.ticket(),
        }
    }

    /// Whose window it is.
    pub fn piece(&self) -> Piece
        ensures { result ≡ done_window self.now }
    {
        match self {
            Done::Manager(done) => done.piece(),
            Done::Monitor(done) => done.piece(),
        }
    }

    /// The job again, with its result dropped. It takes no memory.
    pub fn back(self) -> Job<M>
        ensures { result ≡ job_of self }
    {
        match self {
            Done::Manager(done) => Job::Manager(done.back()),
            Done::Monitor(done) => Job::Monitor(done.back()),
        }
    }

    /// Gives the job up with its result, as a job.
    pub fn forfeit(self) {
        match self {
            Done::Manager(done) => done.forfeit(),
            Done::Monitor(done) => done.forfeit(),
        }
    }
}

/// Checks a job: its ticket and its window stay, and so does a monitor but for its tally. For want of memory the same job comes
/// back, a monitor with the tally after some first of its beats, or with the one that it had.
pub fn work<M: Monitor>(alloc: Global, job: Job<M>) -> Result<Done<M>, Job<M>>
    ensures ok { IfOk result (IsDoneFrom job) }
    ensures pass { IfOk result IsChecked }
    ensures err { IfErr result (ComesBack job) }
{
    match job {
        Job::Manager(job) => match work_manager(alloc, job) {
            Ok(done) => Ok(Done::Manager(done)),
            Err(job) => Err(Job::Manager(job)),
        },
        Job::Monitor(job) => match work_monitor(alloc, job) {
            Ok(done) => Ok(Done::Monitor(done)),
            Err(job) => Err(Job::Monitor(job)),
        },
    }
}

/// What a desk makes of a job that comes back checked.
pub enum HandIn<M: Monitor> {
    /// The result is of what stands, and the ticket was the window's live one.
    Taken,
    /// The ticket was out, and the result stands for nothing any more.
    Void,
    /// The ticket isn't out at this desk: the job comes back.
    Stranger(Done<M>),
}
