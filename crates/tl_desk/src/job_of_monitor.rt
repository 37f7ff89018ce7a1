//! Jobs on windows of monitors.

ghost use Rattle.std.specs.Prelude.{◌≡◌, IfOk, IfErr};
ghost use Rattle.tl_desk.specs.MonitorJobs.{monitor_piece, IsMonitorDone, SameJob};
ghost use Rattle.tl_pieces.specs.Marks.{pass_of};

use crate::Piece;
use std::alloc::Global;
use std::marker::Model;
use tl_board::{Rows, Tally, WatchTask};
use tl_monitor::Monitor;
use tl_pieces::Stored;

/// A window of a monitor that went out to be checked with its monitor, and with its ticket. It must be spent, as a `Job`.
pub struct MonitorJob<M: Monitor> {
    ticket: u64,
    task: WatchTask<M>,
}

impl<M: Monitor> Model for MonitorJob<M> {
    ghost use Rattle.tl_desk.specs.MonitorJobs.{MonitorJobData};

    ghost Value = { MonitorJobData };

    ghost view = { λ j. record { ticket = j.ticket; task = j.task } };
}

impl<M: Monitor> MonitorJob<M> {
    /// A window that goes out under a ticket, with its monitor.
    pub fn new(ticket: u64, task: WatchTask<M>) -> MonitorJob<M>
        ensures { result ≡ record { ticket = ticket; task = task } }
    {
        MonitorJob { ticket, task }
    }

    /// The number of its ticket.
    pub fn ticket(&self) -> u64
        ensures { result ≡ self.now.ticket }
    {
        self.ticket
    }

    /// Whose window it is.
    pub fn piece(&self) -> Piece
        ensures { result ≡ monitor_piece self.now }
    {
        Piece::Monitor(self.task.number(), self.task.window())
    }

    /// The window with all that its check asks, its monitor too.
    pub fn task(&self) -> &WatchTask<M>
        ensures { result.now ≡ self.now.task }
    {
        &self.task
    }

    /// The ticket, and the window with its monitor.
    pub fn into_parts(self) -> (u64, WatchTask<M>)
        ensures ticket { result.0 ≡ self.ticket }
        ensures task { result.1 ≡ self.task }
    {
        let MonitorJob { ticket, task } = self;
        (ticket, task)
    }

    /// Gives the job up, and drops its monitor, which no edit has closed. Its desk hears nothing of it: the ticket stays out there,
    /// and live until it is recalled.
    pub fn forfeit(self) {
        let MonitorJob { ticket: _, task: _ } = self;
    }
}

/// A job on a window of a monitor that was checked. Its result is the pass of its own window, from the tally that it was to be
/// checked from, whoever checked it. It must be spent, as a job.
pub struct MonitorDone<M: Monitor> {
    job: MonitorJob<M>,
    stored: Stored<Tally, Rows>,
}

impl<M: Monitor> Model for MonitorDone<M> {
    ghost use Rattle.tl_desk.specs.MonitorJobs.{MonitorDoneData, IsMonitorDone};
    ghost use Rattle.tl_pieces.specs.Marks.{pass_of};

    ghost Value = { MonitorDoneData };

    ghost view = { λ d. record { job = d.job; result = pass_of d.stored } };

    ghost invariant = { λ d. IsMonitorDone (record { job = d.job; result = pass_of d.stored }) };
}

impl<M: Monitor> MonitorDone<M> {
    /// The number of its ticket.
    pub fn ticket(&self) -> u64
        ensures { result ≡ self.now.job.ticket }
    {
        self.job.ticket()
    }

    /// Whose window it is.
    pub fn piece(&self) -> Piece
        ensures { result ≡ monitor_piece self.now.job }
    {
        self.job.piece()
    }

    /// The job that was checked.
    pub fn job(&self) -> &MonitorJob<M>
        ensures exact { result.now ≡ self.now.job }
        ensures kept { IsMonitorDone self.now }
    {
        &self.job
    }

    /// The job again with its monitor, its result dropped. It takes no memory.
    pub fn back(self) -> MonitorJob<M>
        ensures { result ≡ self.job }
    {
        let MonitorDone { job, stored: _ } = self;
        job
    }

    /// The ticket, the window with its monitor, and the result.
    pub fn into_parts(self) -> (u64, WatchTask<M>, Stored<Tally, Rows>)
        ensures ticket { result.0 ≡ self.job.ticket }
        ensures task { result.1 ≡ self.job.task }
        ensures result { pass_of result.2 ≡ self.result }
        ensures kept { IsMonitorDone self }
    {
        let MonitorDone { job, stored } = self;
        let MonitorJob { ticket, task } = job;
        (ticket, task, stored)
    }

    /// Gives the job up with its result, as a job.
    pub fn forfeit(self) {
        self.back().forfeit();
    }
}

/// Checks a job. For want of memory the same job comes back, its monitor with the tally after some first of its beats, or with the
/// one that it had.
pub(crate) fn work_monitor<M: Monitor>(
    alloc: Global,
    job: MonitorJob<M>,
) -> Result<MonitorDone<M>, MonitorJob<M>>
    ensures ok { IfOk result (λ done. SameJob job done.job) }
    ensures err { IfErr result (SameJob job) }
{
    let mut job = job;
    match job.task.check(alloc) {
        Ok(stored) => Ok(MonitorDone { job, stored }),
        Err(_) => Err(job),
    }
}
