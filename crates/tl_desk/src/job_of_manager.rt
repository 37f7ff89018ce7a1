//! Jobs on windows of managers.

ghost use Rattle.std.specs.Prelude.{◌≡◌, IfOk, IfErr};
ghost use Rattle.tl_desk.specs.JobData.{piece_of, IsDone};
ghost use Rattle.tl_pieces.specs.Marks.{pass_of};

use crate::Piece;
use std::alloc::Global;
use std::marker::Model;
use tl_board::{Rows, SpanTask};
use tl_check::SpanState;
use tl_pieces::Stored;

/// A window of a manager that went out to be checked, with its ticket. It must be spent, as a `Job`.
pub struct ManagerJob {
    ticket: u64,
    task: SpanTask,
}

impl Model for ManagerJob {
    ghost use Rattle.std.specs.Coded.{codes};
    ghost use Rattle.tl_desk.specs.JobData.{JobData};
    ghost use Rattle.tl_check.specs.contracts.state.SpanState as state;

    ghost Value = { JobData };

    ghost coded = { Prim.hlevel (codes, state.the_row.coded) };

    ghost view = { λ j. record { ticket = j.ticket; task = j.task } };
}

impl ManagerJob {
    /// A window that goes out under a ticket.
    pub fn new(ticket: u64, task: SpanTask) -> ManagerJob
        ensures { result ≡ record { ticket = ticket; task = task } }
    {
        ManagerJob { ticket, task }
    }

    /// The number of its ticket.
    pub fn ticket(&self) -> u64
        ensures { result ≡ self.now.ticket }
    {
        self.ticket
    }

    /// Whose window it is.
    pub fn piece(&self) -> Piece
        ensures { result ≡ piece_of self.now }
    {
        Piece::Manager(self.task.manager(), self.task.window())
    }

    /// The window with all that its check asks.
    pub fn task(&self) -> &SpanTask
        ensures { result.now ≡ self.now.task }
    {
        &self.task
    }

    /// Gives the job up. Its desk hears nothing of it: the ticket stays out there, and live until it is recalled.
    pub fn forfeit(self) {
        let ManagerJob { ticket: _, task: _ } = self;
    }
}

/// A job on a window of a manager that was checked. Its result is the pass of its own window, from the state that it was to be
/// checked from, whoever checked it. It must be spent, as a job.
pub struct ManagerDone {
    job: ManagerJob,
    stored: Stored<SpanState, Rows>,
}

impl Model for ManagerDone {
    ghost use Rattle.std.specs.Coded.{codes};
    ghost use Rattle.tl_desk.specs.JobData.{DoneData, IsDone};
    ghost use Rattle.tl_pieces.specs.Marks.{pass_of};
    ghost use Rattle.tl_check.specs.contracts.state.SpanState as state;

    ghost Value = { DoneData };

    ghost coded = { Prim.hlevel (codes, state.the_row.coded) };

    ghost view = { λ d. record { job = d.job; result = pass_of d.stored } };

    ghost invariant = { λ d. IsDone (record { job = d.job; result = pass_of d.stored }) };
}

impl ManagerDone {
    /// The number of its ticket.
    pub fn ticket(&self) -> u64
        ensures { result ≡ self.now.job.ticket }
    {
        self.job.ticket()
    }

    /// Whose window it is.
    pub fn piece(&self) -> Piece
        ensures { result ≡ piece_of self.now.job }
    {
        self.job.piece()
    }

    /// The job that was checked.
    pub fn job(&self) -> &ManagerJob
        ensures exact { result.now ≡ self.now.job }
        ensures kept { IsDone self.now }
    {
        &self.job
    }

    /// The job again, with its result dropped. It takes no memory.
    pub fn back(self) -> ManagerJob
        ensures { result ≡ self.job }
    {
        let ManagerDone { job, stored: _ } = self;
        job
    }

    /// The ticket, the window and the result.
    pub fn into_parts(self) -> (u64, SpanTask, Stored<SpanState, Rows>)
        ensures ticket { result.0 ≡ self.job.ticket }
        ensures task { result.1 ≡ self.job.task }
        ensures result { pass_of result.2 ≡ self.result }
        ensures kept { IsDone self }
    {
        let ManagerDone { job, stored } = self;
        let ManagerJob { ticket, task } = job;
        (ticket, task, stored)
    }

    /// Gives the job up with its result, as a job.
    pub fn forfeit(self) {
        self.back().forfeit();
    }
}

/// Checks a job. For want of memory the same job comes back.
pub(crate) fn work_manager(alloc: Global, job: ManagerJob) -> Result<ManagerDone, ManagerJob>
    ensures ok { IfOk result (λ done. done.job ≡ job) }
    ensures err { IfErr result (λ back. back ≡ job) }
{
    match job.task.check(alloc) {
        Ok(stored) => Ok(ManagerDone { job, stored }),
        Err(_) => Err(job),
    }
}
