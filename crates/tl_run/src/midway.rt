//! The reports of a run whose capture begins in the middle of another one.

ghost use Rattle.std.specs.Prelude.{◌≡◌, IfOk};
ghost use Rattle.std.specs.Option.{option_map};
ghost use Rattle.tl_run.specs.Output.{IsLinked};
ghost use Rattle.tl_run.specs.Sessions.{LastIsLinked, PublishesOwn, no_reports};

use crate::answer::Answer;
use std::alloc::{AllocError, Global};
use tl_check::Report;
use tl_desk::PublishFault;
use tl_edits::Log;
use tl_midway::{Midway, midway_report};

/// As many reports as are published in all.
const MOST_REPORTS: u64 = 65_536;

/// The reports of a run whose capture begins in the middle of another one. Each is made anew of what the edits leave.
#[derive(Drop)]
pub(crate) struct MidwayReports {
    /// The law by which their rows stand.
    law: Midway,
    /// How many were published, at most 65,536.
    count: u64,
    /// The last one.
    last: Option<Report>,
}

impl MidwayReports {
    /// Without one.
    pub(crate) fn new(law: Midway) -> MidwayReports
        ensures { result ≡ no_reports law }
    {
        MidwayReports {
            law,
            count: 0,
            last: None,
        }
    }

    /// The last one.
    pub(crate) fn last(&self) -> Option<&Report>
        ensures { option_map (λ r. r.now) result ≡ self.now.last }
    {
        self.last.as_ref()
    }

    /// A report more of what these edits leave, or the refusal of one. AllocError where memory is refused.
    pub(crate) fn publish(&mut self, alloc: Global, log: &Log) -> Result<Answer, AllocError>
        ensures law { self.new.law ≡ self.old.law }
        ensures publishes { IfOk result (λ found. PublishesOwn log.now self.old found self.new) }
        ensures links { IfOk result (IsLinked log.now.topo) }
        ensures linked { LastIsLinked log.now.topo self.old → LastIsLinked log.now.topo self.new }
    {
        if self.count >= MOST_REPORTS {
            return Ok(Answer::Refused(PublishFault::VersionFull.code(), None));
        }
        let rows = midway_report(alloc, log.inputs(), self.law)?;
        let report = Report::new(alloc, self.count + 1, log.len(), rows)?;
        self.last = Some(report.copy()?);
        self.count += 1;
        Ok(Answer::Report(report))
    }
}
