//! Reports are published.

ghost use Rattle.std.specs.Prelude.{◌≡◌, ◌≤◌, ◌<◌, IfOk, OnErr, length};
ghost use Rattle.std.specs.Result.{IsErrOf};
ghost use Rattle.tl_definitions.specs.Report.{IsReport};
ghost use Rattle.tl_check.specs.Captured.{captures_after};
ghost use Rattle.tl_desk.specs.Core.{log_of, standing, most_versions, AllSettled, AreLinked};
ghost use Rattle.tl_desk.specs.Steps.{Step};
ghost use Rattle.tl_desk.specs.declared.call.Call.TheVariants as call;

use crate::desk::Desk;
use crate::fault::PublishFault;
use std::alloc::{AllocError, Global};
use tl_beats::Row;
use tl_check::Report;
use tl_monitor::Monitor;

/// As many reports as are published in all.
const MOST_VERSIONS: usize = 65_536;

impl<M: Monitor> Desk<M> {
    /// Publishes the report of all edits and answers its version, from 1. NotReady where some window is not settled; VersionFull
    /// where 65,536 reports were published; Memory where neither stands and memory is refused. Then nothing has changed.
    pub fn publish(&mut self, alloc: Global) -> Result<u64, PublishFault>
        ensures step { IfOk result (λ version. Step self.old (call.Publish version) self.new) }
        ensures ready { IsErrOf result PublishFault.NotReady → AllSettled self.old → ⊥ }
        ensures full { IsErrOf result PublishFault.VersionFull → AllSettled self.old × (length self.old.reports ≡ most_versions) }
        ensures memory { IsErrOf result PublishFault.Memory → AllSettled self.old × (length self.old.reports < most_versions) }
        ensures err { OnErr result (self.new ≡ self.old) }
    {
        if !self.settled() {
            return Err(PublishFault::NotReady);
        }
        if self.reports.len() >= MOST_VERSIONS {
            return Err(PublishFault::VersionFull);
        }
        let version = self.reports.len() as u64 + 1;
        let rows = self.found(alloc)?;
        let report = Report::new(alloc, version, self.log().len(), rows)?;
        self.reports.push(report)?;
        Ok(version)
    }

    /// The rows of all windows, in the order of reports.
    fn found(&self, alloc: Global) -> Result<Vec<Row>, AllocError>
        requires { AllSettled self.now }
        ensures exact { IfOk result (λ rows. IsReport (captures_after (standing self.now)) rows.items) }
        ensures links { IfOk result (λ rows. AreLinked (log_of self.now).topo rows.items) }
    {
        self.windows.rows(alloc)
    }
}
