//! The desk, and what is read of it.

ghost use Rattle.std.specs.Prelude.{◌≡◌, ◌++◌, map, length, IfOk, IfErr, IfSome, OnOk, None, Some};
ghost use Rattle.std.specs.Bool.{Decides};
ghost use Rattle.std.specs.Option.{option_map};
ghost use Rattle.tl_board.specs.Spans as spans;
ghost use Rattle.tl_board.specs.Watches.{AreWatches};
ghost use Rattle.tl_monitor.specs.Boxes.{IsBoxes, told, here_in, first_out};
ghost use Rattle.tl_desk.specs.Core.{log_of, standing, latest_of, report_of, AllSettled, AreLinked, IsOfEdits, IsNew, IsSound, IsDesk};
ghost use Rattle.tl_desk.specs.Ends.{HaveEnded, AllHaveEnded};

use crate::tickets::Tickets;
use std::alloc::{AllocError, Global};
use std::marker::Model;
use tl_board::Watches;
use tl_check::Report;
use tl_edits::Log;
use tl_monitor::{Boxes, Monitor, Settlement};
use tl_topology::Topo;

/// A log of edits, with the windows of all managers and of all monitors that are attached, these monitors, and all reports that
/// were published; and the tickets that are out. Each of its reports is that of the edits that it names.
#[derive(Drop)]
pub struct Desk<M: Monitor> {
    pub(crate) windows: Watches,
    pub(crate) boxes: Boxes<M>,
    pub(crate) reports: Vec<Report>,
    pub(crate) tickets: Tickets,
}

impl<M: Monitor> Model for Desk<M> {
    ghost use Rattle.std.specs.Coded.{codes};
    ghost use Rattle.tl_check.specs.contracts.state.SpanState as state;
    ghost use Rattle.tl_desk.specs.Core.{Core, IsSound};

    ghost Value = { Core };

    ghost coded = { Prim.hlevel (codes, state.the_row.coded) };

    ghost view = { λ d. record { windows = d.windows; boxes = d.boxes; reports = d.reports.items; tickets = d.tickets } };

    ghost invariant = { λ d. IsSound (record { windows = d.windows; boxes = d.boxes; reports = d.reports.items; tickets = d.tickets }) };
}

impl<M: Monitor> Desk<M> {
    /// A desk without edits, monitors and reports. AllocError where memory is refused.
    pub fn new(alloc: Global, topo: Topo) -> Result<Desk<M>, AllocError>
        ensures { IfOk result (IsNew topo) }
    {
        Ok(Desk {
            windows: Watches::new(alloc, topo)?,
            boxes: Boxes::new(alloc),
            reports: Vec::new(alloc),
            tickets: Tickets::new(alloc),
        })
    }

    /// The log of accepted edits.
    pub fn log(&self) -> &Log
        ensures exact { result.now ≡ log_of self.now }
        // Each report is that of its edits, and each live ticket is out for its window, which is since then what it was.
        ensures kept { IsSound self.now }
        // Each result that is stored is the pass of its window by what stands, from its own entry.
        ensures managers { spans.IsSound self.now.windows.spans }
        ensures monitors { AreWatches (standing self.now) self.now.windows.board }
        // All of this, and that keys, owners and numbers rise.
        ensures desk { IsDesk self.now }
    {
        // The numbers of monitors rise.
        let _ = self.boxes.settlements();
        let windows = self.windows.spans();
        windows.log()
    }

    /// Whether every window has a result, and each begins with what the one before it ended with. It walks nothing.
    pub fn settled(&self) -> bool
        ensures { Decides result (AllSettled self.now) }
    {
        self.windows.settled()
    }

    /// The last report that was published. It names a number of edits, and its rows are exactly those that the definitions find in
    /// what these leave.
    pub fn latest(&self) -> Option<&Report>
        ensures last { option_map (λ r. r.now) result ≡ latest_of self.now.reports }
        ensures exact { IfSome result (λ report. IsOfEdits (log_of self.now) report.now) }
        // The topology has the links of its rows.
        ensures links { IfSome result (λ report. AreLinked self.now.windows.spans.log.topo report.now.rows) }
    {
        self.reports.last()
    }

    /// The report of a version, from 1. It names a number of edits, and its rows are exactly those that the definitions find in
    /// what these leave.
    pub fn report(&self, version: u64) -> Option<&Report>
        ensures found { option_map (λ r. r.now) result ≡ report_of version self.now.reports }
        ensures version { IfSome result (λ report. report.now.version ≡ version) }
        ensures exact { IfSome result (λ report. IsOfEdits (log_of self.now) report.now) }
        // The topology has the links of its rows.
        ensures links { IfSome result (λ report. AreLinked self.now.windows.spans.log.topo report.now.rows) }
    {
        let place = version.checked_sub(1)?;
        self.reports.get(place as usize)
    }

    /// What each monitor told that ended, with its number, in the order of their ends.
    pub fn settlements(&self) -> &[(u32, Settlement)]
        ensures exact { result.now ≡ self.now.boxes.ended }
        // Each monitor that ended is neither here nor out. It told once what it had just before the edit that detached it, with that
        // edit's number; one that is out and was detached meanwhile is to end so.
        ensures once { HaveEnded (log_of self.now) self.now.boxes }
        // The numbers of monitors rise.
        ensures kept { IsBoxes self.now.boxes }
    {
        self.boxes.settlements()
    }

    /// Ends all monitors, in the order of their numbers, with the number of the last edit, and answers the log, with what each
    /// monitor told that ended, before or now. Where a monitor is out with a job the same desk comes back, with the lowest number of
    /// such a one.
    pub fn finish(self) -> Result<(Log, Vec<(u32, Settlement)>), (Desk<M>, u32)>
        ensures here { OnOk result (first_out self.boxes.slots ≡ None) }
        ensures log { IfOk result (λ done. done.0 ≡ log_of self) }
        ensures told { IfOk result (λ done. done.1.items ≡ self.boxes.ended ++ map (λ e. (e.0, told e.1 (length (log_of self).edits))) (here_in self.boxes.slots)) }
        // Each monitor told once: what it had just before the edit that detached it, with that edit's number, or what it had at the
        // end, with that of the last edit.
        ensures once { IfOk result (λ done. AllHaveEnded (log_of self) done.1.items) }
        ensures out { IfErr result (λ back. first_out self.boxes.slots ≡ Some back.1) }
        ensures back { IfErr result (λ back. back.0 ≡ self) }
        // The numbers of monitors rise.
        ensures boxes { IsBoxes self.boxes }
    {
        if let Some(number) = self.first_away() {
            return Err((self, number));
        }
        let Desk {
            windows,
            boxes,
            reports: _,
            tickets: _,
        } = self;
        let log = windows.into_log();
        let told = boxes.finish(log.len());
        Ok((log, told))
    }

    /// The lowest number of a monitor that is out.
    pub(crate) fn first_away(&self) -> Option<u32>
        ensures exact { result ≡ first_out self.now.boxes.slots }
        // The numbers of monitors rise.
        ensures boxes { IsBoxes self.now.boxes }
    {
        // The numbers of monitors rise.
        let _ = self.boxes.settlements();
        self.boxes.first_away()
    }
}
