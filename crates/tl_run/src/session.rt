//! What a run has come to, and the lines of one command more.

ghost use Rattle.std.specs.Prelude.{◌≡◌, ◌∷◌, ◌++◌, [], IfOk, IfSome, OnOk, OnErr, None, length};
ghost use Rattle.std.specs.Result.{IsErrOf};
ghost use Rattle.std.specs.Option.{option_map_or};
ghost use Rattle.tl_edits.specs.Edits.{plain_change, attach};
ghost use Rattle.tl_desk.specs.Core.{AllHere, AreLinked, log_of};
ghost use Rattle.tl_desk.specs.Ends.{AllHaveEnded};
ghost use Rattle.tl_run.specs.Boxes.{watches_in};
ghost use Rattle.tl_script.specs.Asked.{asking, an_edit, a_report};
ghost use Rattle.tl_run.specs.Output.{start, text_of, IsLinked, IsStep, TakesBox, LacksBox};
ghost use Rattle.tl_run.specs.Sessions.{progress_of, setting_by};
ghost use Rattle.tl_run.specs.declared.session.CommandFault.TheVariants.{Memory};

use crate::answer::Answer;
use crate::boxes::Boxes;
use crate::midway::MidwayReports;
use std::alloc::{AllocError, Global};
use std::marker::Model;
use thiserror::Error;
use tl_beats::Watch;
use tl_check::Report;
use tl_desk::{Desk, PublishFault, RecheckFault};
use tl_edits::{Change, EditFault};
use tl_midway::Midway;
use tl_monitor::{Monitor, Settlement};
use tl_script::Asked;
use tl_topology::Topo;

/// Why a command has no lines.
#[derive(Clone, Copy, Debug, Drop, Error, PartialEq, Eq)]
pub enum CommandFault {
    /// It attaches a monitor, and there is no next one that has its watch.
    #[error("the next monitor is missing or another")]
    WrongBox,
    /// A growth was refused.
    #[error("out of memory")]
    Memory,
}

impl From<AllocError> for CommandFault {
    ghost from_gives = { λ _ e. e ≡ Memory };

    fn from(_error: AllocError) -> CommandFault {
        CommandFault::Memory
    }
}

/// A desk with the edits that were accepted and the reports that were published, which gives no jobs, so that each of its monitors
/// is here; and the monitors that no command has attached yet, the next one first. Where its capture begins in the middle of another
/// run it has reports of its own, and its desk has none.
#[derive(Drop)]
pub struct Session<M: Monitor> {
    desk: Desk<M>,
    boxes: Boxes<M>,
    own: Option<MidwayReports>,
}

impl<M: Monitor> Model for Session<M> {
    ghost use Rattle.tl_run.specs.Output.{RunData};
    ghost use Rattle.tl_run.specs.Sessions.{progress_by, setting_by, IsSession};

    ghost Value = { RunData };

    ghost view = { λ s. record { setting = setting_by s.own s.desk; now = progress_by s.own s.desk; boxes = s.boxes } };

    ghost invariant = { λ s. IsSession s.desk s.own };
}

/// A report of all edits of a desk, or the refusal of one more.
#[tactic(auto, unfolding(crate::specs::Output::IsStep))]
fn publish_on<M: Monitor>(alloc: Global, desk: &mut Desk<M>) -> Result<Answer, AllocError>
    requires { AllHere desk.old.boxes }
    ensures here { AllHere desk.new.boxes }
    ensures setting { setting_by None desk.new ≡ setting_by None desk.old }
    ensures step { IfOk result (λ found. IsStep (setting_by None desk.old) (progress_of desk.old) a_report (text_of (log_of desk.old).topo found) (progress_of desk.new)) }
    ensures links { IfOk result (IsLinked (log_of desk.old).topo) }
{
    match desk.recheck_now(alloc) {
        Ok(_) => match desk.publish(alloc) {
            Ok(version) => Ok(Answer::Report(desk.report(version).unwrap().copy()?)),
            Err(PublishFault::Memory) => Err(AllocError),
            Err(fault) => Ok(Answer::Refused(fault.code(), None)),
        },
        Err(RecheckFault::Memory) => Err(AllocError),
        Err(RecheckFault::BoxOut(_)) => unreachable!(),
    }
}

impl<M: Monitor> Session<M> {
    /// One without edits and reports, with the monitors that commands are to attach, in their order; with a law where its capture
    /// begins in the middle of another run. AllocError where memory is refused.
    pub fn new(
        alloc: Global,
        topo: &Topo,
        midway: Option<Midway>,
        boxes: Vec<M>,
    ) -> Result<Session<M>, AllocError>
        ensures { IfOk result (λ session. session ≡ record { setting = record { topo = topo.now; midway = midway }; now = start; boxes = watches_in M.held boxes.items }) }
    {
        Ok(Session {
            desk: Desk::new(alloc, topo.copy(alloc)?)?,
            boxes: Boxes::new(boxes),
            own: midway.map(MidwayReports::new),
        })
    }

    /// Lends it a monitor, which comes after those that no command has attached. AllocError, with nothing changed, where memory is
    /// refused: the monitor is then dropped.
    pub fn lend(&mut self, monitor: M) -> Result<(), AllocError>
        ensures setting { self.new.setting ≡ self.old.setting }
        ensures now { self.new.now ≡ self.old.now }
        ensures ok { OnOk result (self.new.boxes ≡ self.old.boxes ++ (M.held monitor).watch ∷ []) }
        ensures err { OnErr result (self.new ≡ self.old) }
    {
        self.boxes.put(monitor)
    }

    /// Its topology.
    pub fn topo(&self) -> &Topo
        ensures { result.now ≡ self.now.setting.topo }
    {
        self.desk.log().inputs().topo()
    }

    /// The last report, if there is one.
    pub fn last(&self) -> Option<&Report>
        ensures rows { self.now.now.rows ≡ option_map_or (λ r. r.now.rows) result [] }
        ensures links { IfSome result (λ report. AreLinked self.now.setting.topo report.now.rows) }
    {
        match &self.own {
            Some(own) => own.last(),
            None => self.desk.latest(),
        }
    }

    /// How many rows the last report has; 0 without a report.
    pub fn last_rows(&self) -> u64
        ensures { result ≡ length self.now.now.rows }
    {
        match self.last() {
            Some(report) => report.rows().len() as u64,
            None => 0,
        }
    }

    /// What comes of an edit that brings no monitor.
    #[tactic(auto, unfolding(crate::specs::Output::IsStep))]
    fn change(&mut self, alloc: Global, change: Change) -> Result<Answer, AllocError>
        ensures setting { self.new.setting ≡ self.old.setting }
        ensures boxes { self.new.boxes ≡ self.old.boxes }
        ensures step { IfOk result (λ found. IsStep self.old.setting self.old.now (an_edit (plain_change change)) (text_of self.old.setting.topo found) self.new.now) }
        ensures links { IfOk result (IsLinked self.old.setting.topo) }
    {
        match self.desk.edit(alloc, change) {
            Ok(number) => Ok(Answer::Edit(number)),
            Err(EditFault::Memory) => Err(AllocError),
            Err(fault) => Ok(Answer::Refused(fault.code(), fault.number())),
        }
    }

    /// What comes of the attachment of the next monitor.
    #[tactic(auto, unfolding(crate::specs::Output::IsStep))]
    fn attach(&mut self, alloc: Global, number: u32, watch: Watch) -> Result<Answer, CommandFault>
        ensures setting { self.new.setting ≡ self.old.setting }
        ensures boxes { OnOk result (TakesBox self.old.boxes (an_edit (attach number watch)) self.new.boxes) }
        ensures lacks { IsErrOf result CommandFault.WrongBox → LacksBox self.old.boxes (an_edit (attach number watch)) × (self.new ≡ self.old) }
        ensures step { IfOk result (λ found. IsStep self.old.setting self.old.now (an_edit (attach number watch)) (text_of self.old.setting.topo found) self.new.now) }
        ensures links { IfOk result (IsLinked self.old.setting.topo) }
    {
        let Some(monitor) = self.boxes.next(&watch) else {
            return Err(CommandFault::WrongBox);
        };
        match self.desk.attach(alloc, number, monitor) {
            Ok(edit) => Ok(Answer::Edit(edit)),
            Err((EditFault::Memory, _)) => Err(CommandFault::Memory),
            Err((fault, _)) => Ok(Answer::Refused(fault.code(), fault.number())),
        }
    }

    /// A report of all edits, or the refusal of one more.
    #[tactic(auto, unfolding(crate::specs::Output::IsStep))]
    fn publish(&mut self, alloc: Global) -> Result<Answer, AllocError>
        ensures setting { self.new.setting ≡ self.old.setting }
        ensures boxes { self.new.boxes ≡ self.old.boxes }
        ensures step { IfOk result (λ found. IsStep self.old.setting self.old.now a_report (text_of self.old.setting.topo found) self.new.now) }
        ensures links { IfOk result (IsLinked self.old.setting.topo) }
    {
        match &mut self.own {
            Some(own) => own.publish(alloc, self.desk.log()),
            None => publish_on(alloc, &mut self.desk),
        }
    }

    /// What comes of one command more. WrongBox, with nothing changed, where it attaches a monitor and the next one is missing or
    /// watches something else; Memory where memory is refused: the run is then at its end. The monitor of an attachment that is
    /// refused is dropped.
    #[tactic(auto, unfolding(crate::specs::Output::IsStep))]
    pub fn answer(&mut self, alloc: Global, asked: Asked) -> Result<Answer, CommandFault>
        ensures setting { self.new.setting ≡ self.old.setting }
        ensures boxes { OnOk result (TakesBox self.old.boxes (asking asked) self.new.boxes) }
        ensures lacks { IsErrOf result CommandFault.WrongBox → LacksBox self.old.boxes (asking asked) × (self.new ≡ self.old) }
        ensures step { IfOk result (λ found. IsStep self.old.setting self.old.now (asking asked) (text_of self.old.setting.topo found) self.new.now) }
        ensures links { IfOk result (IsLinked self.old.setting.topo) }
    {
        match asked {
            Asked::Change(change) => Ok(self.change(alloc, change)?),
            Asked::Attach(number, watch) => self.attach(alloc, number, watch),
            Asked::NoFragment(fault) => Ok(Answer::Refused(fault.code(), fault.number())),
            Asked::Report => Ok(self.publish(alloc)?),
        }
    }

    /// Ends the run: each monitor that is still attached is closed with the number of the last edit, and all are dropped. Answers
    /// what each monitor told, with its number: one that was detached what it had just before that, with the number of that edit,
    /// and one that is still attached what it has now, with the number of the last edit.
    pub fn finish(self) -> Vec<(u32, Settlement)>
        ensures { AllHaveEnded (record { topo = self.setting.topo; edits = self.now.edits }) result.items }
    {
        let Session { desk, boxes, own } = self;
        drop(own);
        drop(boxes);
        match desk.finish() {
            Ok((_, told)) => told,
            Err(_) => unreachable!(),
        }
    }
}
