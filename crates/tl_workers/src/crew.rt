//! The run of a script on a hall that workers call too.

ghost use Rattle.std.specs.Prelude.{◌≡◌, false, IfOk, IfErr, OnOk, length};
ghost use Rattle.std.specs.Result.{IsErrOf};
ghost use Rattle.tl_edits.specs.Edits.{plain_change, attach};
ghost use Rattle.tl_desk.specs.declared.call.Call.TheVariants as call;
ghost use Rattle.tl_hall.specs.Passes.{Made, NoMore, Looked, IsRefused};
ghost use Rattle.tl_script.specs.Text.{IsCommand};
ghost use Rattle.tl_script.specs.Asked.{asked, asking, an_edit, a_report};
ghost use Rattle.tl_run.specs.Output.{text_of, IsLinked, IsStep, TakesBox, LacksBox};
ghost use Rattle.tl_workers.specs.Crew.{HasPublished, IsUnpublished};

use crate::shift::Shift;
use crate::windows::check_wanted;
use std::alloc::{AllocError, Global};
use std::marker::Model;
use std::sync::Wait;
use std::thread::yield_now;
use tl_beats::Watch;
use tl_check::Report;
use tl_desk::PublishFault;
use tl_edits::{Change, EditFault};
use tl_hall::{Gate, Hall, Pass};
use tl_monitor::Monitor;
use tl_run::{Answer, Boxes, CommandFault, Runner, answer_text};
use tl_script::{Asked, Command, StopCause, asked_by};
use tl_topology::Topo;

/// A run on a hall of its own, in which all others only help: its pass, which is here between two calls, the monitors that no
/// command has attached yet, the next one first, and the last report.
#[derive(Drop)]
pub(crate) struct Crew<'x, 'h, 't, 's, R: Wait, M: Monitor, G: Gate> {
    pub(crate) rt: &'x R,
    pub(crate) topo: &'x Topo,
    pub(crate) hall: &'h Hall<M>,
    pub(crate) shift: &'t Shift<'s, 'x, G>,
    pub(crate) pass: Option<Pass<M>>,
    pub(crate) boxes: Boxes<M>,
    pub(crate) last: Option<Report>,
}

impl<'x, 'h, 't, 's, R: Wait, M: Monitor, G: Gate> Model for Crew<'x, 'h, 't, 's, R, M, G> {
    ghost use Rattle.tl_run.specs.Output.{RunData, whole};
    ghost use Rattle.tl_workers.specs.Crew.{Leads, progress_in, seen_in, rows_in};

    ghost Value = { RunData };

    ghost view = { λ c. record { setting = whole c.topo.now; now = progress_in (seen_in c.pass) (rows_in c.last); boxes = c.boxes } };

    ghost invariant = { λ c. Leads c.hall.now c.topo.now c.pass };
}

/// The manager whose beats an edit brings.
fn manager_of(topo: &Topo, change: &Change) -> Option<u16> {
    match change {
        Change::Add(fragment) | Change::Replace(fragment) => {
            let number = topo.link_of(&fragment.link())?;
            Some(topo.link(number)?.manager)
        }
        _ => None,
    }
}

/// Attaches a monitor, which is dropped where that is refused.
fn attach_one<R: Wait, M: Monitor>(
    rt: &R,
    alloc: Global,
    hall: &Hall<M>,
    pass: Pass<M>,
    number: u32,
    monitor: M,
) -> (Pass<M>, Result<u64, EditFault>)
    requires { pass.hall ≡ hall.now.hall }
    ensures ok { IfOk result.1 (λ edit. Made pass (call.Attach number (M.held monitor).watch edit) NoMore result.0) }
    ensures err { IfErr result.1 (λ fault. Looked pass (IsRefused (attach number (M.held monitor).watch) fault) result.0) }
{
    let (pass, answer) = hall.attach(rt, alloc, pass, number, monitor);
    match answer {
        Ok(edit) => (pass, Ok(edit)),
        Err((fault, _)) => (pass, Err(fault)),
    }
}

/// Publishes once all windows are settled, with the workers' help. NotReady never comes.
fn published<R: Wait, M: Monitor, G: Gate>(
    rt: &R,
    alloc: Global,
    hall: &Hall<M>,
    pass: Pass<M>,
    shift: &Shift<'_, '_, G>,
) -> (Pass<M>, Result<u64, PublishFault>)
    requires { pass.hall ≡ hall.now.hall }
    ensures ok { IfOk result.1 (λ version. HasPublished pass version result.0) }
    ensures err { IfErr result.1 (λ fault. IsUnpublished pass fault result.0) }
{
    let mut pass = pass;
    for _ in rt.forever() {
        let (next, answer) = hall.publish(rt, alloc, pass);
        pass = next;
        match answer {
            Ok(version) => return (pass, Ok(version)),
            Err(PublishFault::NotReady) => shift.open(),
            Err(PublishFault::VersionFull) => return (pass, Err(PublishFault::VersionFull)),
            Err(PublishFault::Memory) => return (pass, Err(PublishFault::Memory)),
        }
        let (next, is_enough) = check_wanted(rt, alloc, hall, pass, shift);
        pass = next;
        if !is_enough {
            return (pass, Err(PublishFault::Memory));
        }
        yield_now();
    }
    unreachable!()
}

impl<'x, 'h, 't, 's, R: Wait, M: Monitor, G: Gate> Crew<'x, 'h, 't, 's, R, M, G> {
    /// What comes of an edit that brings no monitor.
    fn change(&mut self, alloc: Global, change: Change) -> Result<Answer, AllocError>
        ensures setting { self.new.setting ≡ self.old.setting }
        ensures boxes { self.new.boxes ≡ self.old.boxes }
        ensures step { IfOk result (λ found. IsStep self.old.setting self.old.now (an_edit (plain_change change)) (text_of self.old.setting.topo found) self.new.now) }
        ensures links { IfOk result (IsLinked self.old.setting.topo) }
    {
        let manager = manager_of(self.topo, &change);
        let pass = self.pass.take().unwrap();
        let (pass, answer) = self.hall.submit(self.rt, alloc, pass, change);
        self.pass = Some(pass);
        if answer.is_ok() {
            self.shift.edited(manager);
        }
        Answer::of_edit(answer)
    }

    /// What comes of the attachment of the next monitor.
    fn attach(&mut self, alloc: Global, number: u32, watch: Watch) -> Result<Answer, CommandFault>
        ensures setting { self.new.setting ≡ self.old.setting }
        ensures boxes { OnOk result (TakesBox self.old.boxes (an_edit (attach number watch)) self.new.boxes) }
        ensures lacks { IsErrOf result CommandFault.WrongBox → LacksBox self.old.boxes (an_edit (attach number watch)) × (self.new ≡ self.old) }
        ensures step { IfOk result (λ found. IsStep self.old.setting self.old.now (an_edit (attach number watch)) (text_of self.old.setting.topo found) self.new.now) }
        ensures links { IfOk result (IsLinked self.old.setting.topo) }
    {
        let Some(monitor) = self.boxes.next(&watch) else {
            return Err(CommandFault::WrongBox);
        };
        let pass = self.pass.take().unwrap();
        let (pass, answer) = attach_one(self.rt, alloc, self.hall, pass, number, monitor);
        self.pass = Some(pass);
        Ok(Answer::of_edit(answer)?)
    }

    /// A report of all edits, or the refusal of one more.
    fn publish(&mut self, alloc: Global) -> Result<Answer, AllocError>
        ensures setting { self.new.setting ≡ self.old.setting }
        ensures boxes { self.new.boxes ≡ self.old.boxes }
        ensures step { IfOk result (λ found. IsStep self.old.setting self.old.now a_report (text_of self.old.setting.topo found) self.new.now) }
        ensures links { IfOk result (IsLinked self.old.setting.topo) }
    {
        let pass = self.pass.take().unwrap();
        let (pass, answer) = published(self.rt, alloc, self.hall, pass, self.shift);
        self.shift.rest();
        match answer {
            Ok(_) => {
                let (pass, found) = self.hall.read(self.rt, pass);
                self.pass = Some(pass);
                match found {
                    Ok(Some(report)) => {
                        self.last = Some(report.copy()?);
                        Ok(Answer::Report(report))
                    }
                    Ok(None) => unreachable!(),
                    Err(_) => Err(AllocError),
                }
            }
            Err(PublishFault::Memory) => {
                self.pass = Some(pass);
                Err(AllocError)
            }
            Err(PublishFault::VersionFull) => {
                self.pass = Some(pass);
                Ok(Answer::Refused(PublishFault::VersionFull.code(), None))
            }
            Err(PublishFault::NotReady) => unreachable!(),
        }
    }
}

impl<'x, 'h, 't, 's, R: Wait, M: Monitor, G: Gate> Runner for Crew<'x, 'h, 't, 's, R, M, G> {
    ghost so_far = { λ c. c };

    ghost noted = { false };

    ghost supplies = { false };

    fn topo(&self) -> &Topo {
        self.topo
    }

    fn ask(&self, alloc: Global, command: &Command<'_>, left: usize) -> Result<Asked, AllocError>
        requires { IsCommand command.now }
        ensures { IfOk result (λ found. asking found ≡ asked command.now) }
    {
        self.shift.came_to_command();
        match self.shift.texts.asked(self.rt, alloc, left, command) {
            Some(asked) => Ok(asked),
            None => asked_by(alloc, command),
        }
    }

    fn supply(&mut self, _alloc: Global, _command: &Command<'_>) -> Result<(), AllocError> {
        Ok(())
    }

    #[tactic(auto, unfolding(tl_run::specs::Output::IsStep))]
    fn answer(&mut self, alloc: Global, asked: Asked) -> Result<Answer, CommandFault> {
        match asked {
            Asked::Change(change) => Ok(self.change(alloc, change)?),
            Asked::Attach(number, watch) => self.attach(alloc, number, watch),
            Asked::NoFragment(fault) => Ok(Answer::Refused(fault.code(), fault.number())),
            Asked::Report => Ok(self.publish(alloc)?),
        }
    }

    fn text(&self, alloc: Global, answer: &Answer) -> Result<String, AllocError> {
        answer_text(alloc, self.topo, answer)
    }

    fn stop_notes(&self, alloc: Global, _cause: StopCause, _rest: &[u8]) -> String {
        String::new(alloc)
    }

    fn last_rows(&self) -> u64
        ensures { result ≡ length self.now.now.rows }
    {
        match &self.last {
            Some(report) => report.rows().len() as u64,
            None => 0,
        }
    }
}
