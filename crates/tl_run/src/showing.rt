//! Runs whose reports are shown.

ghost use Rattle.std.specs.Prelude.{◌≡◌, [], true, IfOk, IfSome, length, string_bytes};
ghost use Rattle.tl_check.specs.Notes.{is_unbroken, IsNoted};
ghost use Rattle.tl_script.specs.Text.{IsCommand};
ghost use Rattle.tl_script.specs.Asked.{asked, asking};
ghost use Rattle.tl_run.specs.Output.{RunData};

use crate::answer::Answer;
use crate::runner::Runner;
use crate::session::CommandFault;
use std::alloc::{AllocError, Global};
use std::marker::Model;
use tl_edits::{Edit, EditFault, Log};
use tl_script::{Asked, Command, StopCause, edit_line, refusal_line};
use tl_show::{first_line, note, quoted, shown_report};
use tl_topology::Topo;

/// A run whose reports are shown. It keeps the edits that were accepted, since these tell what the rows of a report mean.
#[derive(Drop)]
pub struct Showing<S: Runner + Drop> {
    runner: S,
    log: Log,
}

impl<S: Runner + Drop> Model for Showing<S> {
    ghost use Rattle.tl_run.specs.Output.{RunData};

    ghost Value = { RunData };

    ghost view = { λ s. S.so_far s.runner };
}

impl<S: Runner + Drop> Showing<S> {
    /// The run, whose accepted edits are kept in this log.
    pub fn new(runner: S, log: Log) -> Showing<S>
        ensures { result ≡ S.so_far runner }
    {
        Showing { runner, log }
    }

    /// The run that was shown.
    pub fn into_runner(self) -> S
        ensures { S.so_far result ≡ self }
    {
        self.runner
    }
}

/// The edit that a command asks for, if it asks for one.
fn edit_of(asked: &Asked) -> Result<Option<Edit>, AllocError> {
    Ok(match asked {
        Asked::Change(change) => Some(Edit::Change(change.copy()?)),
        Asked::Attach(number, watch) => Some(Edit::Attach(*number, *watch)),
        Asked::NoFragment(_) | Asked::Report => None,
    })
}

/// Keeps an edit that was accepted. AllocError where memory is refused.
fn keep(log: &mut Log, edit: Edit) -> Result<(), AllocError> {
    match log.push(edit) {
        Err(EditFault::Memory) => Err(AllocError),
        Ok(_) | Err(_) => Ok(()),
    }
}

/// What is wrong where a script stops.
fn wrong_there(cause: StopCause) -> Option<&'static str>
    ensures { IfSome result (λ what. is_unbroken what.now ≡ true) }
{
    match cause {
        StopCause::Memory => None,
        StopCause::BadCommand => {
            Some("this is no command: tlcheck explain 41 has the form of each")
        }
        StopCause::Truncated => Some("the script ends inside this command"),
        StopCause::WrongBox => Some("the next monitor is missing or watches something else"),
    }
}

/// The line that a script stops at, and what is wrong there, as notes; none where memory was refused.
fn notes_of(alloc: Global, cause: StopCause, rest: &[u8]) -> Result<String, AllocError>
    ensures { IfOk result (λ notes. IsNoted [] (string_bytes notes)) }
{
    let Some(what) = wrong_there(cause) else {
        return Ok(String::new(alloc));
    };
    let own = note(alloc, quoted(first_line(rest)))?;
    let last = note(alloc, what)?;
    format!(in alloc; "{own}{last}")
}

impl<S: Runner + Drop> Runner for Showing<S> {
    ghost so_far = { λ s. s };

    ghost noted = { true };

    ghost supplies = { S.supplies };

    fn topo(&self) -> &Topo {
        self.runner.topo()
    }

    fn ask(&self, alloc: Global, command: &Command<'_>, left: usize) -> Result<Asked, AllocError>
        requires { IsCommand command.now }
        ensures { IfOk result (λ found. asking found ≡ asked command.now) }
    {
        self.runner.ask(alloc, command, left)
    }

    fn supply(&mut self, alloc: Global, command: &Command<'_>) -> Result<(), AllocError> {
        self.runner.supply(alloc, command)
    }

    fn answer(&mut self, alloc: Global, asked: Asked) -> Result<Answer, CommandFault> {
        let edit = edit_of(&asked)?;
        let answer = self.runner.answer(alloc, asked)?;
        if let Some(edit) = edit
            && matches!(answer, Answer::Edit(_))
        {
            keep(&mut self.log, edit)?;
        }
        Ok(answer)
    }

    fn text(&self, alloc: Global, answer: &Answer) -> Result<String, AllocError> {
        match answer {
            Answer::Edit(number) => edit_line(alloc, *number),
            Answer::Refused(code, number) => refusal_line(alloc, *code, *number),
            Answer::Report(report) => {
                let present = self.log.inputs().present();
                shown_report(alloc, self.runner.topo(), present, report)
            }
        }
    }

    fn stop_notes(&self, alloc: Global, cause: StopCause, rest: &[u8]) -> String {
        match notes_of(alloc, cause, rest) {
            Ok(notes) => notes,
            Err(_) => String::new(alloc),
        }
    }

    fn last_rows(&self) -> u64
        ensures { result ≡ length self.now.now.rows }
    {
        self.runner.last_rows()
    }
}
