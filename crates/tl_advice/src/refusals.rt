//! What a script's run refused, and where it stopped, in sentences: the script is gone through once more.

ghost use Rattle.tl_script.specs.Text.{IsCommand};

use crate::advice::edit_cause;
use crate::places::{Line, Look, Place, Sentence};
use crate::sentences::{Before, Home, fragment_cause, line_of, stop_cause};
use std::alloc::{AllocError, Global};
use tl_beats::FragmentFault;
use tl_edits::{Edit, EditFault, Log};
use tl_script::{Asked, Command, ScriptFault, Spot, Visitor, asked_by, visit_all};
use tl_show::{first_line, line_at};
use tl_topology::Topo;

/// Why a command of a script changed nothing.
#[derive(Clone, Copy)]
enum Refusal {
    /// Its fragment's text is none.
    Text(FragmentFault),
    /// Its edit is refused.
    Edit(EditFault),
}

/// A script's file, and how it is told of.
#[derive(Clone, Copy)]
pub struct Script<'a> {
    /// The file, as the words name it.
    pub path: &'a str,
    /// The number of the line that the script begins with.
    pub first: u64,
    /// How many of its refused commands are told.
    pub most: u64,
    /// How the first line of a sentence looks.
    pub look: Look,
}

/// A command in its script.
#[derive(Clone, Copy)]
struct Mark<'a> {
    script: Script<'a>,
    /// The number of the command, from 1.
    command: u64,
    /// Its line.
    line: Line<'a>,
}

/// How many lines end in these bytes.
fn line_count(bytes: &[u8]) -> u64 {
    bytes.iter().filter(|byte| **byte == b'\n').count() as u64
}

/// Does the edit of a command, if it has one, and answers why it is refused.
fn refusal_of(
    alloc: Global,
    log: &mut Log,
    command: &Command<'_>,
) -> Result<Option<Refusal>, AllocError>
    requires { IsCommand command.now }
{
    let edit = match asked_by(alloc, command)? {
        Asked::Change(change) => Edit::Change(change),
        Asked::Attach(number, watch) => Edit::Attach(number, watch),
        Asked::NoFragment(fault) => return Ok(Some(Refusal::Text(fault))),
        Asked::Report => return Ok(None),
    };
    match log.push(edit) {
        Ok(_) => Ok(None),
        Err(EditFault::Memory) => Err(AllocError),
        Err(fault) => Ok(Some(Refusal::Edit(fault))),
    }
}

/// The sentence of a fragment's text after a command.
fn text_sentence(
    alloc: Global,
    mark: Mark<'_>,
    text: &[u8],
    fault: FragmentFault,
) -> Result<String, AllocError> {
    let number = line_of(fault);
    let own = Line {
        number,
        text: line_at(text, number),
    };
    let sentence = Sentence {
        path: mark.script.path,
        place: Place::Fragment {
            command: mark.command,
            line: mark.line,
            own,
        },
        cause: fragment_cause(text, fault, Home::Script),
        code: fault.code(),
        look: mark.script.look,
    };
    sentence.text(alloc)
}

/// The sentence of an edit that is refused.
fn edit_sentence(
    alloc: Global,
    mark: Mark<'_>,
    text: &[u8],
    fault: EditFault,
    topo: &Topo,
) -> Result<String, AllocError> {
    let command = mark.command;
    let line = mark.line;
    let place = if text.is_empty() {
        Place::Command { command, line }
    } else {
        let own = Line {
            number: 1,
            text: first_line(text),
        };
        Place::Fragment { command, line, own }
    };
    let sentence = Sentence {
        path: mark.script.path,
        place,
        cause: edit_cause(fault, topo),
        code: fault.code(),
        look: mark.script.look,
    };
    sentence.text(alloc)
}

/// Puts the sentence of a refused command after a text; these bytes follow its line.
fn push_refusal(
    alloc: Global,
    mark: Mark<'_>,
    bytes: &[u8],
    refusal: Refusal,
    topo: &Topo,
    text: &mut String,
) -> Result<(), AllocError> {
    let sentence = match refusal {
        Refusal::Text(fault) => text_sentence(alloc, mark, bytes, fault)?,
        Refusal::Edit(fault) => edit_sentence(alloc, mark, bytes, fault, topo)?,
    };
    text.push_str(sentence.as_str())
}

/// The sentence of a stop before the rest of a script.
fn stop_sentence(
    alloc: Global,
    mark: Mark<'_>,
    rest: &[u8],
    before: Before,
    fault: ScriptFault,
) -> Result<String, AllocError> {
    let sentence = Sentence {
        path: mark.script.path,
        place: Place::Command {
            command: mark.command,
            line: mark.line,
        },
        cause: stop_cause(rest, before, fault),
        code: fault.code(),
        look: mark.script.look,
    };
    sentence.text(alloc)
}

/// What a command leaves before the next one.
fn before_next(command: &Command<'_>) -> Before {
    if command.bytes().is_empty() {
        Before::Command
    } else {
        Before::Fragment
    }
}

/// The sentences of a script's refused commands.
#[derive(Drop)]
struct Refusals<'a> {
    alloc: Global,
    script: Script<'a>,
    /// What the commands so far left.
    log: Log,
    /// The number of the next command's line.
    number: u64,
    /// What stands before it.
    before: Before,
    /// How many commands were refused.
    refused: u64,
    text: String,
}

impl<'a> Refusals<'a> {
    /// Those before the first command of a script.
    fn new(alloc: Global, topo: &Topo, script: Script<'a>) -> Result<Refusals<'a>, AllocError> {
        Ok(Refusals {
            alloc,
            script,
            log: Log::new(alloc, topo.copy(alloc)?)?,
            number: script.first,
            before: Before::Nothing,
            refused: 0,
            text: String::new(alloc),
        })
    }

    /// A command before which this is left of the script.
    fn mark<'t>(&self, script: Script<'t>, command: u64, rest: &'t [u8]) -> Mark<'t> {
        Mark {
            script,
            command,
            line: Line {
                number: self.number,
                text: first_line(rest),
            },
        }
    }
}

impl<'a, 's> Visitor<'s> for Refusals<'a> {
    ghost has_seen = { λ _ _ _. Unit {0} };

    fn visit(&mut self, command: &Command<'s>, spot: Spot<'s>) -> Result<(), AllocError> {
        let mark = self.mark(self.script, spot.number, spot.rest);
        if let Some(refusal) = refusal_of(self.alloc, &mut self.log, command)? {
            self.refused = self.refused.saturating_add(1);
            if self.refused <= self.script.most {
                let topo = self.log.inputs().topo();
                let bytes = command.bytes();
                push_refusal(self.alloc, mark, bytes, refusal, topo, &mut self.text)?;
            }
        }
        self.before = before_next(command);
        let own = spot.rest.get(..spot.taken).unwrap_or(spot.rest);
        self.number = self.number.saturating_add(line_count(own));
        Ok(())
    }
}

/// What the run of a script refused, the first of it, and where it stopped, in sentences; empty where it did neither. AllocError
/// where memory is refused.
pub fn script_sentences(
    alloc: Global,
    topo: &Topo,
    bytes: &[u8],
    script: Script<'_>,
) -> Result<String, AllocError> {
    let mut refusals = Refusals::new(alloc, topo, script)?;
    let end = visit_all(bytes, &mut refusals)?;
    if let Some(fault) = end.fault {
        let mark = refusals.mark(script, end.commands.saturating_add(1), end.rest);
        let sentence = stop_sentence(alloc, mark, end.rest, refusals.before, fault)?;
        refusals.text.push_str(sentence.as_str())?;
    }
    let refused = refusals.refused;
    let most = script.most;
    if 0 < most && most < refused {
        let last = format!(in alloc;
            "  {refused} commands were refused; these are the first {most}\n"
        )?;
        refusals.text.push_str(last.as_str())?;
    }
    Ok(refusals.text)
}
