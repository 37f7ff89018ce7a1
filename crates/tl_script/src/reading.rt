//! A script from its first command on.

ghost use Rattle.std.specs.Prelude.{◌≡◌, ◌≤◌, ◌<◌, ◌++◌, ℕ, List, Some, Ok, IfOk, IfSome, length, take, drop};
ghost use Rattle.tl_script.specs.Reading.{carried_at, command_behind, command_in};
ghost use Rattle.tl_script.specs.Text.{command_text, IsCommand};
ghost use Rattle.tl_script.specs.declared.command.Command.{Command as SpecCommand};
ghost use Rattle.tl_script.specs.Scripts.{attached, commands_of};

use crate::command::{Command, Text};
use crate::fault::ScriptFault;
use crate::line::order_of;
use crate::visiting::{Spot, Visitor, visit_all};
use std::alloc::{AllocError, Global};
use tl_beats::Watch;
use tl_text::{decimal, line, word};

/// The most bytes of a fragment's text.
const MOST_BYTES: u64 = 8_388_608;

/// The bytes after a line, as many as its last word says.
fn carried<'a>(number: &[u8], behind: &'a [u8]) -> Result<Text<'a>, ScriptFault>
    ensures { result ≡ carried_at number.now behind.now }
{
    let Some(count) = decimal(number, MOST_BYTES) else {
        return Err(ScriptFault::BadCommand);
    };
    let count = count as usize;
    if behind.len() < count {
        Err(ScriptFault::Truncated)
    } else {
        Ok(Text::new(&behind[..count]))
    }
}

/// The command of a line, with the bytes that follow it.
#[tactic(auto, unfolding(crate::specs::Reading::command_behind))]
fn command_of<'a>(line: &[u8], behind: &'a [u8]) -> Result<Command<'a>, ScriptFault>
    ensures { result ≡ command_behind line.now behind.now }
{
    if line == b"publish".as_slice() {
        return Ok(Command::Publish);
    }
    let Some((kind, words)) = word(line) else {
        return Err(ScriptFault::BadCommand);
    };
    if kind == b"add".as_slice() {
        Ok(Command::Add(carried(words, behind)?))
    } else if kind == b"replace".as_slice() {
        Ok(Command::Replace(carried(words, behind)?))
    } else {
        match order_of(kind, words) {
            Some(command) => Ok(command),
            None => Err(ScriptFault::BadCommand),
        }
    }
}

#[tactic(auto, unfolding(crate::specs::Reading::command_in))]
fn front_of(script: &[u8]) -> Result<Option<(Command<'_>, usize)>, ScriptFault>
    ensures { result ≡ command_in script.now }
{
    if script.is_empty() {
        return Ok(None);
    }
    let Some((first, behind)) = line(script) else {
        return Err(ScriptFault::Truncated);
    };
    let command = command_of(first, behind)?;
    let taken = first.len() + 1 + command.bytes().len();
    Ok(Some((command, taken)))
}

/// The first command of what is left of a script, and how many bytes it takes: those of its line, its newline and the
/// bytes that follow. None where nothing is left. `Truncated` where the line has no newline, whatever it says, or fewer
/// bytes follow a lawful `add` or `replace` than its number; `BadCommand` where the line is none of a command.
pub fn read_command(script: &[u8]) -> Result<Option<(Command<'_>, usize)>, ScriptFault>
    ensures exact { result ≡ command_in script.now }
    ensures taken { IfOk result (λ read. IfSome read (λ x. (0 < x.1) × (x.1 ≤ length script.now))) }
    // What is read was the one spelling of the command.
    ensures found { IfOk result (λ read. IfSome read (λ x. take x.1 script.now ≡ command_text x.0)) }
    // Where the spelling of a command stands at the front, that command is read.
    ensures only { (c : SpecCommand) (rest : List ℕ) → IsCommand c → script.now ≡ command_text c ++ rest → result ≡ Ok (Some (c, length (command_text c))) }
{
    front_of(script)
}

/// The lines that attach monitors.
#[derive(Drop)]
struct AttachLines {
    all: Vec<(u32, Watch)>,
}

impl<'s> Visitor<'s> for AttachLines {
    ghost use Rattle.std.specs.Prelude.{◌≡◌, ◌++◌, filter_map};
    ghost use Rattle.tl_script.specs.Commands.{monitor_of};

    ghost has_seen = { λ first now before. now.all.items ≡ first.all.items ++ filter_map monitor_of before };

    fn visit(&mut self, command: &Command<'s>, _spot: Spot<'s>) -> Result<(), AllocError> {
        if let Some(monitor) = command.monitor() {
            self.all.push(monitor)?;
        }
        Ok(())
    }
}

/// The number and the watch of each line that attaches a monitor, in order, up to the end of the script or its first bad
/// command. AllocError where memory is refused.
pub fn monitors_of(alloc: Global, script: &[u8]) -> Result<Vec<(u32, Watch)>, AllocError>
    ensures { IfOk result (λ all. all.items ≡ attached (commands_of script.now)) }
{
    let mut lines = AttachLines {
        all: Vec::new(alloc),
    };
    visit_all(script, &mut lines)?;
    Ok(lines.all)
}
