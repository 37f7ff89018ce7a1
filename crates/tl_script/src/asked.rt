//! What a command asks for.

ghost use Rattle.std.specs.Prelude.{◌≡◌, ◌≤◌, IfOk, length};
ghost use Rattle.std.specs.Arc.{arc_value};
ghost use Rattle.tl_text.specs.Words.{lines_of};
ghost use Rattle.tl_beats.specs.Reading.{whole_fragment_in};
ghost use Rattle.tl_script.specs.Text.{IsCommand};
ghost use Rattle.tl_script.specs.Asked.{asked, asking, read_as};

use crate::{Command, Text};
use std::alloc::{AllocError, Global};
use std::sync::Arc;
use tl_beats::{Fragment, FragmentFault, Watch, parse_whole_fragment};
use tl_edits::Change;

/// What a command asks for.
#[derive(Drop)]
pub enum Asked {
    /// An edit that brings no monitor.
    Change(Change),
    /// The attachment of a monitor of this number and watch.
    Attach(u32, Watch),
    /// An edit with a fragment, whose text is none.
    NoFragment(FragmentFault),
    /// A report.
    Report,
}

/// The fragment that the bytes of a command are, or why they are none. AllocError where memory is refused.
pub fn fragment_of(
    alloc: Global,
    text: &Text<'_>,
) -> Result<Result<Arc<Fragment>, FragmentFault>, AllocError>
    requires { length text.now ≤ 8388608 }
    ensures { IfOk result (λ read. read_as arc_value read ≡ whole_fragment_in (lines_of text.now)) }
{
    match parse_whole_fragment(alloc, text.as_bytes()) {
        Ok(fragment) => Ok(Ok(Arc::new(alloc, fragment)?)),
        Err(FragmentFault::Memory) => Err(AllocError),
        Err(fault) => Ok(Err(fault)),
    }
}

/// What a command asks for. AllocError where memory is refused.
#[tactic(auto, unfolding(crate::specs::Asked::asked, crate::specs::Text::IsCommand))]
pub fn asked_by(alloc: Global, command: &Command<'_>) -> Result<Asked, AllocError>
    requires { IsCommand command.now }
    ensures { IfOk result (λ found. asking found ≡ asked command.now) }
{
    let change = match command {
        Command::Add(text) => match fragment_of(alloc, text)? {
            Ok(fragment) => Change::Add(fragment),
            Err(fault) => return Ok(Asked::NoFragment(fault)),
        },
        Command::Replace(text) => match fragment_of(alloc, text)? {
            Ok(fragment) => Change::Replace(fragment),
            Err(fault) => return Ok(Asked::NoFragment(fault)),
        },
        Command::Withdraw { link, number } => Change::Withdraw(*link, *number),
        Command::Clear { link } => Change::ClearLink(*link),
        Command::SetRegion {
            manager,
            number,
            region,
        } => Change::SetRegion(*manager, *number, *region),
        Command::RemoveRegion { manager, number } => Change::RemoveRegion(*manager, *number),
        Command::Retune { number, limit } => Change::Retune(*number, *limit),
        Command::Detach { number } => Change::Detach(*number),
        Command::Attach { number, watch } => {
            return Ok(Asked::Attach(*number, *watch));
        }
        Command::Publish => return Ok(Asked::Report),
    };
    Ok(Asked::Change(change))
}
