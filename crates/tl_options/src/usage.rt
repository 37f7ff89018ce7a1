//! Commands, options and words as clap takes them.

use clap::{Arg, ArgAction, Command};
use std::alloc::{AllocError, Global};

/// A command with one more argument.
fn with_arg<'a>(
    command: Result<Command<'a>, AllocError>,
    arg: Arg<'a>,
) -> Result<Command<'a>, AllocError> {
    command?.arg(arg)
}

/// A program with one more command.
fn with_command<'a>(
    program: Result<Command<'a>, AllocError>,
    command: Result<Command<'a>, AllocError>,
) -> Result<Command<'a>, AllocError> {
    program?.subcommand(command?)
}

/// A command while it is made; whether memory was refused is told at its end.
#[derive(Drop)]
pub(crate) struct Draft<'a> {
    /// The command so far.
    command: Result<Command<'a>, AllocError>,
}

impl<'a> Draft<'a> {
    /// A command to which arguments and commands are added.
    pub(crate) fn new(command: Command<'a>) -> Draft<'a> {
        Draft {
            command: Ok(command),
        }
    }

    /// It with one more argument.
    pub(crate) fn arg(self, arg: Arg<'a>) -> Draft<'a> {
        Draft {
            command: with_arg(self.command, arg),
        }
    }

    /// It with one more command.
    pub(crate) fn subcommand(self, other: Draft<'a>) -> Draft<'a> {
        Draft {
            command: with_command(self.command, other.command),
        }
    }

    /// The command. AllocError where memory was refused.
    pub(crate) fn finish(self) -> Result<Command<'a>, AllocError> {
        self.command
    }
}

/// A word that has to be there.
pub(crate) fn word<'a>(alloc: Global, name: &'a str, help: &'a str) -> Arg<'a> {
    Arg::new(alloc, name)
        .required(true)
        .action(ArgAction::Set)
        .help(help)
}

/// An option that stands alone.
pub(crate) fn flag<'a>(alloc: Global, name: &'a str, help: &'a str) -> Arg<'a> {
    Arg::new(alloc, name)
        .long(name)
        .action(ArgAction::SetTrue)
        .help(help)
}

/// An option with a value.
pub(crate) fn setting<'a>(alloc: Global, name: &'a str, value: &'a str, help: &'a str) -> Arg<'a> {
    Arg::new(alloc, name)
        .long(name)
        .value_name(value)
        .action(ArgAction::Set)
        .help(help)
}
