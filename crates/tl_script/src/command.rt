//! The commands of a script.

ghost use Rattle.std.specs.Prelude.{◌≡◌};
ghost use Rattle.tl_script.specs.Commands.{bytes_of, monitor_of};

use std::marker::Model;
use tl_beats::Watch;
use tl_topology::{Name, Region};

/// The bytes that follow the line of a command, in their place in the script. Contracts see the bytes.
#[derive(Drop)]
pub struct Text<'a> {
    bytes: &'a [u8],
}

impl<'a> Model for Text<'a> {
    ghost use Rattle.std.specs.Prelude.{List, ℕ};

    ghost Value = { List ℕ };

    ghost view = { λ text. text.bytes.now };
}

impl<'a> Text<'a> {
    /// The bytes as the text of a fragment.
    pub fn new(bytes: &'a [u8]) -> Text<'a>
        ensures { result ≡ bytes.now }
    {
        Text { bytes }
    }

    /// Its bytes.
    pub fn as_bytes(&self) -> &'a [u8]
        ensures { result.now ≡ self.now }
    {
        self.bytes
    }
}

/// One command of a script. The numbers of fragments and monitors are those that their users chose.
#[derive(Drop)]
pub enum Command<'a> {
    /// Adds the fragment of this text.
    Add(Text<'a>),
    /// Puts the fragment of this text in the place of one.
    Replace(Text<'a>),
    /// Takes one fragment of a link away.
    Withdraw {
        /// The link.
        link: Name,
        /// The number of the fragment.
        number: u32,
    },
    /// Takes all fragments of a link away.
    Clear {
        /// The link.
        link: Name,
    },
    /// Sets a region of a manager, in the place of one of the same number.
    SetRegion {
        /// The manager.
        manager: Name,
        /// The number of the region.
        number: u8,
        /// Its addresses and what they permit.
        region: Region,
    },
    /// Removes a region of a manager.
    RemoveRegion {
        /// The manager.
        manager: Name,
        /// The number of the region.
        number: u8,
    },
    /// Attaches a monitor.
    Attach {
        /// The number of the monitor.
        number: u32,
        /// What it watches.
        watch: Watch,
    },
    /// Gives the budget of a monitor another limit.
    Retune {
        /// The number of the monitor.
        number: u32,
        /// How many beats of its class are let through.
        limit: u32,
    },
    /// Detaches a monitor.
    Detach {
        /// The number of the monitor.
        number: u32,
    },
    /// Publishes the report of what is there.
    Publish,
}

impl<'a> Command<'a> {
    /// The bytes that follow its line: those of `add` and `replace`, and none else.
    pub fn bytes(&self) -> &'a [u8]
        ensures { result.now ≡ bytes_of self.now }
    {
        match self {
            Command::Add(text) | Command::Replace(text) => text.as_bytes(),
            _ => &[],
        }
    }

    /// The number and the watch of the monitor that it attaches; None of any other command.
    pub fn monitor(&self) -> Option<(u32, Watch)>
        ensures { result ≡ monitor_of self.now }
    {
        match self {
            Command::Attach { number, watch } => Some((*number, *watch)),
            _ => None,
        }
    }
}
