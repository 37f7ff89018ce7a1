//! What stands before the first beat of a stream: regions and monitors.

ghost use Rattle.tl_script.specs.Text.{IsCommand};

use crate::settling::settlement_line;
use std::alloc::{AllocError, Global};
use std::rt::Files;
use tl_beats::Watch;
use tl_edits::{Edit, EditFault, Log};
use tl_files::{Fault, script_of};
use tl_script::{Asked, Command, ScriptFault, Spot, Visitor, asked_by, refusal_line, visit_all};
use tl_topology::{RegionMap, Topo};

/// The code of a command that is none, or that a setup may not have.
const BAD_COMMAND: u8 = 41;

/// The code of a script that ends inside a command.
const TRUNCATED: u8 = 42;

/// What a setup leaves.
#[derive(Drop)]
pub(crate) struct Setup {
    /// The regions of managers, by number.
    pub(crate) regions: Vec<RegionMap>,
    /// The watches of monitors, each with its number.
    pub(crate) watches: Vec<(u32, Watch)>,
    /// The lines of its commands that were refused.
    pub(crate) refused: String,
    /// The lines of what its monitors tell at the end.
    pub(crate) settlements: String,
}

/// A monitor that a command attaches, or is refused.
#[derive(Clone, Copy)]
struct Attachment {
    number: u32,
    watch: Watch,
    is_accepted: bool,
}

/// A log that the commands of a setup are added to.
#[derive(Drop)]
struct Settings {
    alloc: Global,
    log: Log,
    refused: String,
    attachments: Vec<Attachment>,
    /// The first command that a setup may not have.
    stray: Option<u64>,
}

/// The edit that a command of a setup asks for; None for a command that a setup may not have.
fn edit_of(alloc: Global, command: &Command<'_>) -> Result<Option<Edit>, AllocError>
    requires { IsCommand command.now }
{
    if !matches!(command, Command::SetRegion { .. } | Command::Attach { .. }) {
        return Ok(None);
    }
    Ok(match asked_by(alloc, command)? {
        Asked::Change(change) => Some(Edit::Change(change)),
        Asked::Attach(number, watch) => Some(Edit::Attach(number, watch)),
        Asked::NoFragment(_) | Asked::Report => None,
    })
}

impl Settings {
    /// Makes an edit, or puts the line of its refusal after those before; answers whether it was made.
    fn make(&mut self, edit: Edit) -> Result<bool, AllocError> {
        match self.log.push(edit) {
            Ok(_) => Ok(true),
            Err(EditFault::Memory) => Err(AllocError),
            Err(fault) => {
                let line = refusal_line(self.alloc, fault.code(), fault.number())?;
                self.refused.push_str(line.as_str())?;
                Ok(false)
            }
        }
    }

    /// Makes an edit, and keeps what it attaches.
    fn take(&mut self, edit: Edit) -> Result<(), AllocError> {
        let attached = match &edit {
            Edit::Attach(number, watch) => Some((*number, *watch)),
            Edit::Change(_) => None,
        };
        let is_accepted = self.make(edit)?;
        if let Some((number, watch)) = attached {
            self.attachments.push(Attachment {
                number,
                watch,
                is_accepted,
            })?;
        }
        Ok(())
    }
}

impl<'s> Visitor<'s> for Settings {
    ghost has_seen = { λ _ _ _. Unit {0} };

    fn visit(&mut self, command: &Command<'s>, spot: Spot<'s>) -> Result<(), AllocError> {
        match edit_of(self.alloc, command)? {
            Some(edit) => self.take(edit),
            None => {
                self.stray = self.stray.or(Some(spot.number));
                Ok(())
            }
        }
    }
}

/// The fault of a setup at this command.
fn fault_at(code: u8, command: u64) -> Fault {
    Fault {
        code,
        number: Some(command),
    }
}

/// The maps of a log's regions.
fn regions_of(alloc: Global, log: &Log) -> Result<Vec<RegionMap>, AllocError> {
    let mut regions = Vec::new(alloc);
    for map in log.inputs().regions() {
        regions.push(map.copy()?)?;
    }
    Ok(regions)
}

/// The lines of what monitors tell at the end: those that were attached are closed by the last of so many edits.
fn settlements_of(
    alloc: Global,
    attachments: &[Attachment],
    edits: u64,
) -> Result<String, AllocError> {
    let mut text = String::new(alloc);
    for each in attachments {
        let closed_at = if each.is_accepted { edits } else { 0 };
        let line = settlement_line(alloc, each.number, each.watch, closed_at)?;
        text.push_str(line.as_str())?;
    }
    Ok(text)
}

/// What settings leave that have no command that a setup may not have.
fn settled(alloc: Global, settings: Settings) -> Result<Setup, Fault> {
    let Settings {
        log,
        refused,
        attachments,
        ..
    } = settings;
    Ok(Setup {
        regions: regions_of(alloc, &log)?,
        watches: log.inputs().watches(alloc)?,
        settlements: settlements_of(alloc, &attachments, log.len())?,
        refused,
    })
}

/// What the text of a setup leaves.
fn setup_in(alloc: Global, topo: &Topo, text: &[u8]) -> Result<Setup, Fault> {
    let mut settings = Settings {
        alloc,
        log: Log::new(alloc, topo.copy(alloc)?)?,
        refused: String::new(alloc),
        attachments: Vec::new(alloc),
        stray: None,
    };
    let end = visit_all(text, &mut settings)?;
    if let Some(command) = settings.stray {
        return Err(fault_at(BAD_COMMAND, command));
    }
    match end.fault {
        Some(ScriptFault::BadCommand) => Err(fault_at(BAD_COMMAND, end.commands + 1)),
        Some(ScriptFault::Truncated) => Err(fault_at(TRUNCATED, end.commands + 1)),
        None => settled(alloc, settings),
    }
}

/// What the setup of a file leaves; without one nothing.
pub(crate) fn setup_of<R: Files + AllocGlobal>(
    rt: &R,
    topo: &Topo,
    path: Option<&str>,
) -> Result<Setup, Fault> {
    match path {
        Some(path) => {
            let text = script_of(rt, path)?;
            setup_in(rt.alloc(), topo, &text)
        }
        None => setup_in(rt.alloc(), topo, b"".as_slice()),
    }
}
