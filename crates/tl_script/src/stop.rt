//! How the run of a script ends.

ghost use Rattle.std.specs.Prelude.{◌≡◌};
ghost use Rattle.tl_script.specs.Causes.{code_of};

use crate::ScriptFault;

/// Why a run stops.
#[derive(Clone, Copy, Debug, PartialEq, Eq)]
pub enum StopCause {
    /// A growth was refused.
    Memory,
    /// The line is no command's.
    BadCommand,
    /// The script ends inside the command.
    Truncated,
    /// The command attaches a monitor, and there is no next one that has its watch.
    WrongBox,
}

impl StopCause {
    /// The number of the refusal: 20, 41, 42 or 36.
    pub fn code(&self) -> u8
        ensures { result ≡ code_of self.now }
    {
        match self {
            StopCause::Memory => 20,
            StopCause::BadCommand => 41,
            StopCause::Truncated => 42,
            StopCause::WrongBox => 36,
        }
    }
}

impl From<ScriptFault> for StopCause {
    ghost use Rattle.tl_script.specs.Causes.{of_script};

    ghost from_gives = { λ found cause. cause ≡ of_script found };

    fn from(found: ScriptFault) -> StopCause {
        match found {
            ScriptFault::BadCommand => StopCause::BadCommand,
            ScriptFault::Truncated => StopCause::Truncated,
        }
    }
}

/// Where a run stops before the end of its script: no line of the command is written, nor of those after it.
#[derive(Clone, Copy, Debug, PartialEq, Eq)]
pub struct Stop {
    /// Why.
    pub cause: StopCause,
    /// The number of the command, from 1.
    pub command: u64,
}

/// What a run came to.
#[derive(Clone, Copy, Debug, PartialEq, Eq)]
pub struct Outcome {
    /// How many rows its last report has; 0 without a report.
    pub last_rows: u64,
    /// Where it stopped; None at the end of its script.
    pub stop: Option<Stop>,
}
