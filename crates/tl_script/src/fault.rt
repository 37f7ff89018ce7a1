//! Why a command of a script is refused.

ghost use Rattle.std.specs.Prelude.{◌≡◌};
ghost use Rattle.tl_script.specs.Faults.{code_of};

use thiserror::Error;

/// Why the first command of what is left of a script is refused. A line without its newline is `Truncated` whatever it
/// says, so that `Truncated` goes before `BadCommand`.
#[derive(Clone, Copy, Debug, Drop, Error, PartialEq, Eq)]
pub enum ScriptFault {
    /// The line is none of a command's, or the first address of its region is above the last.
    #[error("the line is no command")]
    BadCommand,
    /// The script ends inside the line, or inside the bytes that follow it.
    #[error("the script ends inside a command")]
    Truncated,
}

impl ScriptFault {
    /// The number of the refusal.
    pub fn code(&self) -> u8
        ensures { result ≡ code_of self.now }
    {
        match self {
            ScriptFault::BadCommand => 41,
            ScriptFault::Truncated => 42,
        }
    }
}
