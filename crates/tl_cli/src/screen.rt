//! What standard error is.

use tl_advice::Look;
use tl_options::{Command, How};

/// What standard error is.
#[derive(Clone, Copy, Debug, PartialEq, Eq)]
pub enum Screen {
    /// No terminal: a file or a pipe.
    None,
    /// A terminal that is to have no colours.
    Plain,
    /// A terminal that takes colours.
    Colored,
}

impl Screen {
    /// How the first line of a sentence looks there.
    pub(crate) fn look(self) -> Look {
        match self {
            Screen::None | Screen::Plain => Look::Plain,
            Screen::Colored => Look::Bold,
        }
    }

    /// Whether a person reads it.
    pub(crate) fn is_terminal(self) -> bool {
        match self {
            Screen::None => false,
            Screen::Plain | Screen::Colored => true,
        }
    }

    /// How a command is done there: at a terminal a summary is told without being asked for.
    pub(crate) fn how(self, mut how: How) -> How {
        if self.is_terminal() {
            how.summary = true;
        }
        how
    }

    /// Whether it is told there how far a command is: where its summary is, and at a terminal of those without one.
    pub(crate) fn has_progress(self, command: &Command<'_>) -> bool {
        match command {
            Command::Run(words) if words.comes() => words.how.summary,
            Command::Run(words) => self.how(words.how).summary,
            Command::Once(words) => self.how(words.how).summary,
            Command::Audit(words) => self.how(words.how).summary,
            _ => self.is_terminal(),
        }
    }

    /// Whether what a script's run refused is told in sentences.
    pub(crate) fn has_sentences(self, command: &Command<'_>) -> bool {
        self.is_terminal() || command.explains_faults()
    }

    /// Whether the sentence of a fault is told after its line.
    pub(crate) fn has_faults(self, command: &Command<'_>) -> bool {
        self.has_sentences(command) || command.shows()
    }
}
