//! What carries out the commands of a script.

ghost use Rattle.std.specs.Prelude.{◌≡◌, [], Bool, false, IfOk, OnOk, OnErr, length, string_bytes};
ghost use Rattle.std.specs.Result.{IsErrOf};
ghost use Rattle.tl_check.specs.Notes.{Tells};
ghost use Rattle.tl_script.specs.Text.{IsCommand};
ghost use Rattle.tl_script.specs.Asked.{asked, asking};
ghost use Rattle.tl_run.specs.Output.{RunData, supplied, text_of, IsLinked, IsStep, TakesBox, LacksBox};

use crate::answer::{Answer, answer_text};
use crate::session::{CommandFault, Session};
use std::alloc::{AllocError, Global};
use tl_monitor::Monitor;
use tl_script::{Asked, Command, StopCause, asked_by};
use tl_topology::Topo;

/// What carries out commands, one after the other.
pub trait Runner {
    /// What it has come to.
    ghost so_far: { Self → RunData };

    /// Whether it puts notes between its lines.
    ghost noted: { Bool };

    /// Whether it makes the monitors that commands attach, before they come.
    ghost supplies: { Bool };

    /// Its topology.
    fn topo(&self) -> &Topo
        ensures { result.now ≡ (so_far self.now).setting.topo };

    /// What the next command asks for, before which so many bytes of the script are left. AllocError where memory is refused.
    fn ask(&self, alloc: Global, command: &Command<'_>, left: usize) -> Result<Asked, AllocError>
        requires { IsCommand command.now }
        ensures { IfOk result (λ found. asking found ≡ asked command.now) };

    /// Makes ready for a command: where it makes monitors, the one that the command attaches comes after those that no command has
    /// attached yet. AllocError, with nothing changed, where memory is refused.
    fn supply(&mut self, alloc: Global, command: &Command<'_>) -> Result<(), AllocError>
        ensures ok { OnOk result (so_far self.new ≡ supplied supplies (asked command.now) (so_far self.old)) }
        ensures err { OnErr result (so_far self.new ≡ so_far self.old) };

    /// What comes of one command more. WrongBox, with nothing changed, where it attaches a monitor and the next one is missing or
    /// watches something else; Memory where memory is refused: the run is then at its end.
    fn answer(&mut self, alloc: Global, asked: Asked) -> Result<Answer, CommandFault>
        ensures setting { (so_far self.new).setting ≡ (so_far self.old).setting }
        ensures boxes { OnOk result (TakesBox (so_far self.old).boxes (asking asked) (so_far self.new).boxes) }
        ensures lacks { IsErrOf result CommandFault.WrongBox → LacksBox (so_far self.old).boxes (asking asked) × (so_far self.new ≡ so_far self.old) }
        ensures step { IfOk result (λ found. IsStep (so_far self.old).setting (so_far self.old).now (asking asked) (text_of (so_far self.old).setting.topo found) (so_far self.new).now) }
        ensures links { IfOk result (IsLinked (so_far self.old).setting.topo) };

    /// The lines of what came of a command. AllocError where memory is refused.
    fn text(&self, alloc: Global, answer: &Answer) -> Result<String, AllocError>
        requires { IsLinked (so_far self.now).setting.topo answer.now }
        ensures { IfOk result (λ text. Tells noted (text_of (so_far self.now).setting.topo answer.now) (string_bytes text)) };

    /// Notes after the line of a stop, before which this is left of the script; none where memory is refused.
    fn stop_notes(&self, alloc: Global, cause: StopCause, rest: &[u8]) -> String
        ensures { Tells noted [] (string_bytes result) };

    /// How many rows its last report has; 0 without a report.
    fn last_rows(&self) -> u64
        ensures { result ≡ length (so_far self.now).now.rows };
}

impl<M: Monitor> Runner for Session<M> {
    ghost so_far = { λ s. s };

    ghost noted = { false };

    ghost supplies = { false };

    fn topo(&self) -> &Topo {
        Session::topo(self)
    }

    fn ask(&self, alloc: Global, command: &Command<'_>, _left: usize) -> Result<Asked, AllocError>
        requires { IsCommand command.now }
        ensures { IfOk result (λ found. asking found ≡ asked command.now) }
    {
        asked_by(alloc, command)
    }

    fn supply(&mut self, _alloc: Global, _command: &Command<'_>) -> Result<(), AllocError> {
        Ok(())
    }

    fn answer(&mut self, alloc: Global, asked: Asked) -> Result<Answer, CommandFault> {
        Session::answer(self, alloc, asked)
    }

    fn text(&self, alloc: Global, answer: &Answer) -> Result<String, AllocError> {
        answer_text(alloc, Session::topo(self), answer)
    }

    fn stop_notes(&self, alloc: Global, _cause: StopCause, _rest: &[u8]) -> String {
        String::new(alloc)
    }

    fn last_rows(&self) -> u64 {
        Session::last_rows(self)
    }
}
