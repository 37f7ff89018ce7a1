//! All commands of a script, one after the other.

ghost use Rattle.std.specs.Prelude.{◌≡◌, ◌+◌, ◌<◌, ◌^◌, ◌++◌, ◌∷◌, ◌≤◌, [], List, IfOk, OnOk, drop, length, option_map};
ghost use Rattle.tl_script.specs.Scripts.{commands_of, fault_of};
ghost use Rattle.tl_script.specs.Text.{IsCommand};
ghost use Rattle.tl_script.specs.declared.command.Command.{Command as SpecCommand};

use crate::command::Command;
use crate::fault::ScriptFault;
use crate::reading::read_command;
use std::alloc::AllocError;

/// Where a command stands in its script.
#[derive(Clone, Copy)]
pub struct Spot<'s> {
    /// The number of the command, from 1.
    pub number: u64,
    /// What is left of the script, from the command's line on.
    pub rest: &'s [u8],
    /// How many bytes of that the command takes.
    pub taken: usize,
}

/// What is done with the commands of a script, one after the other.
pub trait Visitor<'s> {
    /// From what it was first to what it is now, it has seen these commands.
    ghost has_seen: { Self → Self → List SpecCommand → Type 0 };

    /// Sees one command more. AllocError where memory is refused.
    fn visit(&mut self, command: &Command<'s>, spot: Spot<'s>) -> Result<(), AllocError>
        requires { IsCommand command.now }
        ensures { OnOk result ((first : Self) (before : List SpecCommand) → has_seen first self.old before → has_seen first self.new (before ++ command.now ∷ [])) };
}

/// Where a script ends.
#[derive(Drop)]
pub struct End<'s> {
    /// How many commands it has.
    pub commands: u64,
    /// The fault of what follows them, if something does.
    pub fault: Option<ScriptFault>,
    /// What is left of the script there.
    pub rest: &'s [u8],
}

/// What is left of a script.
pub(crate) fn behind(script: &[u8], taken: usize) -> &[u8]
    requires { taken ≤ length script.now }
    ensures { result.now ≡ drop taken script.now }
{
    &script[taken..]
}

/// Has a visitor see all commands of a script in order, up to the end of the script or its first fault. AllocError where a visit
/// is refused memory; it is then the last one.
pub fn visit_all<'s, V: Visitor<'s>>(
    script: &'s [u8],
    visitor: &mut V,
) -> Result<End<'s>, AllocError>
    requires { V.has_seen visitor.old visitor.old [] }
    ensures seen { OnOk result (V.has_seen visitor.old visitor.new (commands_of script.now).commands) }
    ensures few { IfOk result (λ end. end.commands < 2 ^ 63) }
    ensures end { IfOk result (λ end. option_map (λ fault. (end.commands + 1, fault)) end.fault ≡ fault_of (commands_of script.now)) }
{
    let mut rest = script;
    let mut commands = 0;
    loop {
        let read = match read_command(rest) {
            Ok(read) => read,
            Err(fault) => {
                return Ok(End {
                    commands,
                    fault: Some(fault),
                    rest,
                });
            }
        };
        let Some((command, taken)) = read else {
            return Ok(End {
                commands,
                fault: None,
                rest,
            });
        };
        let spot = Spot {
            number: commands + 1,
            rest,
            taken,
        };
        visitor.visit(&command, spot)?;
        rest = behind(rest, taken);
        commands += 1;
    }
}
