//! What scripts and the spellings of commands keep among themselves. These calls do nothing: each is there for what it
//! promises.

ghost use Rattle.tl_script.specs.Laws.{SpellingsAreRead, ReadsAreSpelled, SpellingsTellCommandsApart, FirstCommandThenOthers, CommandsAreRead, ScriptsAreCommands, FaultsAreNumbered, LinesEnd, BytesEnd, BadLines};

/// A command's spelling, whatever follows, is read as that command, and takes exactly its bytes.
#[tactic(auto, using(crate::proofs::CommandTexts::spellings_are_read))]
pub fn spellings_are_read()
    ensures { SpellingsAreRead }
{}

/// What is read was the spelling of it, at the front of the script.
#[tactic(auto, using(crate::proofs::CommandTexts::reads_are_spelled))]
pub fn reads_are_spelled()
    ensures { ReadsAreSpelled }
{}

/// Two commands with one spelling are the same, and no spelling goes on after another.
pub fn spellings_tell_commands_apart()
    ensures { SpellingsTellCommandsApart }
{}

/// The commands of a script are the first of it and those of what follows.
#[tactic(auto, using(crate::proofs::ScriptLaws::first_command_then_others))]
pub fn first_command_then_others()
    ensures { FirstCommandThenOthers }
{}

/// The spellings of commands, one after the other, are a script of these commands; what is refused after them ends it with
/// that fault.
#[tactic(auto, using(crate::proofs::ScriptLaws::commands_are_read))]
pub fn commands_are_read()
    ensures { CommandsAreRead }
{}

/// Each script is the spellings of its commands, and after them what is refused with its fault, or nothing.
pub fn scripts_are_commands()
    ensures { ScriptsAreCommands }
{}

/// A fault is that of the command after those before it, counted from 1.
#[tactic(auto, using(crate::proofs::ScriptLaws::faults_are_numbered))]
pub fn faults_are_numbered()
    ensures { FaultsAreNumbered }
{}

/// A script ends inside a command where no newline is left, or fewer bytes follow the line of a command than are its; and a
/// line is bad exactly where it is the line of no command.
pub fn faults_have_their_causes()
    ensures lines { LinesEnd }
    ensures bytes { BytesEnd }
    ensures bad { BadLines }
{}
