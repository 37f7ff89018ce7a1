//! What comes of a command, and its lines.

ghost use Rattle.std.specs.Prelude.{◌≡◌, IfOk, string_bytes};
ghost use Rattle.tl_run.specs.Output.{text_of, IsLinked, IsAnswerTo};

use std::alloc::{AllocError, Global};
use tl_check::{Report, report_text};
use tl_edits::EditFault;
use tl_script::{edit_line, refusal_line};
use tl_topology::Topo;

/// What comes of a command.
#[derive(Drop)]
pub enum Answer {
    /// The edit of this number was accepted.
    Edit(u64),
    /// It was refused with this code, and the number that the refusal names, if it names one.
    Refused(u8, Option<u32>),
    /// A report was published.
    Report(Report),
}

impl Answer {
    /// What comes of an edit. AllocError where memory was refused.
    pub fn of_edit(edit: Result<u64, EditFault>) -> Result<Answer, AllocError>
        ensures { IfOk result (IsAnswerTo edit) }
    {
        match edit {
            Ok(number) => Ok(Answer::Edit(number)),
            Err(EditFault::Memory) => Err(AllocError),
            Err(fault) => Ok(Answer::Refused(fault.code(), fault.number())),
        }
    }
}

/// The lines of what came of a command, on a topology that has the links of its rows. AllocError where memory is refused.
pub fn answer_text(alloc: Global, topo: &Topo, answer: &Answer) -> Result<String, AllocError>
    requires { IsLinked topo.now answer.now }
    ensures { IfOk result (λ text. string_bytes text ≡ text_of topo.now answer.now) }
{
    match answer {
        Answer::Edit(number) => edit_line(alloc, *number),
        Answer::Refused(code, number) => refusal_line(alloc, *code, *number),
        Answer::Report(report) => report_text(alloc, topo, report),
    }
}
