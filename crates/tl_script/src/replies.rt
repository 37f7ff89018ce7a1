//! The lines of an edit and of a refusal.

ghost use Rattle.std.specs.Prelude.{◌≡◌, IfOk, string_bytes};
ghost use Rattle.tl_script.specs.Replies.{edit_text, refused_text};

use std::alloc::{AllocError, Global};

/// The line of an edit of this number. AllocError where memory is refused.
#[tactic(auto, unfolding(crate::specs::Replies::edit_text))]
pub fn edit_line(alloc: Global, number: u64) -> Result<String, AllocError>
    ensures { IfOk result (λ line. string_bytes line ≡ edit_text number) }
{
    format!(in alloc; "edit {number}\n")
}

/// The line of a refusal of this code, with the number that it names. AllocError where memory is refused.
#[tactic(auto, unfolding(crate::specs::Replies::refused_text))]
pub fn refusal_line(alloc: Global, code: u8, number: Option<u32>) -> Result<String, AllocError>
    ensures { IfOk result (λ line. string_bytes line ≡ refused_text code number) }
{
    match number {
        Some(number) => format!(in alloc; "refused {code} {number}\n"),
        None => format!(in alloc; "refused {code}\n"),
    }
}
