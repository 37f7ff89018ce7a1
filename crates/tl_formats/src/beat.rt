//! The fields of a beat as JSON has them.

use std::alloc::{AllocError, Global};
use tl_beats::Beat;
use tl_rows::{chan_text, op_text, param_text};
use tl_tables::{Chan, Level, Op, op_of};

/// The name of a message, or null.
fn message_member(alloc: Global, found: Option<Op>) -> Result<String, AllocError> {
    match found {
        Some(op) => {
            let name = op_text(op);
            format!(in alloc; "\"message\":\"{name}\"")
        }
        None => format!(in alloc; "\"message\":null"),
    }
}

/// The name of a param, if the message has one for it.
fn param_member(alloc: Global, found: Option<Op>, param: u8) -> Result<String, AllocError> {
    match found.and_then(|op| param_text(op, param)) {
        Some(name) => format!(in alloc; ",\"param_name\":\"{name}\""),
        None => Ok(String::new(alloc)),
    }
}

/// Opcode, param, size and source.
fn head_members(alloc: Global, found: Option<Op>, beat: &Beat) -> Result<String, AllocError> {
    let opcode = beat.opcode;
    let param = beat.param;
    let size = beat.size;
    let source = beat.source;
    let name = param_member(alloc, found, param)?;
    format!(in alloc;
        ",\"opcode\":{opcode},\"param\":{param}{name},\"size\":{size},\"source\":{source}"
    )
}

/// What only some channels have.
fn own_members(alloc: Global, beat: &Beat) -> Result<String, AllocError> {
    let address = beat.address;
    let mask = beat.mask;
    let sink = beat.sink;
    let denied = beat.denied;
    match beat.chan {
        Chan::A | Chan::B => {
            format!(in alloc; ",\"address\":\"{address:x}\",\"mask\":\"{mask:x}\"")
        }
        Chan::C => format!(in alloc; ",\"address\":\"{address:x}\""),
        Chan::D => format!(in alloc; ",\"sink\":{sink},\"denied\":{denied}"),
        Chan::E => format!(in alloc; ",\"sink\":{sink}"),
    }
}

/// The fields of a beat on a link of this level, as an object.
pub(crate) fn beat_text(alloc: Global, level: Level, beat: &Beat) -> Result<String, AllocError> {
    let chan = chan_text(beat.chan);
    let found = op_of(level, beat.chan, beat.opcode);
    let message = message_member(alloc, found)?;
    let own = own_members(alloc, beat)?;
    if beat.chan == Chan::E {
        return format!(in alloc; "{{\"channel\":\"{chan}\",{message}{own}}}");
    }
    let head = head_members(alloc, found, beat)?;
    let corrupt = beat.corrupt;
    format!(in alloc; "{{\"channel\":\"{chan}\",{message}{head}{own},\"corrupt\":{corrupt}}}")
}
