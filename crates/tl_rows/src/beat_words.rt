//! The words of a beat.

ghost use Rattle.std.specs.Prelude.{◌≡◌, ◌≤◌, false, IfOk, string_bytes};
ghost use Rattle.std.specs.Fmt.{digits};
ghost use Rattle.tl_beats.specs.Beats.{IsWellFormed};
ghost use Rattle.tl_rows.specs.Words.{named_text_of, plain_text_of, numbered_text_of, coded_text_of, message_text_of, bytes_text_of, access_text_of, release_text_of, reply_text_of, ack_text_of, fields_text_of, bits_text_of, beat_text_of};

use crate::{chan_text, op_text, param_text};
use std::alloc::{AllocError, Global};
use tl_beats::Beat;
use tl_tables::{Chan, Op};

/// A message with the name of its param.
#[tactic(auto, unfolding(crate::specs::Words::named_text_of))]
fn named_text(alloc: Global, op: Op, word: &str, beat: &Beat) -> Result<String, AllocError>
    ensures { IfOk result (λ text. string_bytes text ≡ named_text_of op word.now beat.now) }
{
    let chan = chan_text(beat.chan);
    let name = op_text(op);
    format!(in alloc; "{chan} {name} {word}")
}

/// A message without a param.
#[tactic(auto, unfolding(crate::specs::Words::plain_text_of))]
fn plain_text(alloc: Global, op: Op, beat: &Beat) -> Result<String, AllocError>
    ensures { IfOk result (λ text. string_bytes text ≡ plain_text_of op beat.now) }
{
    let chan = chan_text(beat.chan);
    let name = op_text(op);
    format!(in alloc; "{chan} {name}")
}

/// A message with a param that has no name.
#[tactic(auto, unfolding(crate::specs::Words::numbered_text_of))]
fn numbered_text(alloc: Global, op: Op, beat: &Beat) -> Result<String, AllocError>
    ensures { IfOk result (λ text. string_bytes text ≡ numbered_text_of op beat.now) }
{
    let chan = chan_text(beat.chan);
    let name = op_text(op);
    let param = beat.param;
    format!(in alloc; "{chan} {name} param {param}")
}

/// An opcode that is no message.
#[tactic(auto, unfolding(crate::specs::Words::coded_text_of))]
fn coded_text(alloc: Global, beat: &Beat) -> Result<String, AllocError>
    ensures { IfOk result (λ text. string_bytes text ≡ coded_text_of beat.now) }
{
    let chan = chan_text(beat.chan);
    let opcode = beat.opcode;
    let param = beat.param;
    format!(in alloc; "{chan} opcode {opcode} param {param}")
}

/// Channel and message with its param.
fn message_text(alloc: Global, found: Option<Op>, beat: &Beat) -> Result<String, AllocError>
    ensures { IfOk result (λ text. string_bytes text ≡ message_text_of found beat.now) }
{
    let Some(op) = found else {
        return coded_text(alloc, beat);
    };
    match param_text(op, beat.param) {
        Some(word) => named_text(alloc, op, word, beat),
        None if beat.param == 0 => plain_text(alloc, op, beat),
        None => numbered_text(alloc, op, beat),
    }
}

/// How many bytes a message of this size has, the exponent of that number. AllocError where memory is refused.
#[tactic(auto, unfolding(crate::specs::Words::bytes_text_of))]
pub fn bytes_text(alloc: Global, size: u8) -> Result<String, AllocError>
    requires { size ≤ 15 }
    ensures { IfOk result (λ text. string_bytes text ≡ bytes_text_of size) }
{
    if size == 0 {
        return format!(in alloc; "1 byte");
    }
    let bytes: u64 = 1 << size;
    format!(in alloc; "{bytes} bytes")
}

/// A number in hexadecimal.
fn hex_text(alloc: Global, number: u64) -> Result<String, AllocError>
    ensures { IfOk result (λ text. string_bytes text ≡ digits 16 false number) }
{
    format!(in alloc; "{number:x}")
}

/// The fields of a beat of A or B.
#[tactic(auto, unfolding(crate::specs::Words::access_text_of))]
fn access_text(alloc: Global, beat: &Beat) -> Result<String, AllocError>
    requires { IsWellFormed beat.now }
    ensures { IfOk result (λ text. string_bytes text ≡ access_text_of beat.now) }
{
    let bytes = bytes_text(alloc, beat.size)?;
    let address = hex_text(alloc, beat.address)?;
    let mask = hex_text(alloc, beat.mask)?;
    let source = beat.source;
    format!(in alloc; ", {bytes} at {address}, mask {mask}, source {source}")
}

/// Those of a beat of C.
#[tactic(auto, unfolding(crate::specs::Words::release_text_of))]
fn release_text(alloc: Global, beat: &Beat) -> Result<String, AllocError>
    requires { IsWellFormed beat.now }
    ensures { IfOk result (λ text. string_bytes text ≡ release_text_of beat.now) }
{
    let bytes = bytes_text(alloc, beat.size)?;
    let address = hex_text(alloc, beat.address)?;
    let source = beat.source;
    format!(in alloc; ", {bytes} at {address}, source {source}")
}

/// Those of a beat of D.
#[tactic(auto, unfolding(crate::specs::Words::reply_text_of))]
fn reply_text(alloc: Global, beat: &Beat) -> Result<String, AllocError>
    requires { IsWellFormed beat.now }
    ensures { IfOk result (λ text. string_bytes text ≡ reply_text_of beat.now) }
{
    let bytes = bytes_text(alloc, beat.size)?;
    let source = beat.source;
    let sink = beat.sink;
    format!(in alloc; ", {bytes}, source {source}, sink {sink}")
}

/// Those of a beat of E.
#[tactic(auto, unfolding(crate::specs::Words::ack_text_of))]
fn ack_text(alloc: Global, beat: &Beat) -> Result<String, AllocError>
    ensures { IfOk result (λ text. string_bytes text ≡ ack_text_of beat.now) }
{
    let sink = beat.sink;
    format!(in alloc; ", sink {sink}")
}

/// The fields of its channel.
fn fields_text(alloc: Global, beat: &Beat) -> Result<String, AllocError>
    requires { IsWellFormed beat.now }
    ensures { IfOk result (λ text. string_bytes text ≡ fields_text_of beat.now.chan beat.now) }
{
    match beat.chan {
        Chan::A | Chan::B => access_text(alloc, beat),
        Chan::C => release_text(alloc, beat),
        Chan::D => reply_text(alloc, beat),
        Chan::E => ack_text(alloc, beat),
    }
}

/// The bits that are high.
fn bits_text(denied: bool, corrupt: bool) -> &'static str
    ensures { result.now ≡ bits_text_of denied corrupt }
{
    match (denied, corrupt) {
        (true, true) => ", denied, corrupt",
        (true, false) => ", denied",
        (false, true) => ", corrupt",
        (false, false) => "",
    }
}

/// The words of a beat, read as this message if it is a head of one, or belongs to one: channel, message and param, size,
/// address, mask, source and sink as its channel has them, and the bits that are high. AllocError where memory is refused.
#[tactic(auto, unfolding(crate::specs::Words::beat_text_of))]
pub fn beat_text(alloc: Global, found: Option<Op>, beat: &Beat) -> Result<String, AllocError>
    requires { IsWellFormed beat.now }
    ensures { IfOk result (λ text. string_bytes text ≡ beat_text_of found beat.now) }
{
    let message = message_text(alloc, found, beat)?;
    let fields = fields_text(alloc, beat)?;
    let bits = bits_text(beat.denied, beat.corrupt);
    format!(in alloc; "{message}{fields}{bits}")
}
