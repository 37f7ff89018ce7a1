//! One beat line of a fragment's text.

ghost use Rattle.std.specs.Prelude.{◌≡◌, ◌≤◌, IfSome, option_map};
ghost use Rattle.tl_beats.specs.Beats.{IsWellFormed, HasMask};
ghost use Rattle.tl_beats.specs.Reading.{message_at, access_at, release_at, reply_at, grant_ack_at, beat_at};

use crate::Beat;
use tl_tables::Chan;
use tl_text::{bit, decimal, hexadecimal, word};

const LAST_CODE: u64 = 7;

const LAST_SIZE: u64 = 15;

const LAST_SOURCE: u64 = 65_535;

/// What a beat of channels A to D begins with.
#[derive(Clone, Copy)]
pub(crate) struct Message {
    pub(crate) opcode: u8,
    pub(crate) param: u8,
    pub(crate) size: u8,
    pub(crate) source: u16,
}

#[tactic(auto, unfolding(crate::specs::Reading::message_at))]
fn message_of(words: &[u8]) -> Option<(Message, &[u8])>
    ensures exact { option_map (λ x. (x.0, x.1.now)) result ≡ message_at words.now }
    ensures opcode { IfSome result (λ x. x.0.opcode ≤ 7) }
    ensures param { IfSome result (λ x. x.0.param ≤ 7) }
    ensures size { IfSome result (λ x. x.0.size ≤ 15) }
{
    let (opcode, words) = word(words)?;
    let opcode = decimal(opcode, LAST_CODE)? as u8;
    let (param, words) = word(words)?;
    let param = decimal(param, LAST_CODE)? as u8;
    let (size, words) = word(words)?;
    let size = decimal(size, LAST_SIZE)? as u8;
    let (source, words) = word(words)?;
    let source = decimal(source, LAST_SOURCE)? as u16;
    let message = Message {
        opcode,
        param,
        size,
        source,
    };
    Some((message, words))
}

/// The beat of channel A or B that the words after the channel spell.
#[tactic(auto, unfolding(crate::specs::Reading::access_at), using(crate::proofs::Lacking::access_lacks))]
fn access_of(chan: Chan, cycle: u64, words: &[u8]) -> Option<Beat>
    requires { HasMask chan }
    ensures exact { result ≡ access_at chan cycle words.now }
    ensures formed { IfSome result IsWellFormed }
{
    let (message, words) = message_of(words)?;
    let (address, words) = word(words)?;
    let address = hexadecimal(address)?;
    let (mask, corrupt) = word(words)?;
    let mask = hexadecimal(mask)?;
    let corrupt = bit(corrupt)?;
    Some(Beat {
        cycle,
        chan,
        opcode: message.opcode,
        param: message.param,
        size: message.size,
        source: message.source,
        sink: 0,
        address,
        mask,
        denied: false,
        corrupt,
    })
}

/// The beat of channel C that the words after the channel spell.
#[tactic(auto, unfolding(crate::specs::Reading::release_at))]
fn release_of(cycle: u64, words: &[u8]) -> Option<Beat>
    ensures exact { result ≡ release_at cycle words.now }
    ensures formed { IfSome result IsWellFormed }
{
    let (message, words) = message_of(words)?;
    let (address, corrupt) = word(words)?;
    let address = hexadecimal(address)?;
    let corrupt = bit(corrupt)?;
    Some(Beat {
        cycle,
        chan: Chan::C,
        opcode: message.opcode,
        param: message.param,
        size: message.size,
        source: message.source,
        sink: 0,
        address,
        mask: 0,
        denied: false,
        corrupt,
    })
}

/// The beat of channel D that the words after the channel spell.
#[tactic(auto, unfolding(crate::specs::Reading::reply_at))]
fn reply_of(cycle: u64, words: &[u8]) -> Option<Beat>
    ensures exact { result ≡ reply_at cycle words.now }
    ensures formed { IfSome result IsWellFormed }
{
    let (message, words) = message_of(words)?;
    let (sink, words) = word(words)?;
    let sink = decimal(sink, LAST_SOURCE)? as u16;
    let (denied, corrupt) = word(words)?;
    let denied = bit(denied)?;
    let corrupt = bit(corrupt)?;
    Some(Beat {
        cycle,
        chan: Chan::D,
        opcode: message.opcode,
        param: message.param,
        size: message.size,
        source: message.source,
        sink,
        address: 0,
        mask: 0,
        denied,
        corrupt,
    })
}

/// The beat of channel E that the words after the channel spell.
#[tactic(auto, unfolding(crate::specs::Reading::grant_ack_at))]
fn grant_ack_of(cycle: u64, words: &[u8]) -> Option<Beat>
    ensures exact { result ≡ grant_ack_at cycle words.now }
    ensures formed { IfSome result IsWellFormed }
{
    let sink = decimal(words, LAST_SOURCE)? as u16;
    Some(Beat {
        cycle,
        chan: Chan::E,
        opcode: 0,
        param: 0,
        size: 0,
        source: 0,
        sink,
        address: 0,
        mask: 0,
        denied: false,
        corrupt: false,
    })
}

/// The beat that a line spells; None where it spells none.
#[tactic(auto, unfolding(crate::specs::Reading::beat_at))]
pub(crate) fn beat_of(line: &[u8]) -> Option<Beat>
    ensures exact { result ≡ beat_at line.now }
    ensures formed { IfSome result IsWellFormed }
{
    let (cycle, words) = word(line)?;
    let cycle = decimal(cycle, u64::MAX)?;
    let (name, words) = word(words)?;
    match name {
        [b'A'] => access_of(Chan::A, cycle, words),
        [b'B'] => access_of(Chan::B, cycle, words),
        [b'C'] => release_of(cycle, words),
        [b'D'] => reply_of(cycle, words),
        [b'E'] => grant_ack_of(cycle, words),
        _ => None,
    }
}
