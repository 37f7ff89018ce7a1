//! The line of a command.

ghost use Rattle.std.specs.Prelude.{◌≡◌, ◌-◌, ◌^◌};
ghost use Rattle.tl_text.specs.Numbers.{number_at};
ghost use Rattle.tl_script.specs.Lines.{chan_at, class_at, budget_at, after_at, watch_at, attach_at, permit_at, permits_at, region_at, unregion_at, withdraw_at, retune_at, order_at};

use crate::command::Command;
use tl_beats::{Class, Watch};
use tl_tables::Chan;
use tl_text::{decimal, hexadecimal, word};
use tl_topology::{Name, Permits, Region};

/// The largest number of a fragment or a monitor, and the largest limit.
const MOST_NUMBER: u64 = 4_294_967_295;

const LAST_REGION: u64 = 255;

const LAST_CODE: u64 = 7;

fn number_of(word: &[u8]) -> Option<u32>
    ensures { result ≡ number_at 10 (2 ^ 32 - 1) word.now }
{
    Some(decimal(word, MOST_NUMBER)? as u32)
}

fn region_number(word: &[u8]) -> Option<u8>
    ensures { result ≡ number_at 10 255 word.now }
{
    Some(decimal(word, LAST_REGION)? as u8)
}

#[tactic(auto, unfolding(crate::specs::Lines::chan_at))]
fn chan_of(word: &[u8]) -> Option<Chan>
    ensures { result ≡ chan_at word.now }
{
    match word {
        [b'A'] => Some(Chan::A),
        [b'B'] => Some(Chan::B),
        [b'C'] => Some(Chan::C),
        [b'D'] => Some(Chan::D),
        [b'E'] => Some(Chan::E),
        _ => None,
    }
}

#[tactic(auto, unfolding(crate::specs::Lines::class_at))]
fn class_of(chan: &[u8], opcode: &[u8]) -> Option<Class>
    ensures { result ≡ class_at chan.now opcode.now }
{
    let chan = chan_of(chan)?;
    let opcode = decimal(opcode, LAST_CODE)? as u8;
    Some(Class { chan, opcode })
}

/// The class and limit after the link.
#[tactic(auto, unfolding(crate::specs::Lines::budget_at))]
fn budget_of(link: Name, words: &[u8]) -> Option<Watch>
    ensures { result ≡ budget_at link words.now }
{
    let (chan, words) = word(words)?;
    let (opcode, limit) = word(words)?;
    let class = class_of(chan, opcode)?;
    let limit = number_of(limit)?;
    Some(Watch::Budget { link, class, limit })
}

/// The two classes after the link.
#[tactic(auto, unfolding(crate::specs::Lines::after_at))]
fn after_of(link: Name, words: &[u8]) -> Option<Watch>
    ensures { result ≡ after_at link words.now }
{
    let (chan, words) = word(words)?;
    let (opcode, words) = word(words)?;
    let first = class_of(chan, opcode)?;
    let (chan, opcode) = word(words)?;
    let second = class_of(chan, opcode)?;
    Some(Watch::After {
        link,
        first,
        second,
    })
}

/// The watch after the number of a monitor.
#[tactic(auto, unfolding(crate::specs::Lines::watch_at))]
fn watch_of(words: &[u8]) -> Option<Watch>
    ensures { result ≡ watch_at words.now }
{
    let (kind, words) = word(words)?;
    let (link, words) = word(words)?;
    let link = Name::new(link)?;
    if kind == b"budget".as_slice() {
        budget_of(link, words)
    } else if kind == b"after".as_slice() {
        after_of(link, words)
    } else {
        None
    }
}

#[tactic(auto, unfolding(crate::specs::Lines::attach_at))]
fn attach_of<'a>(words: &[u8]) -> Option<Command<'a>>
    ensures { result ≡ attach_at words.now }
{
    let (number, words) = word(words)?;
    let number = number_of(number)?;
    let watch = watch_of(words)?;
    Some(Command::Attach { number, watch })
}

/// Whether the letter stands in its place; None where another byte does than it or `-`.
fn permit_of(byte: u8, letter: u8) -> Option<bool>
    ensures { result ≡ permit_at letter byte }
{
    if byte == letter {
        Some(true)
    } else if byte == b'-' {
        Some(false)
    } else {
        None
    }
}

/// The places of `gpahc`.
#[tactic(auto, unfolding(crate::specs::Lines::permits_at))]
fn permits_of(word: &[u8]) -> Option<Permits>
    ensures { result ≡ permits_at word.now }
{
    match word {
        [get, put, atomic, hint, cache] => Some(Permits {
            get: permit_of(*get, b'g')?,
            put: permit_of(*put, b'p')?,
            atomic: permit_of(*atomic, b'a')?,
            hint: permit_of(*hint, b'h')?,
            cache: permit_of(*cache, b'c')?,
        }),
        _ => None,
    }
}

#[tactic(auto, unfolding(crate::specs::Lines::region_at))]
fn region_of<'a>(words: &[u8]) -> Option<Command<'a>>
    ensures { result ≡ region_at words.now }
{
    let (manager, words) = word(words)?;
    let manager = Name::new(manager)?;
    let (number, words) = word(words)?;
    let number = region_number(number)?;
    let (first, words) = word(words)?;
    let first = hexadecimal(first)?;
    let (last, permits) = word(words)?;
    let last = hexadecimal(last)?;
    let permits = permits_of(permits)?;
    let region = Region::new(first, last, permits)?;
    Some(Command::SetRegion {
        manager,
        number,
        region,
    })
}

#[tactic(auto, unfolding(crate::specs::Lines::unregion_at))]
fn unregion_of<'a>(words: &[u8]) -> Option<Command<'a>>
    ensures { result ≡ unregion_at words.now }
{
    let (manager, number) = word(words)?;
    let manager = Name::new(manager)?;
    let number = region_number(number)?;
    Some(Command::RemoveRegion { manager, number })
}

#[tactic(auto, unfolding(crate::specs::Lines::withdraw_at))]
fn withdraw_of<'a>(words: &[u8]) -> Option<Command<'a>>
    ensures { result ≡ withdraw_at words.now }
{
    let (link, number) = word(words)?;
    let link = Name::new(link)?;
    let number = number_of(number)?;
    Some(Command::Withdraw { link, number })
}

#[tactic(auto, unfolding(crate::specs::Lines::retune_at))]
fn retune_of<'a>(words: &[u8]) -> Option<Command<'a>>
    ensures { result ≡ retune_at words.now }
{
    let (number, limit) = word(words)?;
    let number = number_of(number)?;
    let limit = number_of(limit)?;
    Some(Command::Retune { number, limit })
}

/// The command of a line that no bytes follow, by its first word and the words after it.
#[tactic(auto, unfolding(crate::specs::Lines::order_at))]
pub(crate) fn order_of<'a>(kind: &[u8], words: &[u8]) -> Option<Command<'a>>
    ensures { result ≡ order_at kind.now words.now }
{
    if kind == b"withdraw".as_slice() {
        withdraw_of(words)
    } else if kind == b"clear".as_slice() {
        let link = Name::new(words)?;
        Some(Command::Clear { link })
    } else if kind == b"region".as_slice() {
        region_of(words)
    } else if kind == b"unregion".as_slice() {
        unregion_of(words)
    } else if kind == b"attach".as_slice() {
        attach_of(words)
    } else if kind == b"retune".as_slice() {
        retune_of(words)
    } else if kind == b"detach".as_slice() {
        let number = number_of(words)?;
        Some(Command::Detach { number })
    } else {
        None
    }
}
