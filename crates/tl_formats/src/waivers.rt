//! The text of waivers.

ghost use Rattle.std.specs.Prelude.{◌≡◌, ◌++◌, option_map, OnOk};
ghost use Rattle.std.specs.Option.{option_copied, option_to_list};
ghost use Rattle.tl_text.specs.Words.{lines_of};
ghost use Rattle.tl_text.specs.Readings.{Gives};
ghost use Rattle.tl_formats.specs.Waivers.{is_remark, rule_at, link_at, cycles_at, reasoned_at, columns_at, waiver_at, line_waiver, waivers_in, is_memory};

use crate::pick::Waiver;
use crate::waiver_fault::WaiverFault;
use std::alloc::{AllocError, Global};
use tl_rows::{Cycles, rule_named};
use tl_tables::Rule;
use tl_text::{decimal, line, word};
use tl_topology::{Name, Topo};

/// The words of a line and what follows them.
type Columns<'a> = (&'a [u8], &'a [u8], &'a [u8], &'a [u8]);

/// Whether a line says nothing of rows: it is empty, or begins a comment.
fn is_remark(line: &[u8]) -> bool
    ensures { result ≡ is_remark line.now }
{
    match line {
        [] => true,
        [first, ..] => *first == b'#',
    }
}

/// The rule that a word names, or any for `*`.
#[tactic(auto, unfolding(crate::specs::Waivers::rule_at))]
fn rule_of(word: &[u8]) -> Option<Option<Rule>>
    ensures { result ≡ rule_at word.now }
{
    if word == b"*".as_slice() {
        return Some(None);
    }
    Some(Some(rule_named(word)?))
}

/// The number of the link that a word names, or any for `*`.
#[tactic(auto, unfolding(crate::specs::Waivers::link_at))]
fn link_of(topo: &Topo, word: &[u8]) -> Option<Option<u16>>
    ensures { result ≡ link_at topo.now word.now }
{
    if word == b"*".as_slice() {
        return Some(None);
    }
    let name = Name::new(word)?;
    Some(Some(topo.link_of(&name)?))
}

/// The cycles from one word to another.
#[tactic(auto, unfolding(crate::specs::Waivers::cycles_at))]
fn cycles_of(first: &[u8], last: &[u8]) -> Option<Cycles>
    ensures { result ≡ cycles_at first.now last.now }
{
    let first = decimal(first, u64::MAX)?;
    let last = decimal(last, u64::MAX)?;
    if first <= last {
        Some(Cycles { first, last })
    } else {
        None
    }
}

/// A word that a reason stands after.
#[tactic(auto, unfolding(crate::specs::Waivers::reasoned_at))]
fn reasoned(words: &[u8]) -> Option<&[u8]>
    ensures { option_copied result ≡ reasoned_at words.now }
{
    let (last, reason) = word(words)?;
    if reason.is_empty() { None } else { Some(last) }
}

/// The four words of a line; None where it has fewer, or no reason after them.
#[tactic(auto, unfolding(crate::specs::Waivers::columns_at))]
fn columns_of(line: &[u8]) -> Option<Columns<'_>>
    ensures { option_map (λ x. (x.0.now, x.1.now, x.2.now, x.3.now)) result ≡ columns_at line.now }
{
    let (rule, words) = word(line)?;
    let (link, words) = word(words)?;
    let (first, words) = word(words)?;
    let last = reasoned(words)?;
    Some((rule, link, first, last))
}

/// The waiver that a line spells.
#[tactic(auto, unfolding(crate::specs::Waivers::waiver_at))]
fn waiver_of(topo: &Topo, line: &[u8], number: u64) -> Result<Waiver, WaiverFault>
    ensures { result ≡ waiver_at topo.now line.now number }
{
    let Some((rule, link, first, last)) = columns_of(line) else {
        return Err(WaiverFault::BadLine(number));
    };
    let Some(rule) = rule_of(rule) else {
        return Err(WaiverFault::NoRule(number));
    };
    let Some(link) = link_of(topo, link) else {
        return Err(WaiverFault::NoLink(number));
    };
    let Some(cycles) = cycles_of(first, last) else {
        return Err(WaiverFault::BadCycles(number));
    };
    Ok(Waiver {
        line: number,
        rule,
        link,
        cycles,
    })
}

/// The waiver of a line, if it is one and not a remark.
fn line_waiver(topo: &Topo, line: &[u8], number: u64) -> Result<Option<Waiver>, WaiverFault>
    ensures { result ≡ line_waiver topo.now line.now number }
{
    if is_remark(line) {
        return Ok(None);
    }
    Ok(Some(waiver_of(topo, line, number)?))
}

/// Puts a waiver after others, if there is one.
fn push_found(waivers: &mut Vec<Waiver>, found: Option<Waiver>) -> Result<(), AllocError>
    ensures { OnOk result (waivers.new.items ≡ waivers.old.items ++ option_to_list found) }
{
    if let Some(waiver) = found {
        waivers.push(waiver)?;
    }
    Ok(())
}

/// The waivers of a text, a line for each: RULE LINK FROM TO and a reason, with one space between them; the rule in any case, and
/// `*` for any rule or link. FROM and TO are cycles, both of them waived too. Empty lines, and those that begin with `#`, are passed
/// over, and so is what stands after the last newline. A refusal names the first faulty line and, in that line, the first cause in
/// the order of words, rule, link, cycles; Memory where memory is refused.
pub fn read_waivers(alloc: Global, topo: &Topo, text: &[u8]) -> Result<Vec<Waiver>, WaiverFault>
    ensures { Gives is_memory (λ waivers. waivers.items) result (waivers_in topo.now (lines_of text.now)) }
{
    let mut waivers = Vec::new(alloc);
    let mut rest = text;
    let mut number = 1u64;
    while let Some((next, after)) = line(rest) {
        let found = line_waiver(topo, next, number)?;
        push_found(&mut waivers, found)?;
        rest = after;
        number += 1;
    }
    Ok(waivers)
}
