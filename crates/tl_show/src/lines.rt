//! The lines of a row.

ghost use Rattle.std.specs.Prelude.{◌≡◌, ◌<◌, IfOk, length, string_bytes};
ghost use Rattle.tl_beats.specs.Beats.{IsWellFormed};
ghost use Rattle.tl_show.specs.Lines.{words_of, beat_line_of, rule_row_of, place_text_of, named_line_of, missing_of, missing_line_of, reason_line_of, told_lines_of, bare_lines_of, IsNaming, IsSoundTold};

use crate::expected::expected_line;
use std::alloc::{AllocError, Global};
use tl_beats::Placed;
use tl_rows::{Reason, Told, beat_text};
use tl_tables::{Rule, op_of, rule_line, rule_text};
use tl_topology::Topo;

/// A beat in words.
fn words(alloc: Global, topo: &Topo, place: &Placed) -> Result<String, AllocError>
    requires link { place.now.link < length topo.now.links }
    requires beat { IsWellFormed place.now.beat }
    ensures { IfOk result (λ text. string_bytes text ≡ words_of topo.now place.now) }
{
    let decl = topo.link(place.link).unwrap();
    let found = op_of(decl.level, place.beat.chan, place.beat.opcode);
    beat_text(alloc, found, &place.beat)
}

/// The line of the row's own beat.
#[tactic(auto, unfolding(crate::specs::Lines::beat_line_of))]
fn beat_line(alloc: Global, topo: &Topo, place: &Placed) -> Result<String, AllocError>
    requires link { place.now.link < length topo.now.links }
    requires beat { IsWellFormed place.now.beat }
    ensures { IfOk result (λ text. string_bytes text ≡ beat_line_of topo.now place.now) }
{
    let link = topo.link(place.link).unwrap().name;
    let line = place.line;
    let cycle = place.beat.cycle;
    let text = words(alloc, topo, place)?;
    format!(in alloc; "  {link} line {line}, cycle {cycle}: {text}\n")
}

/// The line of its rule.
#[tactic(auto, unfolding(crate::specs::Lines::rule_row_of))]
fn rule_row(alloc: Global, rule: Rule) -> Result<String, AllocError>
    ensures { IfOk result (λ text. string_bytes text ≡ rule_row_of rule) }
{
    let name = rule_text(rule);
    let meaning = rule_line(rule);
    format!(in alloc; "  {name}: {meaning}\n")
}

/// Where a beat stands, and its words.
#[tactic(auto, unfolding(crate::specs::Lines::place_text_of))]
fn place_text(alloc: Global, topo: &Topo, place: &Placed) -> Result<String, AllocError>
    requires link { place.now.link < length topo.now.links }
    requires beat { IsWellFormed place.now.beat }
    ensures { IfOk result (λ text. string_bytes text ≡ place_text_of topo.now place.now) }
{
    let link = topo.link(place.link).unwrap().name;
    let fragment = place.fragment;
    let line = place.line;
    let cycle = place.beat.cycle;
    let text = words(alloc, topo, place)?;
    format!(in alloc; "{link} fragment {fragment} line {line}, cycle {cycle}: {text}")
}

/// The line of an earlier beat after what it is.
#[tactic(auto, unfolding(crate::specs::Lines::named_line_of))]
fn named_line(alloc: Global, label: &str, topo: &Topo, place: &Placed) -> Result<String, AllocError>
    requires link { place.now.link < length topo.now.links }
    requires beat { IsWellFormed place.now.beat }
    ensures { IfOk result (λ text. string_bytes text ≡ named_line_of label.now topo.now place.now) }
{
    let text = place_text(alloc, topo, place)?;
    format!(in alloc; "  {label}: {text}\n")
}

/// What there is none of.
fn missing(rule: Rule) -> &'static str
    ensures { result.now ≡ missing_of rule }
{
    match rule {
        Rule::S1 | Rule::S2 | Rule::S3 | Rule::S4 => "no request is open on its source",
        Rule::S5 | Rule::S6 | Rule::S7 => "no Release is open on its source",
        Rule::S8 | Rule::S9 => "no Grant is open on its sink",
        Rule::P1 | Rule::P2 => "nothing set what its client may hold of the block",
        Rule::P3 | Rule::P4 | Rule::P5 => "no Probe of the block is open",
        _ => "there is no such beat",
    }
}

/// The line where there is none.
#[tactic(auto, unfolding(crate::specs::Lines::missing_line_of))]
fn missing_line(alloc: Global, rule: Rule) -> Result<String, AllocError>
    ensures { IfOk result (λ text. string_bytes text ≡ missing_line_of rule) }
{
    let what = missing(rule);
    format!(in alloc; "  none before: {what}\n")
}

/// The line of the earlier beat that makes a beat break its rule; none where the beat does by itself.
fn reason_line(
    alloc: Global,
    topo: &Topo,
    rule: Rule,
    reason: &Reason,
) -> Result<String, AllocError>
    requires { IsNaming topo.now reason.now }
    ensures { IfOk result (λ text. string_bytes text ≡ reason_line_of topo.now rule reason.now) }
{
    match reason {
        Reason::ByItself => Ok(String::new(alloc)),
        Reason::NoneBefore => missing_line(alloc, rule),
        Reason::Head(place) => named_line(alloc, "head", topo, place),
        Reason::Request(place) => named_line(alloc, "open request", topo, place),
        Reason::Release(place) => named_line(alloc, "open Release", topo, place),
        Reason::Probe(place) => named_line(alloc, "open Probe", topo, place),
        Reason::Grant(place) => named_line(alloc, "open Grant", topo, place),
        Reason::Setter(place) => named_line(alloc, "last set by", topo, place),
        Reason::Rival(place) => named_line(alloc, "other client last set by", topo, place),
    }
}

/// All lines of a row.
#[tactic(auto, unfolding(crate::specs::Lines::told_lines_of))]
pub(crate) fn told_lines(alloc: Global, topo: &Topo, told: &Told) -> Result<String, AllocError>
    requires { IsSoundTold topo.now told.now }
    ensures { IfOk result (λ text. string_bytes text ≡ told_lines_of topo.now told.now) }
{
    let rule = told.row.rule;
    let beat = beat_line(alloc, topo, &told.place)?;
    let row = rule_row(alloc, rule)?;
    let reason = reason_line(alloc, topo, rule, &told.reason)?;
    let expected = expected_line(alloc, topo, told)?;
    format!(in alloc; "{beat}{row}{reason}{expected}")
}

/// The lines of a row without the earlier beat that makes it so.
#[tactic(auto, unfolding(crate::specs::Lines::bare_lines_of))]
pub(crate) fn bare_lines(
    alloc: Global,
    topo: &Topo,
    place: &Placed,
    rule: Rule,
) -> Result<String, AllocError>
    requires link { place.now.link < length topo.now.links }
    requires beat { IsWellFormed place.now.beat }
    ensures { IfOk result (λ text. string_bytes text ≡ bare_lines_of topo.now place.now rule) }
{
    let beat = beat_line(alloc, topo, place)?;
    let row = rule_row(alloc, rule)?;
    format!(in alloc; "{beat}{row}")
}
