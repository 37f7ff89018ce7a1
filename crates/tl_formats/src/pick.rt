//! The rows that filters choose and no waiver accepts.

ghost use Rattle.std.specs.Prelude.{◌≡◌, ◌<◌, ℕ, IfOk, filter};
ghost use Rattle.std.specs.List.{All};
ghost use Rattle.tl_rows.specs.Choice.{has_cycle};
ghost use Rattle.tl_formats.specs.Picks.{is_rule, is_link, is_named_rule, is_named_link, has_rule, has_link, fits, chooses, waives, is_left, is_waived, is_used, is_unused};

use std::alloc::{AllocError, Global};
use tl_beats::Row;
use tl_rows::Cycles;
use tl_tables::{Rule, rule_number};

/// Rows that are known: a line of a text of waivers.
#[derive(Clone, Copy, Debug, PartialEq, Eq)]
pub struct Waiver {
    /// Its line in the text, from 1.
    pub line: u64,
    /// Their rule; None is any.
    pub rule: Option<Rule>,
    /// The number of their link; None is any.
    pub link: Option<u16>,
    /// The cycles of their beats.
    pub cycles: Cycles,
}

/// Which rows are wanted, and which of those are known.
#[derive(Drop)]
pub struct Pick {
    /// The rules that are wanted; none are all.
    pub rules: Vec<Rule>,
    /// The numbers of the links that are wanted; none are all.
    pub links: Vec<u16>,
    /// The cycles that are wanted.
    pub cycles: Cycles,
    /// What is known.
    pub waivers: Vec<Waiver>,
}

/// Whether the rule is the named one, if one is named.
fn is_rule(named: Option<Rule>, rule: Rule) -> bool
    ensures { result ≡ is_rule named rule }
{
    match named {
        Some(named) => rule_number(named) == rule_number(rule),
        None => true,
    }
}

/// Whether the link has the named number, if one is named.
fn is_link(named: Option<u16>, link: u16) -> bool
    ensures { result ≡ is_link named link }
{
    match named {
        Some(named) => named == link,
        None => true,
    }
}

impl Waiver {
    /// Whether it accepts the row.
    pub fn fits(&self, row: &Row) -> bool
        ensures { result ≡ fits row.now self.now }
    {
        is_rule(self.rule, row.rule) && is_link(self.link, row.link) && self.cycles.has(row.cycle)
    }
}

/// Whether the rule is one of these.
fn is_named_rule(rules: &[Rule], rule: Rule) -> bool
    ensures { result ≡ is_named_rule rules.now rule }
{
    rules
        .iter()
        .any(|other| rule_number(*other) == rule_number(rule))
}

/// Whether the rule is one of these, or there are none.
fn has_rule(rules: &[Rule], rule: Rule) -> bool
    ensures { result ≡ has_rule rules.now rule }
{
    rules.is_empty() || is_named_rule(rules, rule)
}

/// Whether the link has one of these numbers.
fn is_named_link(links: &[u16], link: u16) -> bool
    ensures { result ≡ is_named_link links.now link }
{
    links.iter().any(|other| *other == link)
}

/// Whether the link has one of these numbers, or there are none.
fn has_link(links: &[u16], link: u16) -> bool
    ensures { result ≡ has_link links.now link }
{
    links.is_empty() || is_named_link(links, link)
}

/// Whether a waiver accepts one of the rows.
fn is_used(rows: &[Row], waiver: &Waiver) -> bool
    ensures { result ≡ is_used rows.now waiver.now }
{
    rows.iter().any(|row| waiver.fits(row))
}

/// Whether a waiver accepts none of the rows.
fn is_unused(rows: &[Row], waiver: &Waiver) -> bool
    ensures { result ≡ is_unused rows.now waiver.now }
{
    !is_used(rows, waiver)
}

/// The waivers that accept none of the rows.
fn unused_of(alloc: Global, waivers: &[Waiver], rows: &[Row]) -> Result<Vec<Waiver>, AllocError>
    ensures { IfOk result (λ unused. unused.items ≡ filter (is_unused rows.now) waivers.now) }
{
    let mut unused = Vec::new(alloc);
    for waiver in waivers {
        if is_unused(rows, waiver) {
            unused.push(*waiver)?;
        }
    }
    Ok(unused)
}

impl Pick {
    /// Whether rows of the rule are wanted.
    pub fn has_rule(&self, rule: Rule) -> bool
        ensures { result ≡ has_rule self.now.rules.items rule }
    {
        has_rule(&self.rules, rule)
    }

    /// Whether rows of the link with this number are wanted.
    pub fn has_link(&self, link: u16) -> bool
        ensures { result ≡ has_link self.now.links.items link }
    {
        has_link(&self.links, link)
    }

    /// Whether the row is wanted, be it known or not.
    pub fn chooses(&self, row: &Row) -> bool
        ensures { result ≡ chooses self.now row.now }
    {
        self.has_rule(row.rule) && self.has_link(row.link) && self.cycles.has(row.cycle)
    }

    /// Whether a waiver accepts the row.
    pub fn waives(&self, row: &Row) -> bool
        ensures { result ≡ waives self.now row.now }
    {
        self.waivers.iter().any(|waiver| waiver.fits(row))
    }

    /// Whether the row is printed: it is wanted, and no waiver accepts it.
    pub fn is_left(&self, row: &Row) -> bool
        ensures { result ≡ is_left self.now row.now }
    {
        self.chooses(row) && !self.waives(row)
    }

    /// Whether the row is waived: it is wanted, and a waiver accepts it.
    pub fn is_waived(&self, row: &Row) -> bool
        ensures { result ≡ is_waived self.now row.now }
    {
        self.chooses(row) && self.waives(row)
    }

    /// Those of the rows that are wanted and that no waiver accepts, in their order. AllocError where memory is refused.
    pub fn left(&self, alloc: Global, rows: &[Row]) -> Result<Vec<Row>, AllocError>
        ensures exact { IfOk result (λ left. left.items ≡ filter (is_left self.now) rows.now) }
        ensures links { (count : ℕ) → All (λ row. row.link < count) rows.now → IfOk result (λ left. All (λ row. row.link < count) left.items) }
    {
        let mut left = Vec::new(alloc);
        for row in rows {
            if self.is_left(row) {
                left.push(*row)?;
            }
        }
        Ok(left)
    }

    /// Those of the rows that are wanted and that a waiver accepts, in their order. AllocError where memory is refused.
    pub fn waived(&self, alloc: Global, rows: &[Row]) -> Result<Vec<Row>, AllocError>
        ensures { IfOk result (λ waived. waived.items ≡ filter (is_waived self.now) rows.now) }
    {
        let mut waived = Vec::new(alloc);
        for row in rows {
            if self.is_waived(row) {
                waived.push(*row)?;
            }
        }
        Ok(waived)
    }

    /// The waivers that accept none of the rows, wanted or not, in their order. AllocError where memory is refused.
    pub fn unused(&self, alloc: Global, rows: &[Row]) -> Result<Vec<Waiver>, AllocError>
        ensures { IfOk result (λ unused. unused.items ≡ filter (is_unused rows.now) self.now.waivers.items) }
    {
        unused_of(alloc, &self.waivers, rows)
    }
}
