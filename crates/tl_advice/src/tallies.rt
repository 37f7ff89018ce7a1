//! Rows by rule: how many there are, and which is the first by cycle.

ghost use Rattle.std.specs.Prelude.{◌≡◌, ◌++◌, count_by, IfOk, OnOk};
ghost use Rattle.std.specs.Option.{option_to_list};
ghost use Rattle.tl_tables.specs.Rules.{all_rules};
ghost use Rattle.tl_advice.specs.Tallies.{is_of, is_earlier, first_with, IsFirst, AreLinked, IsTallied, AreTallied};

use std::alloc::{AllocError, Global};
use tl_beats::Row;
use tl_tables::{RULES, Rule, rule_number};
use tl_topology::{Name, Topo};

/// The rows of a rule.
#[derive(Clone, Copy, Debug)]
pub struct Tally {
    /// The rule.
    pub rule: Rule,
    /// How many rows break it.
    pub count: usize,
    /// The first of them by cycle; of several of one cycle, the first in the order of reports.
    pub first: Row,
    /// The link of that row.
    pub name: Name,
}

/// Whether the row breaks the rule.
fn is_of(rule: Rule, row: &Row) -> bool
    ensures { result ≡ is_of rule row.now }
{
    rule_number(rule) == rule_number(row.rule)
}

/// How many of the rows break the rule.
fn count_of(rule: Rule, rows: &[Row]) -> usize
    ensures { result ≡ count_by (is_of rule) rows.now }
{
    rows.iter().filter(|row| is_of(rule, *row)).count()
}

/// Whether the row is of a cycle before that of the first so far, if there is one.
fn is_earlier(row: &Row, first: Option<Row>) -> bool
    ensures { result ≡ is_earlier row.now first }
{
    match first {
        Some(first) => row.cycle < first.cycle,
        None => true,
    }
}

/// The first row of the rule by cycle, where one row more is looked at.
fn first_with(rule: Rule, first: Option<Row>, row: &Row) -> Option<Row>
    ensures { result ≡ first_with rule first row.now }
{
    if is_of(rule, row) && is_earlier(row, first) {
        Some(*row)
    } else {
        first
    }
}

/// The first of the rows by cycle that breaks the rule.
fn first_of(rule: Rule, rows: &[Row]) -> Option<Row>
    ensures { IsFirst rule rows.now result }
{
    let mut first = None;
    for row in rows {
        first = first_with(rule, first, row);
    }
    first
}

/// What is told of the rows of a rule; None where no row breaks it.
fn tally_of(topo: &Topo, rule: Rule, rows: &[Row]) -> Option<Tally>
    ensures { AreLinked topo.now rows.now → IsTallied topo.now rule rows.now result }
{
    let first = first_of(rule, rows)?;
    let decl = topo.link(first.link)?;
    Some(Tally {
        rule,
        count: count_of(rule, rows),
        first,
        name: decl.name,
    })
}

/// Puts a tally after others, if there is one.
fn push_found(tallies: &mut Vec<Tally>, found: Option<Tally>) -> Result<(), AllocError>
    ensures { OnOk result (tallies.new.items ≡ tallies.old.items ++ option_to_list found) }
{
    if let Some(tally) = found {
        tallies.push(tally)?;
    }
    Ok(())
}

/// What is told of the rows of each of these rules that a row breaks.
fn tallies_of(
    alloc: Global,
    topo: &Topo,
    rules: &[Rule],
    rows: &[Row],
) -> Result<Vec<Tally>, AllocError>
    ensures { AreLinked topo.now rows.now → IfOk result (λ tallies. AreTallied topo.now rules.now rows.now tallies.items) }
{
    let mut tallies = Vec::new(alloc);
    for rule in rules {
        push_found(&mut tallies, tally_of(topo, *rule, rows))?;
    }
    Ok(tallies)
}

/// What is told of the rows of each rule that a row breaks, in the order of reports; the topology has the links of the rows.
/// AllocError where memory is refused.
pub(crate) fn all_tallies(
    alloc: Global,
    topo: &Topo,
    rows: &[Row],
) -> Result<Vec<Tally>, AllocError>
    ensures { AreLinked topo.now rows.now → IfOk result (λ tallies. AreTallied topo.now all_rules rows.now tallies.items) }
{
    tallies_of(alloc, topo, &RULES, rows)
}
