//! Rows that are read from their lines of JSON.

ghost use Rattle.std.specs.Prelude.{◌≡◌, Some, IfOk, option_map};
ghost use Rattle.serde_json.specs.Read.{read as data_of};
ghost use Rattle.serde_json.specs.View.{view};
ghost use Rattle.tl_formats.specs.JsonReports.{number_in, small_in, text_in, rule_called, rule_in, monitor_in, row_with, row_in, IsOfItsLine};

use crate::report_fault::ReportFault;
use crate::report_line::ReportLine;
use crate::report_reading::link_called;
use crate::report_row::ReportRow;
use serde_json::{Category, Value};
use std::alloc::Global;
use tl_rows::rule_named;
use tl_tables::{Rule, rule_number, rule_text};
use tl_topology::Topo;

/// A row as its line of JSON tells it.
#[derive(Clone, Copy)]
pub struct JsonRow<'a> {
    /// The cycle of its beat.
    pub cycle: u64,
    /// What a line of text would tell of it.
    pub told: ReportRow,
    /// Its line, without the newline.
    pub text: &'a [u8],
}

impl<'a> ReportLine for JsonRow<'a> {
    ghost row_link = { λ row. row.told.link };

    fn link(&self) -> u16 {
        self.told.link
    }

    /// As in a text; and on a link no cycle is below the one before it.
    fn is_after(&self, before: &JsonRow<'a>) -> bool {
        self.told.is_after(&before.told)
            && (self.told.link != before.told.link || self.cycle >= before.cycle)
    }
}

/// The number at a key of an object.
fn number_in(object: &Value, key: &str) -> Option<u64>
    ensures { result ≡ number_in key.now (view object.now) }
{
    object.get(key).and_then(Value::as_u64)
}

/// The number at a key of an object, if it is below 2^32.
fn small_in(object: &Value, key: &str) -> Option<u32>
    ensures { result ≡ small_in key.now (view object.now) }
{
    let number = number_in(object, key)?;
    if number > u64::from(u32::MAX) {
        return None;
    }
    Some(number as u32)
}

/// The text at a key of an object.
fn text_in<'a>(object: &'a Value, key: &str) -> Option<&'a str>
    ensures { option_map (λ text. text.now) result ≡ text_in key.now (view object.now) }
{
    object.get(key).and_then(Value::as_str)
}

/// The rule that has this name in reports.
#[tactic(auto, unfolding(crate::specs::JsonReports::rule_called))]
fn rule_called(name: &str) -> Option<Rule>
    ensures { result ≡ rule_called name.now }
{
    let rule = rule_named(name.as_bytes())?;
    if rule_text(rule) == name {
        Some(rule)
    } else {
        None
    }
}

/// The rule of a row.
#[tactic(auto, unfolding(crate::specs::JsonReports::rule_in))]
fn rule_in(object: &Value) -> Option<Rule>
    ensures { result ≡ rule_in (view object.now) }
{
    let name = text_in(object, "rule")?;
    rule_called(name)
}

/// The monitor of an X1; a row of another rule has none.
#[tactic(auto, unfolding(crate::specs::JsonReports::monitor_in))]
fn monitor_in(rule: Rule, object: &Value) -> Option<Option<u32>>
    ensures { result ≡ monitor_in rule (view object.now) }
{
    if rule_number(rule) == rule_number(Rule::X1) {
        let monitor = small_in(object, "monitor")?;
        return Some(Some(monitor));
    }
    if object.get("monitor").is_some() {
        None
    } else {
        Some(None)
    }
}

/// The row of a link that an object is.
#[tactic(auto, unfolding(crate::specs::JsonReports::row_with))]
fn row_with(object: &Value, link: u16) -> Option<ReportRow>
    ensures { result ≡ row_with (view object.now) link }
{
    let fragment = small_in(object, "fragment")?;
    let line = small_in(object, "line")?;
    let rule = rule_in(object)?;
    let monitor = monitor_in(rule, object)?;
    Some(ReportRow {
        link,
        fragment,
        line,
        rule,
        monitor,
    })
}

/// The row that an object on a line with this number is, with its cycle.
#[tactic(auto, unfolding(crate::specs::JsonReports::row_in))]
fn row_in(topo: &Topo, object: &Value, number: u64) -> Result<(u64, ReportRow), ReportFault>
    ensures { IfOk result (λ row. row_in topo.now (view object.now) ≡ Some (row.0, row.1)) }
{
    let Some(cycle) = number_in(object, "cycle") else {
        return Err(ReportFault::BadObject(number));
    };
    let Some(name) = text_in(object, "link") else {
        return Err(ReportFault::BadObject(number));
    };
    let Some(link) = link_called(topo, name.as_bytes()) else {
        return Err(ReportFault::NoLink(number));
    };
    match row_with(object, link) {
        Some(row) => Ok((cycle, row)),
        None => Err(ReportFault::BadObject(number)),
    }
}

/// What a line with this number is as JSON.
fn value_of(alloc: Global, line: &[u8], number: u64) -> Result<Value, ReportFault>
    ensures { IfOk result (λ value. data_of line.now ≡ Some (view value)) }
{
    match Value::from_slice(alloc, line) {
        Ok(value) => Ok(value),
        Err(error) => match error.classify() {
            Category::Memory => Err(ReportFault::Memory),
            _ => Err(ReportFault::BadObject(number)),
        },
    }
}

/// The row of a line with this number.
pub(crate) fn read_row<'a>(
    alloc: Global,
    topo: &Topo,
    line: &'a [u8],
    number: u64,
) -> Result<JsonRow<'a>, ReportFault>
    ensures told { IfOk result (λ row. IsOfItsLine topo.now row) }
    ensures text { IfOk result (λ row. row.text.now ≡ line.now) }
{
    let value = value_of(alloc, line, number)?;
    let (cycle, told) = row_in(topo, &value, number)?;
    Ok(JsonRow {
        cycle,
        told,
        text: line,
    })
}
