//! Reports and their text.

ghost use Rattle.std.specs.Prelude.{◌≡◌, ◌<◌, ◌++◌, IfOk, length, string_bytes};
ghost use Rattle.std.specs.List.{All, flat_map};
ghost use Rattle.tl_check.specs.Output.{row_text, head_text, report_bytes, audit_head, audit_bytes};

use std::alloc::{AllocError, Global};
use std::marker::Model;
use std::sync::Arc;
use tl_beats::Row;
use tl_tables::rule_text;
use tl_topology::Topo;

/// A published report: its version, the number of accepted edits that it speaks of, and its rows in their order. Copies share
/// the rows.
#[derive(Drop)]
pub struct Report {
    version: u64,
    edit: u64,
    rows: Arc<Vec<Row>>,
}

impl Model for Report {
    ghost use Rattle.std.specs.Arc.{arc_value};
    ghost use Rattle.tl_check.specs.Output.{ReportData};

    ghost Value = { ReportData };

    ghost view = { λ r. record { version = r.version; edit = r.edit; rows = (arc_value r.rows).items } };
}

impl Report {
    /// The report with these parts. AllocError where memory is refused.
    pub fn new(alloc: Global, version: u64, edit: u64, rows: Vec<Row>) -> Result<Report, AllocError>
        ensures { IfOk result (λ report. report ≡ record { version = version; edit = edit; rows = rows.items }) }
    {
        Ok(Report {
            version,
            edit,
            rows: Arc::new(alloc, rows)?,
        })
    }

    /// Its version, from 1.
    pub fn version(&self) -> u64
        ensures { result ≡ self.now.version }
    {
        self.version
    }

    /// How many edits had been accepted when it was published.
    pub fn edit(&self) -> u64
        ensures { result ≡ self.now.edit }
    {
        self.edit
    }

    /// Its rows, in their order.
    pub fn rows(&self) -> &[Row]
        ensures { result.now ≡ self.now.rows }
    {
        self.rows.as_slice()
    }

    /// The same report; its rows are shared and not copied. AllocError where memory is refused.
    pub fn copy(&self) -> Result<Report, AllocError>
        ensures { IfOk result (λ copy. copy ≡ self.now) }
    {
        Ok(Report {
            version: self.version,
            edit: self.edit,
            rows: Arc::try_clone(&self.rows)?,
        })
    }
}

/// The line of a row: link, fragment, line and rule, and the monitor of an X1. AllocError where memory is refused.
#[tactic(auto, unfolding(crate::specs::Output::row_text))]
pub fn row_text(alloc: Global, topo: &Topo, row: &Row) -> Result<String, AllocError>
    requires { row.now.link < length topo.now.links }
    ensures { IfOk result (λ text. string_bytes text ≡ row_text topo.now row.now) }
{
    let link = topo.link(row.link).unwrap().name;
    let fragment = row.fragment;
    let line = row.line;
    let rule = rule_text(row.rule);
    match row.monitor {
        Some(monitor) => format!(in alloc; "{link} {fragment} {line} {rule} {monitor}\n"),
        None => format!(in alloc; "{link} {fragment} {line} {rule}\n"),
    }
}

/// The first line of a report, which counts its rows. AllocError where memory is refused.
#[tactic(auto, unfolding(crate::specs::Output::head_text))]
pub fn head_text(alloc: Global, report: &Report) -> Result<String, AllocError>
    ensures { IfOk result (λ text. string_bytes text ≡ head_text report.now) }
{
    let version = report.version;
    let edit = report.edit;
    let count = report.rows().len();
    format!(in alloc; "report {version} edit {edit} rows {count}\n")
}

/// The lines of rows after a text. AllocError where memory is refused.
pub fn listed(alloc: Global, topo: &Topo, head: String, rows: &[Row]) -> Result<String, AllocError>
    requires { All (λ row. row.link < length topo.now.links) rows.now }
    ensures { IfOk result (λ text. string_bytes text ≡ string_bytes head ++ flat_map (row_text topo.now) rows.now) }
{
    let mut text = head;
    for row in rows {
        let line = row_text(alloc, topo, row)?;
        text.push_str(line.as_str())?;
    }
    Ok(text)
}

/// The text of a report of a topology that has the links of its rows: a line that counts the rows, and a line for each.
/// AllocError where memory is refused.
#[tactic(auto, unfolding(crate::specs::Output::report_bytes))]
pub fn report_text(alloc: Global, topo: &Topo, report: &Report) -> Result<String, AllocError>
    requires { All (λ row. row.link < length topo.now.links) report.now.rows }
    ensures { IfOk result (λ text. string_bytes text ≡ report_bytes topo.now report.now) }
{
    let head = head_text(alloc, report)?;
    listed(alloc, topo, head, report.rows())
}

/// The first line of what an audit finds, after so many edits and with so many rows. AllocError where memory is refused.
#[tactic(auto, unfolding(crate::specs::Output::audit_head))]
pub fn audit_head(alloc: Global, edit: u64, count: usize) -> Result<String, AllocError>
    ensures { IfOk result (λ text. string_bytes text ≡ audit_head edit count) }
{
    format!(in alloc; "audit {edit} rows {count}\n")
}

/// The text of what checking everything anew after so many edits finds, of a topology that has the links of the rows: a line
/// that counts the rows, and a line for each. AllocError where memory is refused.
#[tactic(auto, unfolding(crate::specs::Output::audit_bytes))]
pub fn audit_text(alloc: Global, topo: &Topo, edit: u64, rows: &[Row]) -> Result<String, AllocError>
    requires { All (λ row. row.link < length topo.now.links) rows.now }
    ensures { IfOk result (λ text. string_bytes text ≡ audit_bytes topo.now edit rows.now) }
{
    let head = audit_head(alloc, edit, rows.len())?;
    listed(alloc, topo, head, rows)
}
