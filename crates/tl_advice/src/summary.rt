//! The summary at the end of a run: the beats of each link with what they leave open, and the rows of each rule.

ghost use Rattle.std.specs.Prelude.{◌≡◌, ◌++◌, IfOk, OnOk, option_map, string_bytes};
ghost use Rattle.std.specs.List.{flat_map};
ghost use Rattle.tl_script.specs.Audits.{edits_of};
ghost use Rattle.tl_advice.specs.Tallies.{AreLinked};
ghost use Rattle.tl_advice.specs.Summaries.{open_part_of, asked_of, given_of, link_line_of, are_empty, links_text_of, place_of, tally_line_of, rules_text_of, IsBody, IsSummary, edits_line_of, report_line_of, IsReported, IsReportedOf, SumsUpRun};

use crate::links::{LinkCount, link_counts};
use crate::tallies::{Tally, all_tallies};
use std::alloc::{AllocError, Global};
use tl_beats::Row;
use tl_check::Report;
use tl_edits::{Inputs, Log};
use tl_rows::OpenCounts;
use tl_script::{AuditFault, log_of};
use tl_tables::rule_text;
use tl_topology::Topo;

/// How many are open, after what they are, if any are.
#[tactic(auto, unfolding(crate::specs::Summaries::open_part_of))]
fn open_part(alloc: Global, name: &str, count: usize) -> Result<String, AllocError>
    ensures { IfOk result (λ text. string_bytes text ≡ open_part_of name.now count) }
{
    if count == 0 {
        return Ok(String::new(alloc));
    }
    format!(in alloc; ", {name} {count}")
}

/// How many requests, Releases and Probes are open.
#[tactic(auto, unfolding(crate::specs::Summaries::asked_of))]
fn asked_text(alloc: Global, counts: &OpenCounts) -> Result<String, AllocError>
    ensures { IfOk result (λ text. string_bytes text ≡ asked_of counts.now) }
{
    let requests = open_part(alloc, "requests without a reply", counts.requests)?;
    let releases = open_part(alloc, "Releases without a ReleaseAck", counts.releases)?;
    let probes = open_part(alloc, "Probes without a ProbeAck", counts.probes)?;
    format!(in alloc; "{requests}{releases}{probes}")
}

/// How many Grants and bursts are.
#[tactic(auto, unfolding(crate::specs::Summaries::given_of))]
fn given_text(alloc: Global, counts: &OpenCounts) -> Result<String, AllocError>
    ensures { IfOk result (λ text. string_bytes text ≡ given_of counts.now) }
{
    let grants = open_part(alloc, "Grants without a GrantAck", counts.grants)?;
    let bursts = open_part(alloc, "bursts without their last beat", counts.bursts)?;
    format!(in alloc; "{grants}{bursts}")
}

/// The line of a link.
#[tactic(auto, unfolding(crate::specs::Summaries::link_line_of))]
fn link_line(alloc: Global, count: &LinkCount) -> Result<String, AllocError>
    ensures { IfOk result (λ text. string_bytes text ≡ link_line_of count.now) }
{
    let name = count.name;
    let beats = count.beats;
    let asked = asked_text(alloc, &count.still_open)?;
    let given = given_text(alloc, &count.still_open)?;
    format!(in alloc; "  {name}: beats {beats}{asked}{given}\n")
}

/// Adds the lines of links.
fn push_links(alloc: Global, counts: &[LinkCount], text: &mut String) -> Result<(), AllocError>
    ensures { OnOk result (string_bytes text.new ≡ string_bytes text.old ++ flat_map link_line_of counts.now) }
{
    for count in counts {
        let line = link_line(alloc, count)?;
        text.push_str(line.as_str())?;
    }
    Ok(())
}

/// Whether no link has a beat.
fn are_empty(counts: &[LinkCount]) -> bool
    ensures { result ≡ are_empty counts.now }
{
    counts.iter().all(|count| count.beats == 0)
}

/// The lines of links, or that nothing was checked.
#[tactic(auto, unfolding(crate::specs::Summaries::links_text_of, crate::specs::Summaries::empty_line))]
fn links_text(alloc: Global, counts: &[LinkCount]) -> Result<String, AllocError>
    ensures { IfOk result (λ text. string_bytes text ≡ links_text_of counts.now) }
{
    if are_empty(counts) {
        return format!(in alloc; "  nothing was checked\n");
    }
    let mut text = String::new(alloc);
    push_links(alloc, counts, &mut text)?;
    Ok(text)
}

/// Where the first row of a rule stands.
#[tactic(auto, unfolding(crate::specs::Summaries::place_of))]
fn place_text(alloc: Global, tally: &Tally) -> Result<String, AllocError>
    ensures { IfOk result (λ text. string_bytes text ≡ place_of tally.now) }
{
    let name = tally.name;
    let fragment = tally.first.fragment;
    let line = tally.first.line;
    format!(in alloc; "{name} fragment {fragment} line {line}")
}

/// The line of a rule.
#[tactic(auto, unfolding(crate::specs::Summaries::tally_line_of))]
fn tally_line(alloc: Global, tally: &Tally) -> Result<String, AllocError>
    ensures { IfOk result (λ text. string_bytes text ≡ tally_line_of tally.now) }
{
    let rule = rule_text(tally.rule);
    let count = tally.count;
    let cycle = tally.first.cycle;
    let place = place_text(alloc, tally)?;
    format!(in alloc; "  {rule}: rows {count}, first at cycle {cycle}: {place}\n")
}

/// Adds the lines of rules.
fn push_rules(alloc: Global, tallies: &[Tally], text: &mut String) -> Result<(), AllocError>
    ensures { OnOk result (string_bytes text.new ≡ string_bytes text.old ++ flat_map tally_line_of tallies.now) }
{
    for tally in tallies {
        let line = tally_line(alloc, tally)?;
        text.push_str(line.as_str())?;
    }
    Ok(())
}

/// The lines of rules, or that there are no rows.
#[tactic(auto, unfolding(crate::specs::Summaries::rules_text_of, crate::specs::Summaries::rowless_line))]
fn rules_text(alloc: Global, tallies: &[Tally]) -> Result<String, AllocError>
    ensures { IfOk result (λ text. string_bytes text ≡ rules_text_of tallies.now) }
{
    if tallies.is_empty() {
        return format!(in alloc; "  no rows\n");
    }
    let mut text = String::new(alloc);
    push_rules(alloc, tallies, &mut text)?;
    Ok(text)
}

/// The lines of links and of rules.
fn body(alloc: Global, inputs: &Inputs, rows: &[Row]) -> Result<String, AllocError>
    ensures { AreLinked inputs.now.topo rows.now → IfOk result (λ text. IsBody inputs.now.topo inputs.now.fragments rows.now (string_bytes text)) }
{
    let topo = inputs.topo();
    let counts = link_counts(alloc, topo, inputs.present())?;
    let tallies = all_tallies(alloc, topo, rows)?;
    let links = links_text(alloc, &counts)?;
    let rules = rules_text(alloc, &tallies)?;
    format!(in alloc; "{links}{rules}")
}

/// The summary of these rows of what stands: a line for each link with its beats and what these leave open, or that nothing was
/// checked; and a line for each rule that a row breaks, with the number of its rows and the first of them by cycle, or that there
/// are no rows. The topology has the links of the rows. AllocError where memory is refused.
pub fn report_summary(alloc: Global, inputs: &Inputs, rows: &[Row]) -> Result<String, AllocError>
    ensures { AreLinked inputs.now.topo rows.now → IfOk result (λ text. IsSummary inputs.now.topo inputs.now.fragments rows.now (string_bytes text)) }
{
    let body = body(alloc, inputs, rows)?;
    format!(in alloc; "summary\n{body}")
}

/// How many of the edits that are asked for were accepted, and how many refused.
#[tactic(auto, unfolding(crate::specs::Summaries::edits_line_of))]
fn edits_line(alloc: Global, accepted: u64, asked: u64) -> Result<String, AllocError>
    ensures { IfOk result (λ text. string_bytes text ≡ edits_line_of accepted asked) }
{
    let refused = asked.saturating_sub(accepted);
    format!(in alloc; "  edits accepted {accepted}, refused {refused}\n")
}

/// Which report it is, in a line.
#[tactic(auto, unfolding(crate::specs::Summaries::report_line_of))]
fn report_line(alloc: Global, report: &Report) -> Result<String, AllocError>
    ensures { IfOk result (λ text. string_bytes text ≡ report_line_of report.now) }
{
    let version = report.version();
    let edit = report.edit();
    format!(in alloc; "  report {version} edit {edit}\n")
}

/// The summary of a report of these inputs, and then the last line.
fn reported(
    alloc: Global,
    inputs: &Inputs,
    report: &Report,
    last: &str,
) -> Result<String, AllocError>
    ensures { AreLinked inputs.now.topo report.now.rows → IfOk result (λ text.
        IsReported inputs.now.topo inputs.now.fragments report.now last.now (string_bytes text)) }
{
    let line = report_line(alloc, report)?;
    let body = body(alloc, inputs, report.rows())?;
    format!(in alloc; "summary\n{line}{body}{last}")
}

/// The summary of a report of what the first edits of a log leave, and then the last line.
fn reported_of(alloc: Global, log: &Log, report: &Report, last: &str) -> Result<String, AuditFault>
    ensures { AreLinked log.now.topo report.now.rows → IfOk result (λ text.
        IsReportedOf log.now.topo log.now.edits report.now last.now (string_bytes text)) }
{
    let inputs = log.inputs_at(alloc, report.edit())?;
    Ok(reported(alloc, &inputs, report, last)?)
}

/// The summary of a run on a log of its edits.
fn run_told(
    alloc: Global,
    log: &Log,
    asked: u64,
    report: Option<&Report>,
) -> Result<String, AuditFault>
    ensures { SumsUpRun log.now.topo log.now.edits asked (option_map (λ r. r.now) report.entry) result }
{
    let edits = edits_line(alloc, log.len(), asked)?;
    match report {
        Some(report) => reported_of(alloc, log, report, edits.as_str()),
        None => Ok(format!(in alloc; "summary\n  no report was published\n{edits}")?),
    }
}

/// The summary of the run of a script that asks for so many edits and does not stop: that of its last report, if there is one, as
/// `report_summary` has it, and how many of the edits were accepted and refused. Stop where the script stops; NoSuchEdit where the
/// report is of more edits than were accepted; Memory where memory is refused.
pub fn run_summary(
    alloc: Global,
    topo: &Topo,
    script: &[u8],
    asked: u64,
    report: Option<&Report>,
) -> Result<String, AuditFault>
    ensures { SumsUpRun topo.now (edits_of topo.now script.now) asked (option_map (λ r. r.now) report.entry) result }
{
    let log = log_of(alloc, topo, script)?;
    run_told(alloc, &log, asked, report)
}
