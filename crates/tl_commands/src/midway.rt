//! What is told of rows of a capture from the middle of a run.

use crate::merging::link_name;
use crate::pasts::inputs_left;
use std::alloc::{AllocError, Global};
use tl_check::Report;
use tl_edits::Inputs;
use tl_midway::{Counts, HeadsKnown, Midway, RuleCount, counted_report, heads_known};
use tl_options::How;
use tl_rows::chan_text;
use tl_script::AuditFault;
use tl_tables::{Chan, rule_text};
use tl_topology::Topo;

/// How many channels a link has.
const CHANNELS: usize = 5;

/// The law by which rows stand, as a line.
pub(crate) fn law_line(law: Midway) -> &'static str {
    match law {
        Midway::Any => "tlcheck: each row stands whatever lawful beats came before the capture\n",
        Midway::Bursts => {
            "tlcheck: each row stands whatever lawful beats came before the capture, if no burst that its beginning cuts breaks U1\n"
        }
        Midway::Heads => {
            "tlcheck: each row stands whatever lawful beats came before the capture, if each channel begins with the head of a message\n"
        }
    }
}

/// How many beats are in lead-ins, as a line.
fn lead_in_line(alloc: Global, count: u64) -> Result<String, AllocError> {
    let (beats, their) = if count == 1 {
        ("beat", "its")
    } else {
        ("beats", "their")
    };
    format!(in alloc;
        "tlcheck: {count} {beats} came while it was uncertain where messages begin on {their} channel\n"
    )
}

/// Puts how many beats a rule leaves unjudged after those of other rules; nothing where it leaves none.
fn push_unjudged(
    alloc: Global,
    count: &RuleCount,
    unjudged: &mut String,
) -> Result<(), AllocError> {
    if count.beats == 0 {
        return Ok(());
    }
    let (rule, beats) = (rule_text(count.rule), count.beats);
    if !unjudged.is_empty() {
        unjudged.push_str(", ")?;
    }
    unjudged.push_str(&format!(in alloc; "{rule} {beats}")?)
}

/// How many beats each rule leaves unjudged, as a line.
fn unjudged_line(alloc: Global, counts: &[RuleCount]) -> Result<String, AllocError> {
    let mut unjudged = String::new(alloc);
    for count in counts {
        push_unjudged(alloc, count, &mut unjudged)?;
    }
    if unjudged.is_empty() {
        format!(in alloc; "tlcheck: no rule left a beat unjudged for lack of what came before\n")
    } else {
        format!(in alloc;
            "tlcheck: beats left unjudged for lack of what came before, by rule: {unjudged}\n"
        )
    }
}

/// Puts after a text by which law rows of a capture from the middle of a run stand, and how many beats are in lead-ins.
pub(crate) fn push_lead_ins(
    alloc: Global,
    law: Midway,
    count: u64,
    notes: &mut String,
) -> Result<(), AllocError> {
    let lead_ins = lead_in_line(alloc, count)?;
    notes.push_str(law_line(law))?;
    notes.push_str(&lead_ins)
}

/// Puts what rows of a capture from the middle of a run rest on after a text: the law by which they stand, how many beats are in
/// lead-ins, and where they are counted by rule, how many each rule leaves unjudged.
fn push_law(alloc: Global, counts: &Counts, notes: &mut String) -> Result<(), AllocError> {
    push_lead_ins(alloc, counts.law, counts.lead_ins, notes)?;
    if !counts.by_rule {
        return Ok(());
    }
    let unjudged = unjudged_line(alloc, &counts.unjudged)?;
    notes.push_str(&unjudged)
}

/// Puts what rows of what stands rest on after a text; nothing where the capture is a whole run's, and so nothing is counted.
pub(crate) fn push_midway(
    alloc: Global,
    counts: Option<&Counts>,
    notes: &mut String,
) -> Result<(), AllocError> {
    match counts {
        Some(counts) => push_law(alloc, counts, notes),
        None => Ok(()),
    }
}

/// Puts the channel of a link whose heads are known from a cycle on after those before it.
fn push_known(alloc: Global, chan: Chan, cycle: u64, known: &mut String) -> Result<(), AllocError> {
    let chan = chan_text(chan);
    if !known.is_empty() {
        known.push_str(", ")?;
    }
    known.push_str(&format!(in alloc; "{chan} from cycle {cycle}")?)
}

/// From which cycle on the heads of each channel of a link are known, as a line; a channel without such a beat is left out.
fn link_heads(alloc: Global, topo: &Topo, own: &[HeadsKnown]) -> Result<String, AllocError> {
    let name = match own.first() {
        Some(heads) => link_name(topo, heads.link),
        None => "",
    };
    let mut known = String::new(alloc);
    for heads in own {
        if let Some(cycle) = heads.cycle {
            push_known(alloc, heads.chan, cycle, &mut known)?;
        }
    }
    if known.is_empty() {
        format!(in alloc; "  {name}: no heads known\n")
    } else {
        format!(in alloc; "  {name}: heads known on {known}\n")
    }
}

/// From which cycle on the heads of each channel are known, a line for each link; nothing where the capture is a whole run's.
pub(crate) fn heads_text(
    alloc: Global,
    inputs: &Inputs,
    midway: Option<Midway>,
) -> Result<String, AllocError> {
    let mut text = String::new(alloc);
    let Some(law) = midway else {
        return Ok(text);
    };
    let found = heads_known(alloc, inputs, law)?;
    for own in found.chunks(CHANNELS) {
        text.push_str(&link_heads(alloc, inputs.topo(), own)?)?;
    }
    Ok(text)
}

/// What the rows of the last report of a script's run rest on: the law by which they stand, how many beats are in lead-ins and, where they
/// are counted, how many each rule leaves unjudged, and with a summary from which cycle on heads are known. Without a report nothing of
/// beats. The faults of an audit of its edits.
pub fn midway_notes(
    alloc: Global,
    topo: &Topo,
    script: &[u8],
    last: Option<&Report>,
    law: Midway,
    how: How,
) -> Result<String, AuditFault> {
    let mut notes = String::new(alloc);
    let Some(report) = last else {
        notes.push_str(law_line(law))?;
        return Ok(notes);
    };
    let inputs = inputs_left(alloc, topo, script, Some(report.edit()))?;
    let found = counted_report(alloc, &inputs, law, how.unjudged)?;
    push_law(alloc, &found.counts, &mut notes)?;
    if how.summary {
        notes.push_str(&heads_text(alloc, &inputs, Some(law))?)?;
    }
    Ok(notes)
}
