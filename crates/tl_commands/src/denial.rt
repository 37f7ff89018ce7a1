//! What `--deny` makes a fault: that something was refused, or that no beat was checked.

use crate::pasts::inputs_left;
use std::alloc::{AllocError, Global};
use std::fmt;
use std::sync::Arc;
use tl_beats::Fragment;
use tl_edits::Inputs;
use tl_options::Deny;
use tl_script::{AuditFault, Command, Spot, Visitor, log_of, visit_all};
use tl_topology::Topo;

/// The most reports of a script; a further one is refused.
const MOST_REPORTS: u64 = 65_536;

/// Why a run is denied.
#[derive(Clone, Copy)]
pub enum Denial {
    /// An edit or a report was refused.
    Refused,
    /// No beat was checked.
    Empty,
}

impl fmt::Display for Denial {
    fn fmt<W: fmt::Write>(&self, f: &mut fmt::Formatter<W>) -> fmt::Result {
        match self {
            Denial::Refused => f.write_str("tlcheck: denied: an edit or a report was refused"),
            Denial::Empty => f.write_str("tlcheck: denied: no beat was checked"),
        }
    }
}

/// What the commands of a script ask for.
#[derive(Clone, Copy)]
struct Asked {
    /// How many edits.
    edits: u64,
    /// How many reports.
    reports: u64,
    /// How many bytes of the script are left after the last report.
    unchecked: usize,
}

impl<'s> Visitor<'s> for Asked {
    ghost has_seen = { λ _ _ _. Unit {0} };

    fn visit(&mut self, command: &Command<'s>, spot: Spot<'s>) -> Result<(), AllocError> {
        if matches!(command, Command::Publish) {
            self.reports = self.reports.saturating_add(1);
            self.unchecked = spot.rest.len().saturating_sub(spot.taken);
        } else {
            self.edits = self.edits.saturating_add(1);
        }
        Ok(())
    }
}

/// How many edits the commands of a script ask for, up to its end or its first bad command.
pub fn edits_in(script: &[u8]) -> u64 {
    asked_in(script).edits
}

/// What the commands of a script ask for, up to its end or its first bad command.
fn asked_in(script: &[u8]) -> Asked {
    let mut asked = Asked {
        edits: 0,
        reports: 0,
        unchecked: script.len(),
    };
    let _ = visit_all(script, &mut asked);
    asked
}

/// Whether an edit of a script is refused.
fn is_edit_refused(
    alloc: Global,
    topo: &Topo,
    script: &[u8],
    asked: Asked,
) -> Result<bool, AuditFault> {
    let log = log_of(alloc, topo, script)?;
    Ok(asked.edits > log.len())
}

/// Whether a link has a beat.
fn has_beat(alloc: Global, inputs: &Inputs, link: u16) -> Result<bool, AllocError> {
    let windows = inputs.present().windows(alloc, &[link])?;
    Ok(!windows.is_empty())
}

/// Whether no link has a beat.
fn is_beatless(alloc: Global, inputs: &Inputs) -> Result<bool, AuditFault> {
    for link in 0..u16::MAX {
        if usize::from(link) >= inputs.topo().link_count() {
            return Ok(true);
        }
        if has_beat(alloc, inputs, link)? {
            return Ok(false);
        }
    }
    Ok(true)
}

/// Whether what a script leaves, or its first so many accepted edits, has no beat.
fn has_no_beat(
    alloc: Global,
    topo: &Topo,
    script: &[u8],
    edit: Option<u64>,
) -> Result<bool, AuditFault> {
    let inputs = inputs_left(alloc, topo, script, edit)?;
    is_beatless(alloc, &inputs)
}

/// Why a report of these fragments is denied. None of them was refused.
pub(crate) fn denial_of_fragments(deny: Deny, fragments: &[Arc<Fragment>]) -> Option<Denial> {
    let is_empty = fragments.iter().all(|fragment| fragment.beats().is_empty());
    if deny.empty && is_empty {
        Some(Denial::Empty)
    } else {
        None
    }
}

/// Why a run of a script that doesn't stop is denied: an edit or a report was refused, or its last report saw no beat. Memory where
/// memory is refused.
pub fn denial_of_run(
    deny: Deny,
    alloc: Global,
    topo: &Topo,
    script: &[u8],
) -> Result<Option<Denial>, AuditFault> {
    let asked = asked_in(script);
    if deny.refused
        && (asked.reports > MOST_REPORTS || is_edit_refused(alloc, topo, script, asked)?)
    {
        return Ok(Some(Denial::Refused));
    }
    let checked = script.len().saturating_sub(asked.unchecked);
    let checked = script.get(..checked).unwrap_or(script);
    if deny.empty && has_no_beat(alloc, topo, checked, None)? {
        return Ok(Some(Denial::Empty));
    }
    Ok(None)
}

/// Why an audit of a script that doesn't stop is denied: an edit of the script was refused, or what is audited has no beat.
pub(crate) fn denial_of_audit(
    deny: Deny,
    alloc: Global,
    topo: &Topo,
    script: &[u8],
    edit: u64,
) -> Result<Option<Denial>, AuditFault> {
    if deny.refused && is_edit_refused(alloc, topo, script, asked_in(script))? {
        return Ok(Some(Denial::Refused));
    }
    if deny.empty && has_no_beat(alloc, topo, script, Some(edit))? {
        return Ok(Some(Denial::Empty));
    }
    Ok(None)
}
