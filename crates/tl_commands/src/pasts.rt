//! What the edits of a script leave.

use std::alloc::Global;
use tl_edits::{Inputs, Log};
use tl_script::{AuditFault, log_of};
use tl_topology::Topo;

/// What the first so many edits of a log leave.
fn inputs_at(alloc: Global, log: &Log, edit: u64) -> Result<Inputs, AuditFault> {
    Ok(log.inputs_at(alloc, edit)?)
}

/// What the first so many accepted edits of a script leave, or all of them.
pub(crate) fn inputs_left(
    alloc: Global,
    topo: &Topo,
    script: &[u8],
    edit: Option<u64>,
) -> Result<Inputs, AuditFault> {
    let log = log_of(alloc, topo, script)?;
    inputs_at(alloc, &log, edit.unwrap_or(log.len()))
}
