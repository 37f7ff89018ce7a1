//! The report of what edits leave.

ghost use Rattle.std.specs.Prelude.{◌≡◌, ◌≤◌, ◌<◌, ℕ, IfOk, OnOk, length, take};
ghost use Rattle.std.specs.List.{All};
ghost use Rattle.std.specs.Result.{IsErrOf};
ghost use Rattle.tl_definitions.specs.Report.{IsReport};
ghost use Rattle.tl_edits.specs.Log.{inputs_after};
ghost use Rattle.tl_check.specs.Captured.{captures_after};

use crate::checking::check_all;
use std::alloc::{AllocError, Global};
use tl_beats::Row;
use tl_edits::{Inputs, Log, PastFault};

/// The report of what stands, made from the beginning: of its fragments, with its regions and the monitors that are attached.
/// AllocError where memory is refused.
pub fn scratch(alloc: Global, inputs: &Inputs) -> Result<Vec<Row>, AllocError>
    ensures report { IfOk result (λ rows. IsReport (captures_after inputs.now) rows.items) }
    ensures links { IfOk result (λ rows. All (λ row. row.link < length inputs.now.topo.links) rows.items) }
{
    let watches = inputs.watches(alloc)?;
    check_all(
        alloc,
        inputs.topo(),
        inputs.present(),
        inputs.regions(),
        &watches,
    )
}

/// The report of what the first so many edits of a log leave, made from the beginning. NoSuchEdit where fewer were accepted;
/// Memory where memory is refused.
pub fn audit(alloc: Global, log: &Log, count: u64) -> Result<Vec<Row>, PastFault>
    ensures report { IfOk result (λ rows. IsReport (captures_after (inputs_after log.now.topo (take count log.now.edits))) rows.items) }
    ensures links { IfOk result (λ rows. All (λ row. row.link < length log.now.topo.links) rows.items) }
    ensures within { OnOk result (count ≤ length log.now.edits) }
    ensures beyond { (n : ℕ) → IsErrOf result (PastFault.NoSuchEdit n) → (n ≡ count) × (length log.now.edits < count) }
{
    let inputs = log.inputs_at(alloc, count)?;
    Ok(scratch(alloc, &inputs)?)
}
