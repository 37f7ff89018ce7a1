//! The monitors that a script attaches, and what they tell at their end.

use std::alloc::{AllocError, Global};
use std::sync::{Arc, OnceLock};
use tl_beats::Watch;
use tl_commands::settlement_line;
use tl_monitor::Settlement;
use tl_script::monitors_of;

/// A monitor that a script attaches.
#[derive(Drop)]
pub(crate) struct Attached {
    /// Its number.
    pub(crate) number: u32,
    /// What it watches as it comes.
    pub(crate) watch: Watch,
    /// Where it leaves what it tells at its end.
    pub(crate) cell: Arc<OnceLock<Settlement>>,
}

/// The monitors that a script attaches, a line each, up to its end or its first bad command.
pub(crate) fn attached_in(alloc: Global, script: &[u8]) -> Result<Vec<Attached>, AllocError> {
    let monitors = monitors_of(alloc, script)?;
    let mut all = Vec::new(alloc);
    for monitor in &monitors {
        let (number, watch) = *monitor;
        let cell = Arc::new(alloc, OnceLock::new())?;
        all.push(Attached {
            number,
            watch,
            cell,
        })?;
    }
    Ok(all)
}

/// What these monitors told at their end, a line each.
pub(crate) fn settlement_lines(alloc: Global, attached: &[Attached]) -> Result<String, AllocError> {
    let mut text = String::new(alloc);
    for monitor in attached {
        if let Some(told) = monitor.cell.get() {
            let line = settlement_line(alloc, monitor.number, told.watch, told.closed_at)?;
            text.push_str(line.as_str())?;
        }
    }
    Ok(text)
}
