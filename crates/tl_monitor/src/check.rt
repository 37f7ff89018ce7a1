//! The check of a monitor's window.

ghost use Rattle.std.specs.Prelude.{◌≡◌, IfOk, OnErr};
ghost use Rattle.std.specs.List.Sorted.{IsStrictlySortedBy};
ghost use Rattle.tl_definitions.specs.Positions.{position_order};
ghost use Rattle.tl_definitions.specs.Watching.{flag_row};
ghost use Rattle.tl_definitions.specs.Tallies.{kept_tally, AreOfOneLink};
ghost use Rattle.tl_monitor.specs.Held.{WatchFinds, StopsAmid};

use crate::monitor::Monitor;
use crate::watched::Watched;
use std::alloc::{AllocError, Global};
use tl_beats::{Placed, Row};
use tl_tables::Rule;

/// What the check of a window found.
#[derive(Drop)]
pub struct Checked {
    /// The tally after its beats.
    pub tally: u32,
    /// The rows of the beats that the watch flags, in the order of reports, each once.
    pub rows: Vec<Row>,
}

/// The row of a beat that a monitor flags.
fn flag(monitor: u32, at: &Placed) -> Row
    ensures { result ≡ flag_row monitor at.now }
{
    Row {
        link: at.link,
        cycle: at.beat.cycle,
        chan: at.beat.chan,
        rule: Rule::X1,
        monitor: Some(monitor),
        fragment: at.fragment,
        line: at.line,
    }
}

/// Checks one window of a monitor, which is told by its number: judges the beats of its link, which stand in the order of
/// positions, from the tally of those before them, whatever that is. It takes memory for the rows alone. AllocError where that
/// is refused: then the monitor has seen some front of the beats, and is restarted at its next use.
#[tactic(auto, using(crate::proofs::CheckLaws::left_more, crate::proofs::CheckLaws::rows_more))]
pub fn monitor_check<M: Monitor>(
    alloc: Global,
    number: u32,
    monitor: &mut Watched<M>,
    tally: u32,
    beats: &[Placed],
) -> Result<Checked, AllocError>
    requires link { AreOfOneLink beats.now }
    requires rises { IsStrictlySortedBy position_order beats.now }
    ensures pass { IfOk result (λ checked. WatchFinds number monitor.old.watch tally beats.now checked.tally checked.rows.items) }
    ensures kept { IfOk result (λ checked. kept_tally monitor.old.watch checked.tally ≡ checked.tally) }
    ensures held { IfOk result (λ checked. monitor.new ≡ record monitor.old { tally = checked.tally }) }
    ensures err { OnErr result (StopsAmid number monitor.old tally beats.now monitor.new) }
{
    monitor.restart(tally);
    let mut rows = Vec::new(alloc);
    for at in beats {
        if monitor.see(&at.beat) {
            rows.push(flag(number, at))?;
        }
    }
    Ok(Checked {
        tally: monitor.tally(),
        rows,
    })
}
