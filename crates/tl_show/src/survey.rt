//! What the beats of all managers tell of some rows, and how much was checked.

ghost use Rattle.std.specs.Prelude.{◌≡◌, ◌<◌, IfOk, length};
ghost use Rattle.std.specs.List.{All, AllByRecursion};
ghost use Rattle.tl_show.specs.Lines.{IsSoundTold};
ghost use Rattle.tl_show.specs.Shown.{told_of_all, IsSurvey};

use std::alloc::{AllocError, Global};
use tl_beats::Row;
use tl_capture::Present;
use tl_client_rules::clients_of;
use tl_rows::{OpenCounts, Told, tell};
use tl_topology::Topo;

/// How much was checked, and what is open after the last beat.
#[derive(Clone, Copy, Debug, PartialEq)]
pub struct Counts {
    /// Beats.
    pub beats: usize,
    /// Beats that are heads.
    pub heads: usize,
    /// Windows of 4,096 cycles of a manager that hold a beat.
    pub windows: usize,
    /// What is open.
    pub still_open: OpenCounts,
}

/// What the beats tell.
#[derive(Drop)]
pub struct Survey {
    /// The rows of their beats, each with what makes it so.
    pub told: Vec<Told>,
    /// How much was checked.
    pub counts: Counts,
}

impl Counts {
    /// Those of no beats.
    fn none() -> Counts {
        Counts {
            beats: 0,
            heads: 0,
            windows: 0,
            still_open: OpenCounts {
                requests: 0,
                releases: 0,
                probes: 0,
                grants: 0,
                bursts: 0,
            },
        }
    }

    /// Both together. AllocError where they are more than memory could have.
    fn with(&self, more: &Counts) -> Result<Counts, AllocError> {
        Ok(Counts {
            beats: added(self.beats, more.beats)?,
            heads: added(self.heads, more.heads)?,
            windows: added(self.windows, more.windows)?,
            still_open: OpenCounts {
                requests: added(self.still_open.requests, more.still_open.requests)?,
                releases: added(self.still_open.releases, more.still_open.releases)?,
                probes: added(self.still_open.probes, more.still_open.probes)?,
                grants: added(self.still_open.grants, more.still_open.grants)?,
                bursts: added(self.still_open.bursts, more.still_open.bursts)?,
            },
        })
    }
}

/// The sum of two counts. AllocError where it is more than memory could have.
fn added(count: usize, more: usize) -> Result<usize, AllocError> {
    match count.checked_add(more) {
        Some(sum) => Ok(sum),
        None => Err(AllocError),
    }
}

/// How many items there are.
fn length_of<T>(items: &[T]) -> usize
    ensures { result ≡ length items.now }
{
    items.len()
}

/// What the beats of one manager tell.
fn manager_survey(
    alloc: Global,
    topo: &Topo,
    present: &Present,
    manager: u16,
    rows: &[Row],
) -> Result<Survey, AllocError>
    requires { manager < length topo.now.managers }
    ensures exact { IfOk result (λ survey. IsSurvey topo.now present.now manager rows.now survey) }
    ensures sound { IfOk result (λ survey. AllByRecursion (IsSoundTold topo.now) survey.told.items) }
{
    let exponent = topo.block(manager).unwrap();
    let links = clients_of(alloc, topo, manager)?;
    let beats = present.beats(alloc, &links)?;
    let windows = present.windows(alloc, &links)?;
    let telling = tell(alloc, topo, exponent, &links, &beats, rows)?;
    Ok(Survey {
        told: telling.told,
        counts: Counts {
            beats: length_of(&beats),
            heads: telling.heads,
            windows: length_of(&windows),
            still_open: telling.open,
        },
    })
}

/// What the beats of the fragments that are present tell of some rows: of the beats of each manager those of the rows that are
/// of them, each with what makes it so, in one pass over the beats; and how much was checked, of all managers together.
/// AllocError where memory is refused.
pub fn survey_beats(
    alloc: Global,
    topo: &Topo,
    present: &Present,
    rows: &[Row],
) -> Result<Survey, AllocError>
    ensures told { IfOk result (λ survey. survey.told.items ≡ told_of_all topo.now present.now rows.now) }
    ensures sound { IfOk result (λ survey. All (IsSoundTold topo.now) survey.told.items) }
{
    let mut told = Vec::new(alloc);
    let mut counts = Counts::none();
    for manager in 0..topo.manager_count() {
        let own = manager_survey(alloc, topo, present, manager as u16, rows)?;
        told.extend_from_slice(&own.told)?;
        counts = counts.with(&own.counts)?;
    }
    Ok(Survey { told, counts })
}
