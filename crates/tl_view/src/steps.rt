//! What pictures have in common: their arrows from top to bottom, their lanes, and what is written beside them.

ghost use Rattle.std.specs.Prelude.{◌≤◌};

use crate::scene::{Lane, Part, Scene, Shown};
use std::alloc::{AllocError, Global};
use tl_tables::{Chan, rule_text};
use tl_topology::Name;

/// The most arrows of a picture; where there are more, those in the middle are left out.
const MOST_ARROWS: usize = 60;

/// How many of them are drawn before and after those that are left out.
const HALF: usize = MOST_ARROWS / 2;

/// What stands in a row of a picture.
#[derive(Clone, Copy)]
pub(crate) enum Step<'a> {
    /// A message.
    Arrow(&'a Shown),
    /// So many messages that are left out.
    Gap(usize),
}

/// The arrows of a scene.
fn arrows_of<'a>(alloc: Global, scene: &'a Scene) -> Result<Vec<&'a Shown>, AllocError> {
    let mut arrows = Vec::new(alloc);
    for shown in &scene.shown {
        if shown.is_arrow() {
            arrows.push(shown)?;
        }
    }
    Ok(arrows)
}

/// These arrows, without those in the middle where they are too many.
fn steps_with<'a>(alloc: Global, arrows: &[&'a Shown]) -> Result<Vec<Step<'a>>, AllocError> {
    let left_out = arrows.len().saturating_sub(MOST_ARROWS);
    let after = HALF.saturating_add(left_out);
    let mut steps = Vec::new(alloc);
    for (place, arrow) in arrows.iter().enumerate() {
        if place < HALF || place >= after {
            steps.push(Step::Arrow(*arrow))?;
        } else if place == HALF {
            steps.push(Step::Gap(left_out))?;
        }
    }
    Ok(steps)
}

/// What stands in the rows of a picture, from top to bottom.
pub(crate) fn steps_of<'a>(alloc: Global, scene: &'a Scene) -> Result<Vec<Step<'a>>, AllocError> {
    let arrows = arrows_of(alloc, scene)?;
    steps_with(alloc, &arrows)
}

/// Which lanes an arrow leads over, by their columns: the row's client is in 0, its manager in 1, other clients in those after.
#[derive(Clone, Copy)]
pub(crate) struct Reach {
    /// The column of the client.
    pub(crate) client: usize,
    /// Whether the arrow leads from the manager to the client.
    pub(crate) is_down: bool,
}

impl Reach {
    /// The columns that it leads over, of which the first is less.
    pub(crate) fn ends(self) -> (usize, usize) {
        if self.client == 0 {
            (0, 1)
        } else {
            (1, self.client)
        }
    }

    /// Whether it points to the left.
    pub(crate) fn is_leftward(self) -> bool {
        (self.client == 0) == self.is_down
    }
}

/// The column of a lane.
pub(crate) fn column_of(place: usize) -> usize {
    if place == 0 {
        0
    } else {
        place.saturating_add(1)
    }
}

/// The lanes that an arrow leads over.
pub(crate) fn reach_of(scene: &Scene, shown: &Shown) -> Reach {
    let place = scene
        .lanes
        .iter()
        .position(|lane| lane.link == shown.place.link)
        .unwrap_or(0);
    Reach {
        client: column_of(place),
        is_down: matches!(shown.place.beat.chan, Chan::B | Chan::D),
    }
}

/// The name of a link that has a lane.
pub(crate) fn name_of(scene: &Scene, link: u16) -> Option<Name> {
    let lane = scene.lanes.iter().find(|lane| lane.link == link)?;
    Some(lane.name)
}

/// What is written at the top of a column.
pub(crate) fn title_of(lane: Option<&Lane>) -> &str {
    match lane {
        Some(lane) => lane.name.as_str(),
        None => "manager",
    }
}

/// The lanes of a picture from left to right; None is that of the manager.
pub(crate) fn columns_of<'a>(
    alloc: Global,
    scene: &'a Scene,
) -> Result<Vec<Option<&'a Lane>>, AllocError> {
    let mut columns = Vec::new(alloc);
    for lane in &scene.lanes {
        columns.push(Some(lane))?;
        if columns.len() == 1 {
            columns.push(None)?;
        }
    }
    Ok(columns)
}

/// The text of a name.
fn name_text(alloc: Global, name: Option<Name>) -> Result<String, AllocError> {
    match name {
        Some(name) => format!(in alloc; "{name}"),
        None => Ok(String::new(alloc)),
    }
}

/// What a beat is to the row, in words.
fn part_text(alloc: Global, scene: &Scene, part: Part) -> Result<String, AllocError> {
    match part {
        Part::Broken => {
            let rule = rule_text(scene.told.row.rule);
            format!(in alloc; ", breaks {rule}")
        }
        Part::Earlier => format!(in alloc; ", the earlier beat"),
        Part::Other => Ok(String::new(alloc)),
    }
}

/// What is written beside an arrow: where its beat stands, what it is to the row, and its fields.
pub(crate) fn note_of(alloc: Global, scene: &Scene, shown: &Shown) -> Result<String, AllocError> {
    let link = name_text(alloc, name_of(scene, shown.place.link))?;
    let fragment = shown.place.fragment;
    let line = shown.place.line;
    let part = part_text(alloc, scene, shown.part)?;
    let fields = &shown.fields;
    format!(in alloc; "{link} {fragment} {line}{part}: {fields}")
}

/// What the messages are of.
fn subject_text(alloc: Global, scene: &Scene) -> Result<String, AllocError> {
    let link = name_text(alloc, name_of(scene, scene.subject.link))?;
    match (scene.subject.block, scene.subject.source) {
        (Some(block), Some(source)) => {
            format!(in alloc; "block {block:x}, and source {source} of {link}")
        }
        (Some(block), None) => format!(in alloc; "block {block:x}"),
        (None, Some(source)) => format!(in alloc; "source {source} of {link}"),
        (None, None) => format!(in alloc; "{link}"),
    }
}

/// The cycle of a beat that is shown, or 0.
pub(crate) fn cycle_of(shown: Option<&Shown>) -> u64 {
    match shown {
        Some(shown) => shown.place.beat.cycle,
        None => 0,
    }
}

/// How many arrows a scene has.
fn arrow_count(scene: &Scene) -> usize {
    scene.shown.iter().filter(|shown| shown.is_arrow()).count()
}

/// How many messages there are, in words.
fn count_text(alloc: Global, count: usize) -> Result<String, AllocError> {
    if count == 1 {
        format!(in alloc; "1 message")
    } else {
        format!(in alloc; "{count} messages")
    }
}

/// What is shown, in a line without its end: of which block and source, how many messages, and from which cycle to which.
pub(crate) fn heading_of(alloc: Global, scene: &Scene) -> Result<String, AllocError> {
    let subject = subject_text(alloc, scene)?;
    let count = count_text(alloc, arrow_count(scene))?;
    let from = cycle_of(scene.shown.first());
    let to = cycle_of(scene.shown.last());
    format!(in alloc; "{subject}: {count} from cycle {from} to cycle {to}")
}

/// What is written where messages are left out.
pub(crate) fn gap_text(alloc: Global, count: usize) -> Result<String, AllocError> {
    format!(in alloc; "{count} more messages, left out here")
}
