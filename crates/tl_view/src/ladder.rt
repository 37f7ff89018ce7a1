//! A scene as text: a ladder, with time downwards.

use crate::scene::{Lane, Part, Scene, Shown};
use crate::steps::{
    Reach, Step, columns_of, cycle_of, gap_text, heading_of, note_of, reach_of, steps_of, title_of,
};
use std::alloc::{AllocError, Global};

/// The fewest characters of a cycle, as of its title.
const LEAST_CYCLE: usize = 5;

/// What stands between two lanes where no arrow is.
const BLANK: &str = "                                ";

/// A text of these characters with spaces before it.
fn padded(alloc: Global, text: &str, width: usize) -> Result<String, AllocError> {
    let mut padded = String::new(alloc);
    for _ in text.len()..width {
        padded.push(' ')?;
    }
    padded.push_str(text)?;
    Ok(padded)
}

/// What an arrow is drawn with.
fn stroke_of(part: Part) -> &'static str {
    match part {
        Part::Broken => "=",
        Part::Earlier | Part::Other => "-",
    }
}

/// An arrow's text with its stroke after it, up to the next lane but for the two ends.
fn drawn(alloc: Global, text: &str, part: Part) -> Result<String, AllocError> {
    match part {
        Part::Broken => format!(in alloc; "{text:=<30}"),
        Part::Earlier | Part::Other => format!(in alloc; "{text:-<30}"),
    }
}

/// The label of an arrow that has one here.
fn label_text(alloc: Global, shown: &Shown, is_labelled: bool) -> Result<String, AllocError> {
    let stroke = stroke_of(shown.part);
    let label = &shown.label;
    if is_labelled {
        format!(in alloc; "{stroke} {label} ")
    } else {
        Ok(String::new(alloc))
    }
}

/// What stands after a column, before the next one.
fn segment(
    alloc: Global,
    reach: Reach,
    shown: &Shown,
    column: usize,
) -> Result<String, AllocError> {
    let (low, high) = reach.ends();
    if column < low || column >= high {
        return String::from_str(alloc, BLANK);
    }
    let next = column.saturating_add(1);
    let stroke = stroke_of(shown.part);
    let is_labelled = column == 0 || next == high;
    let label = label_text(alloc, shown, is_labelled)?;
    let body = drawn(alloc, label.as_str(), shown.part)?;
    let left = if reach.is_leftward() && column == low {
        "<"
    } else {
        stroke
    };
    let right = if !reach.is_leftward() && next == high {
        ">"
    } else {
        stroke
    };
    format!(in alloc; "{left}{body}{right}")
}

/// The lanes of a row with an arrow.
fn lanes_with(
    alloc: Global,
    reach: Reach,
    shown: &Shown,
    columns: usize,
) -> Result<String, AllocError> {
    let mut text = String::from_str(alloc, "|")?;
    for column in 1..columns {
        let segment = segment(alloc, reach, shown, column.saturating_sub(1))?;
        text.push_str(segment.as_str())?;
        text.push('|')?;
    }
    Ok(text)
}

/// The line of an arrow.
fn arrow_line(
    alloc: Global,
    scene: &Scene,
    shown: &Shown,
    columns: usize,
    width: usize,
) -> Result<String, AllocError> {
    let mark = match shown.part {
        Part::Broken => "X",
        Part::Earlier | Part::Other => " ",
    };
    let number = shown.place.beat.cycle;
    let number = format!(in alloc; "{number}")?;
    let cycle = padded(alloc, number.as_str(), width)?;
    let lanes = lanes_with(alloc, reach_of(scene, shown), shown, columns)?;
    let note = note_of(alloc, scene, shown)?;
    format!(in alloc; "{mark} {cycle}  {lanes}  {note}\n")
}

/// The line of what is left out.
fn gap_line(alloc: Global, count: usize, width: usize) -> Result<String, AllocError> {
    let dots = padded(alloc, "..", width)?;
    let text = gap_text(alloc, count)?;
    format!(in alloc; "  {dots}  {text}\n")
}

/// The line of a row.
fn step_line(
    alloc: Global,
    scene: &Scene,
    step: Step<'_>,
    columns: usize,
    width: usize,
) -> Result<String, AllocError> {
    match step {
        Step::Arrow(shown) => arrow_line(alloc, scene, shown, columns, width),
        Step::Gap(count) => gap_line(alloc, count, width),
    }
}

/// The title of a lane, up to the next one.
fn lane_title(alloc: Global, lane: Option<&Lane>) -> Result<String, AllocError> {
    let title = title_of(lane);
    format!(in alloc; "{title:<33}")
}

/// The line of the titles.
fn titles_line(
    alloc: Global,
    columns: &[Option<&Lane>],
    width: usize,
) -> Result<String, AllocError> {
    let mut text = padded(alloc, "cycle", width)?;
    let mut titles = String::new(alloc);
    for column in columns {
        let title = lane_title(alloc, *column)?;
        titles.push_str(title.as_str())?;
    }
    text.push_str("  ")?;
    text.push_str(titles.as_str().trim_end())?;
    format!(in alloc; "  {text}\n")
}

/// A line of lanes without an arrow.
fn lanes_line(alloc: Global, columns: usize, width: usize) -> Result<String, AllocError> {
    let mut text = padded(alloc, "", width)?;
    text.push_str("    |")?;
    for _ in 1..columns {
        text.push_str(BLANK)?;
        text.push('|')?;
    }
    text.push('\n')?;
    Ok(text)
}

/// The lines of some rows.
fn step_lines(
    alloc: Global,
    scene: &Scene,
    steps: &[Step<'_>],
    columns: usize,
    width: usize,
) -> Result<String, AllocError> {
    let mut text = String::new(alloc);
    for step in steps {
        let line = step_line(alloc, scene, *step, columns, width)?;
        text.push_str(line.as_str())?;
    }
    Ok(text)
}

/// How many characters a cycle has at most.
fn cycle_width(alloc: Global, scene: &Scene) -> Result<usize, AllocError> {
    let last = cycle_of(scene.shown.last());
    let last = format!(in alloc; "{last}")?;
    Ok(last.len().max(LEAST_CYCLE))
}

/// The lanes of a scene with its arrows.
fn lanes_text(alloc: Global, scene: &Scene, width: usize) -> Result<String, AllocError> {
    let columns = columns_of(alloc, scene)?;
    let titles = titles_line(alloc, &columns, width)?;
    let bars = lanes_line(alloc, columns.len(), width)?;
    let steps = steps_of(alloc, scene)?;
    let lines = step_lines(alloc, scene, &steps, columns.len(), width)?;
    format!(in alloc; "{titles}{bars}{lines}{bars}")
}

/// A scene as text: what it shows in a line; a lane for each client and one for the manager, with an arrow for each message, its cycle
/// before it, and its place and fields after it; and below what `--show` writes of the row. The row's beat is marked by `X` and by
/// another stroke. Of more than 60 messages the middle is left out. AllocError where memory is refused.
pub fn ladder_text(alloc: Global, scene: &Scene) -> Result<String, AllocError> {
    let heading = heading_of(alloc, scene)?;
    let width = cycle_width(alloc, scene)?;
    let lanes = lanes_text(alloc, scene, width)?;
    let lines = &scene.lines;
    format!(in alloc; "{heading}\n\n{lanes}\n{lines}")
}
