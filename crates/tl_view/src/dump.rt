//! A scene as a waveform: a Value Change Dump.

use crate::scene::{Lane, Part, Scene, Shown};
use crate::signals::{
    BROKEN_CODE, CHANNELS, EARLIER_CODE, FIELDS, Field, Kind, Signal, broken_name, has_channel,
};
use crate::steps::{cycle_of, heading_of};
use std::alloc::{AllocError, Global};
use tl_beats::Beat;
use tl_rows::{chan_text, op_text, param_text};
use tl_tables::{Chan, Level, Op, op_of};

/// How a signal's kind and width are written.
fn kind_text(alloc: Global, kind: Kind) -> Result<String, AllocError> {
    match kind {
        Kind::Bit => format!(in alloc; "wire 1"),
        Kind::Word => format!(in alloc; "string 1"),
        Kind::Number(bits) => format!(in alloc; "wire {bits}"),
    }
}

/// The range of a number's signal.
fn range_text(alloc: Global, kind: Kind) -> Result<String, AllocError> {
    match kind {
        Kind::Number(bits) => {
            let high = bits.saturating_sub(1);
            format!(in alloc; " [{high}:0]")
        }
        Kind::Bit | Kind::Word => Ok(String::new(alloc)),
    }
}

/// The declaration of a signal.
fn signal_line(alloc: Global, signal: Signal) -> Result<String, AllocError> {
    let kind = kind_text(alloc, signal.field.kind())?;
    let range = range_text(alloc, signal.field.kind())?;
    let code = signal.code(alloc)?;
    let name = signal.field.name();
    format!(in alloc; "$var {kind} {code} {name}{range} $end\n")
}

/// The declarations of a channel.
fn channel_lines(alloc: Global, lane: usize, chan: Chan) -> Result<String, AllocError> {
    let mut text = String::new(alloc);
    for field in &FIELDS {
        if field.is_of(chan) {
            let field = *field;
            let line = signal_line(alloc, Signal { lane, chan, field })?;
            text.push_str(line.as_str())?;
        }
    }
    let chan = chan_text(chan);
    format!(in alloc; "$scope module {chan} $end\n{text}$upscope $end\n")
}

/// The declarations of a link.
fn lane_lines(
    alloc: Global,
    scene: &Scene,
    place: usize,
    lane: &Lane,
) -> Result<String, AllocError> {
    let mut text = String::new(alloc);
    for chan in &CHANNELS {
        if has_channel(scene, lane, *chan) {
            let lines = channel_lines(alloc, place, *chan)?;
            text.push_str(lines.as_str())?;
        }
    }
    let name = lane.name;
    format!(in alloc; "$scope module {name} $end\n{text}$upscope $end\n")
}

/// The declarations of all links.
fn lanes_lines(alloc: Global, scene: &Scene) -> Result<String, AllocError> {
    let mut text = String::new(alloc);
    for (place, lane) in scene.lanes.iter().enumerate() {
        let lines = lane_lines(alloc, scene, place, lane)?;
        text.push_str(lines.as_str())?;
    }
    Ok(text)
}

/// What stands before the values.
fn header_text(alloc: Global, scene: &Scene) -> Result<String, AllocError> {
    let row = scene.lines.lines().next().unwrap_or("");
    let heading = heading_of(alloc, scene)?;
    let broken = broken_name(alloc, scene)?;
    let lanes = lanes_lines(alloc, scene)?;
    format!(in alloc;
        "$version tlcheck $end\n\
$comment {row}: {heading}; a cycle is 1 ns $end\n\
$timescale 1 ns $end\n\
$scope module tlcheck $end\n\
$var wire 1 {BROKEN_CODE} {broken} $end\n\
$var wire 1 {EARLIER_CODE} earlier $end\n\
{lanes}$upscope $end\n\
$enddefinitions $end\n"
    )
}

// ---- values ----

/// The word of a message.
fn opcode_word(alloc: Global, found: Option<Op>, beat: &Beat) -> Result<String, AllocError> {
    match found {
        Some(op) => String::from_str(alloc, op_text(op)),
        None => {
            let opcode = beat.opcode;
            format!(in alloc; "opcode_{opcode}")
        }
    }
}

/// The word of a param.
fn param_word(alloc: Global, found: Option<Op>, beat: &Beat) -> Result<String, AllocError> {
    match found.and_then(|op| param_text(op, beat.param)) {
        Some(word) => String::from_str(alloc, word),
        None => {
            let param = beat.param;
            format!(in alloc; "{param}")
        }
    }
}

/// A word as a value.
fn word_value(alloc: Global, word: &str) -> Result<String, AllocError> {
    format!(in alloc; "s{word} ")
}

/// A number as a value.
fn number_value(alloc: Global, number: u64) -> Result<String, AllocError> {
    format!(in alloc; "b{number:b} ")
}

/// A bit as a value.
fn bit_value(alloc: Global, bit: bool) -> Result<String, AllocError> {
    String::from_str(alloc, if bit { "1" } else { "0" })
}

/// The value of a field of a beat, before its code.
fn value_of(alloc: Global, level: Level, beat: &Beat, field: Field) -> Result<String, AllocError> {
    let found = op_of(level, beat.chan, beat.opcode);
    match field {
        Field::Valid => bit_value(alloc, true),
        Field::Denied => bit_value(alloc, beat.denied),
        Field::Corrupt => bit_value(alloc, beat.corrupt),
        Field::Opcode => word_value(alloc, opcode_word(alloc, found, beat)?.as_str()),
        Field::Param => word_value(alloc, param_word(alloc, found, beat)?.as_str()),
        Field::Size => number_value(alloc, u64::from(beat.size)),
        Field::Source => number_value(alloc, u64::from(beat.source)),
        Field::Sink => number_value(alloc, u64::from(beat.sink)),
        Field::Address => number_value(alloc, beat.address),
        Field::Mask => number_value(alloc, beat.mask),
    }
}

/// The line of a value.
fn value_line(alloc: Global, value: &str, signal: Signal) -> Result<String, AllocError> {
    let code = signal.code(alloc)?;
    format!(in alloc; "{value}{code}\n")
}

/// The line of the value of a field.
fn field_line(
    alloc: Global,
    level: Level,
    beat: &Beat,
    signal: Signal,
) -> Result<String, AllocError> {
    let value = value_of(alloc, level, beat, signal.field)?;
    value_line(alloc, value.as_str(), signal)
}

/// The place of the lane of a beat.
fn lane_of(scene: &Scene, shown: &Shown) -> usize {
    scene
        .lanes
        .iter()
        .position(|lane| lane.link == shown.place.link)
        .unwrap_or(0)
}

/// The values of the fields of a beat.
fn beat_lines(alloc: Global, scene: &Scene, shown: &Shown) -> Result<String, AllocError> {
    let lane = lane_of(scene, shown);
    let level = scene.lanes.get(lane).map_or(Level::C, |lane| lane.level);
    let beat = &shown.place.beat;
    let chan = beat.chan;
    let mut text = String::new(alloc);
    for field in &FIELDS {
        if field.is_of(chan) {
            let field = *field;
            let line = field_line(alloc, level, beat, Signal { lane, chan, field })?;
            text.push_str(line.as_str())?;
        }
    }
    Ok(text)
}

/// The line that makes the signal of what a beat is to the row high or low, if it has one.
fn part_line(alloc: Global, part: Part, is_high: bool) -> Result<String, AllocError> {
    let value = if is_high { "1" } else { "0" };
    match part {
        Part::Broken => format!(in alloc; "{value}{BROKEN_CODE}\n"),
        Part::Earlier => format!(in alloc; "{value}{EARLIER_CODE}\n"),
        Part::Other => Ok(String::new(alloc)),
    }
}

/// What changes where a beat comes.
fn begin_lines(alloc: Global, scene: &Scene, shown: &Shown) -> Result<String, AllocError> {
    let fields = beat_lines(alloc, scene, shown)?;
    let part = part_line(alloc, shown.part, true)?;
    format!(in alloc; "{fields}{part}")
}

/// The line that makes a channel's valid low.
fn idle_line(alloc: Global, scene: &Scene, shown: &Shown) -> Result<String, AllocError> {
    let signal = Signal {
        lane: lane_of(scene, shown),
        chan: shown.place.beat.chan,
        field: Field::Valid,
    };
    value_line(alloc, "0", signal)
}

/// What changes in the cycle after a beat, in which these come.
fn end_lines(
    alloc: Global,
    scene: &Scene,
    shown: &Shown,
    next: &[Shown],
) -> Result<String, AllocError> {
    let part = part_line(alloc, shown.part, false)?;
    if next.iter().any(|other| other.is_beside(shown)) {
        return Ok(part);
    }
    let idle = idle_line(alloc, scene, shown)?;
    format!(in alloc; "{part}{idle}")
}

/// What changes in the cycle after some beats, in which these come.
fn ends_lines(
    alloc: Global,
    scene: &Scene,
    before: &[Shown],
    next: &[Shown],
) -> Result<String, AllocError> {
    let mut text = String::new(alloc);
    for shown in before {
        let lines = end_lines(alloc, scene, shown, next)?;
        text.push_str(lines.as_str())?;
    }
    Ok(text)
}

/// What changes where some beats come.
fn begins_lines(alloc: Global, scene: &Scene, now: &[Shown]) -> Result<String, AllocError> {
    let mut text = String::new(alloc);
    for shown in now {
        let lines = begin_lines(alloc, scene, shown)?;
        text.push_str(lines.as_str())?;
    }
    Ok(text)
}

/// The cycle after some beats of one cycle, if there is one.
fn cycle_after(before: &[Shown]) -> Option<u64> {
    before.first()?.place.beat.cycle.checked_add(1)
}

/// What changes from the beats of one cycle to those of the next that has some, at this cycle.
fn changes_at(
    alloc: Global,
    scene: &Scene,
    before: &[Shown],
    now: &[Shown],
    cycle: u64,
) -> Result<String, AllocError> {
    let begins = begins_lines(alloc, scene, now)?;
    let Some(end) = cycle_after(before) else {
        return format!(in alloc; "#{cycle}\n{begins}");
    };
    if end == cycle {
        let ends = ends_lines(alloc, scene, before, now)?;
        return format!(in alloc; "#{cycle}\n{ends}{begins}");
    }
    let ends = ends_lines(alloc, scene, before, &[])?;
    format!(in alloc; "#{end}\n{ends}#{cycle}\n{begins}")
}

/// What changes after the last beats.
fn last_changes(alloc: Global, scene: &Scene, before: &[Shown]) -> Result<String, AllocError> {
    match cycle_after(before) {
        Some(end) => {
            let ends = ends_lines(alloc, scene, before, &[])?;
            format!(in alloc; "#{end}\n{ends}")
        }
        None => Ok(String::new(alloc)),
    }
}

/// How many of the first beats have the cycle of the first.
fn count_at_first(shown: &[Shown]) -> usize {
    let Some(first) = shown.first() else {
        return 0;
    };
    let cycle = first.place.beat.cycle;
    shown
        .iter()
        .position(|each| each.place.beat.cycle != cycle)
        .unwrap_or(shown.len())
}

/// All that changes.
fn changes_text(alloc: Global, scene: &Scene) -> Result<String, AllocError> {
    let mut text = String::new(alloc);
    let mut before: &[Shown] = &[];
    let mut rest: &[Shown] = &scene.shown;
    for _ in 0..scene.shown.len() {
        let Some(first) = rest.first() else {
            break;
        };
        let count = count_at_first(rest);
        let now = rest.get(..count).unwrap_or(rest);
        let changes = changes_at(alloc, scene, before, now, first.place.beat.cycle)?;
        text.push_str(changes.as_str())?;
        before = now;
        rest = rest.get(count..).unwrap_or(&[]);
    }
    let changes = last_changes(alloc, scene, before)?;
    text.push_str(changes.as_str())?;
    Ok(text)
}

/// The lines that make the valid of each channel of a link low.
fn idle_lines(
    alloc: Global,
    scene: &Scene,
    place: usize,
    lane: &Lane,
) -> Result<String, AllocError> {
    let mut text = String::new(alloc);
    for chan in &CHANNELS {
        if has_channel(scene, lane, *chan) {
            let signal = Signal {
                lane: place,
                chan: *chan,
                field: Field::Valid,
            };
            let line = value_line(alloc, "0", signal)?;
            text.push_str(line.as_str())?;
        }
    }
    Ok(text)
}

/// The values before the first beat: nothing is valid.
fn idle_values(alloc: Global, scene: &Scene) -> Result<String, AllocError> {
    let mut text = String::new(alloc);
    for (place, lane) in scene.lanes.iter().enumerate() {
        let lines = idle_lines(alloc, scene, place, lane)?;
        text.push_str(lines.as_str())?;
    }
    Ok(text)
}

/// The cycle before the first beat, if there is one.
fn begin_text(alloc: Global, first: u64) -> Result<String, AllocError> {
    match first.checked_sub(1) {
        Some(begin) => format!(in alloc; "#{begin}\n"),
        None => Ok(String::new(alloc)),
    }
}

/// The values before the first beat, at the cycle before it.
fn first_text(alloc: Global, scene: &Scene) -> Result<String, AllocError> {
    let begin = begin_text(alloc, cycle_of(scene.shown.first()))?;
    let idle = idle_values(alloc, scene)?;
    format!(in alloc; "{begin}$dumpvars\n0{BROKEN_CODE}\n0{EARLIER_CODE}\n{idle}$end\n")
}

/// A scene as a Value Change Dump, in which a cycle is 1 ns: a group of signals for each link and each of its channels, with the beats
/// that are shown, those of bursts after their heads too; `valid` is high in the cycles of beats, and the other fields keep their values
/// until the next one. Two signals more are high at the row's beat and at the earlier one. AllocError where memory is refused.
pub fn dump_text(alloc: Global, scene: &Scene) -> Result<String, AllocError> {
    let header = header_text(alloc, scene)?;
    let first = first_text(alloc, scene)?;
    let changes = changes_text(alloc, scene)?;
    format!(in alloc; "{header}{first}{changes}")
}
