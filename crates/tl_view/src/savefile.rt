//! How GTKWave lays out the waveform of a scene.

use crate::scene::{Lane, Part, Scene};
use crate::signals::{CHANNELS, FIELDS, Field, Kind, broken_name, has_beat, path_of};
use crate::steps::cycle_of;
use std::alloc::{AllocError, Global};
use tl_rows::chan_text;
use tl_tables::Chan;

/// How GTKWave is to write a value: bits as they are, numbers in decimal or hexadecimal, words as text.
fn look_of(field: Field) -> &'static str {
    match (field, field.kind()) {
        (Field::Address | Field::Mask, _) => "@22",
        (_, Kind::Number(_)) => "@24",
        (_, Kind::Word) => "@820",
        (_, Kind::Bit) => "@28",
    }
}

/// The lines of a signal.
fn signal_lines(
    alloc: Global,
    lane: &Lane,
    chan: Chan,
    field: Field,
) -> Result<String, AllocError> {
    let look = look_of(field);
    let path = path_of(alloc, lane, chan, field)?;
    format!(in alloc; "{look}\n{path}\n")
}

/// The signals of a channel, in a group that can be closed.
fn channel_lines(alloc: Global, lane: &Lane, chan: Chan) -> Result<String, AllocError> {
    let mut text = String::new(alloc);
    for field in &FIELDS {
        if field.is_of(chan) {
            let lines = signal_lines(alloc, lane, chan, *field)?;
            text.push_str(lines.as_str())?;
        }
    }
    let link = lane.name;
    let chan = chan_text(chan);
    format!(in alloc; "@800200\n-{link} {chan}\n{text}@1000200\n-{link} {chan}\n")
}

/// The channels of a link that have a beat.
fn lane_lines(alloc: Global, scene: &Scene, lane: &Lane) -> Result<String, AllocError> {
    let mut text = String::new(alloc);
    for chan in &CHANNELS {
        if has_beat(scene, lane, *chan) {
            let lines = channel_lines(alloc, lane, *chan)?;
            text.push_str(lines.as_str())?;
        }
    }
    Ok(text)
}

/// The channels of all links.
fn lanes_lines(alloc: Global, scene: &Scene) -> Result<String, AllocError> {
    let mut text = String::new(alloc);
    for lane in &scene.lanes {
        let lines = lane_lines(alloc, scene, lane)?;
        text.push_str(lines.as_str())?;
    }
    Ok(text)
}

/// The cycle of the earlier beat as a marker, or that there is none.
fn earlier_text(alloc: Global, scene: &Scene) -> Result<String, AllocError> {
    let earlier = scene.shown.iter().find(|shown| shown.part == Part::Earlier);
    match earlier {
        Some(shown) => {
            let cycle = shown.place.beat.cycle;
            format!(in alloc; "{cycle}")
        }
        None => format!(in alloc; "-1"),
    }
}

/// A savefile of GTKWave at a path, for the dump of a scene at another: a group for each channel with a beat, the first marker at the
/// row's beat, and the marker A at the earlier one. AllocError where memory is refused.
pub fn savefile_text(
    alloc: Global,
    scene: &Scene,
    dump: &str,
    savefile: &str,
) -> Result<String, AllocError> {
    let start = cycle_of(scene.shown.first()).saturating_sub(1);
    let own = cycle_of(scene.shown.last());
    let earlier = earlier_text(alloc, scene)?;
    let broken = broken_name(alloc, scene)?;
    let lanes = lanes_lines(alloc, scene)?;
    format!(in alloc;
        "[*] tlcheck view\n[dumpfile] \"{dump}\"\n[savefile] \"{savefile}\"\n[timestart] {start}\n*-4.000000 {own} {earlier}\n\
@28\ntlcheck.{broken}\ntlcheck.earlier\n{lanes}"
    )
}
