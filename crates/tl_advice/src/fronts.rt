//! Whether the capture of a link begins at reset, and whether its sides are swapped.

use crate::fits::place_text;
use std::alloc::{AllocError, Global};
use std::collections::BTreeMap;
use tl_beats::{Beat, Placed};
use tl_tables::{
    Chan, Level, Op, is_grant, is_probe, is_probe_ack, is_release, is_release_ack, op_of, replies,
};
use tl_topology::LinkDecl;

/// What a beat answers.
#[derive(Clone, Copy, PartialEq, Eq)]
enum Answer {
    /// A request of channel A, by its source.
    Request,
    /// A Release, by its source.
    Release,
    /// A Probe.
    Probe,
    /// A Grant, by its sink.
    Grant,
}

/// What a beat on C answers, if anything.
fn answer_on_c(op: Op) -> Option<Answer> {
    if is_probe_ack(op) {
        Some(Answer::Probe)
    } else {
        None
    }
}

/// What a beat answers, if anything.
fn answer_of(level: Level, beat: &Beat) -> Option<Answer> {
    let op = op_of(level, beat.chan, beat.opcode)?;
    match beat.chan {
        Chan::A | Chan::B => None,
        Chan::C => answer_on_c(op),
        Chan::D if is_release_ack(op) => Some(Answer::Release),
        Chan::D => Some(Answer::Request),
        Chan::E => Some(Answer::Grant),
    }
}

/// Whether a beat asks for what an answer on a beat is.
fn asks_for(level: Level, asking: &Beat, answer: Answer, beat: &Beat) -> bool {
    let Some(op) = op_of(level, asking.chan, asking.opcode) else {
        return false;
    };
    match answer {
        Answer::Request => asking.chan == Chan::A && asking.source == beat.source,
        Answer::Release => {
            asking.chan == Chan::C && is_release(op) && asking.source == beat.source
        }
        Answer::Probe => asking.chan == Chan::B && is_probe(op),
        Answer::Grant => asking.chan == Chan::D && is_grant(op) && asking.sink == beat.sink,
    }
}

/// Whether a beat is an answer of this kind.
fn is_answer(level: Level, beat: &Beat, answer: Answer) -> bool {
    answer_of(level, beat) == Some(answer)
}

/// The first answer of a kind, if no beat before it asks for it.
fn first_unasked(level: Level, answer: Answer, beats: &[Placed]) -> Option<Placed> {
    let at = beats
        .iter()
        .position(|place| is_answer(level, &place.beat, answer))?;
    let first = *beats.get(at)?;
    let before = beats.get(..at)?;
    let is_asked = before
        .iter()
        .any(|place| asks_for(level, &place.beat, answer, &first.beat));
    if is_asked { None } else { Some(first) }
}

/// The first answer of any kind that nothing before it asks for, where it is the first of its kind.
fn unasked_front(level: Level, beats: &[Placed]) -> Option<(Placed, &'static str)> {
    if let Some(place) = first_unasked(level, Answer::Request, beats) {
        return Some((place, "reply on D"));
    }
    if let Some(place) = first_unasked(level, Answer::Release, beats) {
        return Some((place, "ReleaseAck"));
    }
    if let Some(place) = first_unasked(level, Answer::Probe, beats) {
        return Some((place, "ProbeAck"));
    }
    let place = first_unasked(level, Answer::Grant, beats)?;
    Some((place, "GrantAck"))
}

/// That the capture of a link does not begin at reset: something is answered at its front that is not in it.
pub(crate) fn front_sentence(
    alloc: Global,
    decl: &LinkDecl,
    beats: &[Placed],
) -> Result<Option<String>, AllocError> {
    let Some((place, what)) = unasked_front(decl.level, beats) else {
        return Ok(None);
    };
    let at = place_text(alloc, &place)?;
    let sentence = format!(in alloc;
        "its first {what} ({at}) answers nothing before it: the capture probably does not begin at reset"
    )?;
    Ok(Some(sentence))
}

// ---- sides ----

/// How often a beat on A or D answers the beat before it of the same source.
#[derive(Clone, Copy)]
struct Pairs {
    /// On D to one on A, as they were recorded.
    straight: usize,
    /// On A to one on D, if the sides are swapped.
    swapped: usize,
}

/// Whether the first beat, read as a request, is answered by the second, read as a reply.
fn is_pair(asking: &Beat, answering: &Beat) -> bool {
    let request = op_of(Level::C, Chan::A, asking.opcode);
    let reply = op_of(Level::C, Chan::D, answering.opcode);
    match (request, reply) {
        (Some(request), Some(reply)) => replies(request, reply),
        _ => false,
    }
}

impl Pairs {
    /// These with a beat that comes after another of its source.
    fn with(self, before: &Beat, beat: &Beat) -> Pairs {
        let mut pairs = self;
        if is_pair(before, beat) {
            match (before.chan, beat.chan) {
                (Chan::A, Chan::D) => pairs.straight = pairs.straight.saturating_add(1),
                (Chan::D, Chan::A) => pairs.swapped = pairs.swapped.saturating_add(1),
                _ => {}
            }
        }
        pairs
    }

    /// Whether the sides are swapped by these.
    fn are_swapped(self) -> bool {
        self.swapped > 0 && self.swapped / 2 >= self.straight
    }
}

/// Whether the beat is on A or D.
fn is_on_sides(beat: &Beat) -> bool {
    matches!(beat.chan, Chan::A | Chan::D)
}

/// How often beats on A and D answer each other, either way.
fn pairs_of(alloc: Global, beats: &[Placed]) -> Result<Pairs, AllocError> {
    let mut last: BTreeMap<u16, Beat> = BTreeMap::new(alloc);
    let mut pairs = Pairs {
        straight: 0,
        swapped: 0,
    };
    for place in beats {
        if is_on_sides(&place.beat) {
            if let Some(before) = last.get(&place.beat.source) {
                pairs = pairs.with(before, &place.beat);
            }
            last.insert(place.beat.source, place.beat)?;
        }
    }
    Ok(pairs)
}

/// Whether what stands on A and D begins on D.
fn begins_on_d(beats: &[Placed]) -> bool {
    beats
        .iter()
        .find(|place| is_on_sides(&place.beat))
        .is_some_and(|place| place.beat.chan == Chan::D)
}

/// That the client's and the manager's side of a link are swapped: what stands on D asks, and what stands on A answers.
pub(crate) fn swap_sentence(alloc: Global, beats: &[Placed]) -> Result<Option<String>, AllocError> {
    if !begins_on_d(beats) || !pairs_of(alloc, beats)?.are_swapped() {
        return Ok(None);
    }
    let sentence = String::from_str(
        alloc,
        "its messages on D ask and those on A answer: the two sides of the link are probably swapped",
    )?;
    Ok(Some(sentence))
}
