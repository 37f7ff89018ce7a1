//! Whether the beats of a link fit what its topology says of it.

use std::alloc::{AllocError, Global};
use tl_beats::{Beat, Placed};
use tl_link_rules::active_lanes;
use tl_tables::{Chan, Level, Op, is_of_block, op_of};
use tl_topology::{LinkDecl, Topo};

/// The widths that a link may have, in bytes.
const WIDTHS: [u8; 7] = [1, 2, 4, 8, 16, 32, 64];

/// The exponents of the least and the greatest block that a manager may have.
const BLOCKS: (u8, u8) = (3, 12);

/// The greatest exponent of a size.
const MOST_SIZE: u8 = 15;

/// How many bytes a message of this size has.
fn bytes_of(size: u8) -> u64 {
    if size > MOST_SIZE { 0 } else { 1 << size }
}

/// Where a beat is written, in words.
pub(crate) fn place_text(alloc: Global, place: &Placed) -> Result<String, AllocError> {
    let fragment = place.fragment;
    let line = place.line;
    let cycle = place.beat.cycle;
    format!(in alloc; "fragment {fragment} line {line}, cycle {cycle}")
}

// ---- WIDTH ----

/// Whether the beat has a mask.
fn has_mask(beat: &Beat) -> bool {
    matches!(beat.chan, Chan::A | Chan::B)
}

/// The lanes that a beat uses on a link of this width.
fn lanes_of(width: u8, beat: &Beat) -> u64 {
    if width < 1 || width > 64 || beat.size > MOST_SIZE {
        return 0;
    }
    active_lanes(width, beat.size, beat.address)
}

/// Whether the mask of a beat fits a link of this width.
fn fits_width(level: Level, width: u8, beat: &Beat) -> bool {
    let lanes = lanes_of(width, beat);
    match op_of(level, beat.chan, beat.opcode) {
        Some(Op::PutPartialData) => beat.mask & lanes == beat.mask,
        _ => beat.mask == lanes,
    }
}

/// How many masks do not fit a link of this width.
fn misfits(level: Level, width: u8, beats: &[Placed]) -> usize {
    beats
        .iter()
        .filter(|place| has_mask(&place.beat) && !fits_width(level, width, &place.beat))
        .count()
}

/// The least width that all masks fit.
fn fitting_width(level: Level, beats: &[Placed]) -> Option<u8> {
    for width in &WIDTHS {
        if misfits(level, *width, beats) == 0 {
            return Some(*width);
        }
    }
    None
}

/// That the masks of a link do not fit its width, and all fit another.
pub(crate) fn width_sentence(
    alloc: Global,
    decl: &LinkDecl,
    beats: &[Placed],
) -> Result<Option<String>, AllocError> {
    let width = decl.width;
    let wrong = misfits(decl.level, width, beats);
    if wrong == 0 {
        return Ok(None);
    }
    let Some(better) = fitting_width(decl.level, beats) else {
        return Ok(None);
    };
    let masks = beats.iter().filter(|place| has_mask(&place.beat)).count();
    let sentence = format!(in alloc;
        "every mask fits WIDTH {better}, and {wrong} of {masks} do not fit WIDTH {width}: WIDTH is probably {better}"
    )?;
    Ok(Some(sentence))
}

// ---- MAXSIZE and SOURCES ----

/// Whether the beat has a size and a source.
fn has_source(beat: &Beat) -> bool {
    beat.chan != Chan::E
}

/// The first beat of the largest size.
fn largest(beats: &[Placed]) -> Option<Placed> {
    let mut found: Option<Placed> = None;
    for place in beats {
        if has_source(&place.beat) && found.is_none_or(|most| most.beat.size < place.beat.size) {
            found = Some(*place);
        }
    }
    found
}

/// That a message of a link is larger than its largest may be.
pub(crate) fn size_sentence(
    alloc: Global,
    decl: &LinkDecl,
    beats: &[Placed],
) -> Result<Option<String>, AllocError> {
    let most = decl.max_size;
    let Some(place) = largest(beats).filter(|place| place.beat.size > most) else {
        return Ok(None);
    };
    let size = place.beat.size;
    let bytes = bytes_of(size);
    let at = place_text(alloc, &place)?;
    let sentence = format!(in alloc;
        "the largest message has size {size}, {bytes} bytes ({at}): MAXSIZE is at least {size}, not {most}"
    )?;
    Ok(Some(sentence))
}

/// The first beat of the greatest source.
fn greatest(beats: &[Placed]) -> Option<Placed> {
    let mut found: Option<Placed> = None;
    for place in beats {
        if has_source(&place.beat)
            && found.is_none_or(|most| most.beat.source < place.beat.source)
        {
            found = Some(*place);
        }
    }
    found
}

/// That a link has more sources than it may have.
pub(crate) fn sources_sentence(
    alloc: Global,
    decl: &LinkDecl,
    beats: &[Placed],
) -> Result<Option<String>, AllocError> {
    let most = decl.sources;
    let Some(place) = greatest(beats).filter(|place| u32::from(place.beat.source) >= most) else {
        return Ok(None);
    };
    let source = place.beat.source;
    let count = u32::from(source) + 1;
    let at = place_text(alloc, &place)?;
    let sentence = format!(in alloc;
        "sources go up to {source} ({at}): SOURCES is at least {count}, not {most}"
    )?;
    Ok(Some(sentence))
}

// ---- BLOCK ----

/// Whether the beat is of a message of one block.
fn is_block_beat(level: Level, beat: &Beat) -> bool {
    op_of(level, beat.chan, beat.opcode).is_some_and(|op| is_of_block(op)) && has_source(beat)
}

/// The size of all messages of one block, if they have one.
fn block_size(level: Level, beats: &[Placed]) -> Option<u8> {
    let mut found: Option<u8> = None;
    for place in beats {
        if is_block_beat(level, &place.beat) {
            if found.is_some_and(|size| size != place.beat.size) {
                return None;
            }
            found = Some(place.beat.size);
        }
    }
    found
}

/// The size of all messages of one block, if it is that of another block than the manager's.
fn other_block(topo: &Topo, decl: &LinkDecl, beats: &[Placed]) -> Option<u8> {
    let own = topo.block(decl.manager)?;
    let size = block_size(decl.level, beats)?;
    let (least, most) = BLOCKS;
    if size == own || size < least || size > most {
        return None;
    }
    Some(size)
}

/// That all messages of one block are of another size than the block of the link's manager.
pub(crate) fn block_sentence(
    alloc: Global,
    topo: &Topo,
    decl: &LinkDecl,
    beats: &[Placed],
) -> Result<Option<String>, AllocError> {
    let Some(size) = other_block(topo, decl, beats) else {
        return Ok(None);
    };
    let bytes = bytes_of(size);
    let sentence = format!(in alloc;
        "every Acquire, Probe, Grant and Release has size {size}: BLOCK of its manager is probably {bytes}"
    )?;
    Ok(Some(sentence))
}
