//! What looks wrong in a topology or in how a capture was made, by what the beats of each link show.

use crate::fits::{block_sentence, size_sentence, sources_sentence, width_sentence};
use crate::fronts::{front_sentence, swap_sentence};
use std::alloc::{AllocError, Global};
use tl_beats::Placed;
use tl_capture::Present;
use tl_topology::{LinkDecl, Topo};

/// What looks wrong.
#[derive(Drop)]
pub struct Diagnosis {
    /// A line for each thing.
    pub text: String,
    /// How many there are.
    pub count: u64,
}

impl Diagnosis {
    /// Nothing looks wrong.
    fn none(alloc: Global) -> Diagnosis {
        Diagnosis {
            text: String::new(alloc),
            count: 0,
        }
    }

    /// Adds what looks wrong on a link, if something does.
    fn add(
        &mut self,
        alloc: Global,
        decl: &LinkDecl,
        found: Option<String>,
    ) -> Result<(), AllocError> {
        let Some(sentence) = found else {
            return Ok(());
        };
        let name = decl.name;
        let line = format!(in alloc; "{name}: {sentence}\n")?;
        self.count = self.count.saturating_add(1);
        self.text.push_str(line.as_str())
    }
}

/// Adds what looks wrong on a link whose sides are not swapped.
fn add_of_sides(
    alloc: Global,
    topo: &Topo,
    decl: &LinkDecl,
    beats: &[Placed],
    found: &mut Diagnosis,
) -> Result<(), AllocError> {
    found.add(alloc, decl, width_sentence(alloc, decl, beats)?)?;
    found.add(alloc, decl, size_sentence(alloc, decl, beats)?)?;
    found.add(alloc, decl, sources_sentence(alloc, decl, beats)?)?;
    found.add(alloc, decl, block_sentence(alloc, topo, decl, beats)?)?;
    found.add(alloc, decl, front_sentence(alloc, decl, beats)?)
}

/// Adds what looks wrong on a link with these beats. Where its sides are swapped, nothing else is said of it.
fn add_of_beats(
    alloc: Global,
    topo: &Topo,
    decl: &LinkDecl,
    beats: &[Placed],
    found: &mut Diagnosis,
) -> Result<(), AllocError> {
    match swap_sentence(alloc, beats)? {
        Some(sentence) => found.add(alloc, decl, Some(sentence)),
        None => add_of_sides(alloc, topo, decl, beats, found),
    }
}

/// Adds what looks wrong on a link, and answers how many beats it has.
fn add_of_link(
    alloc: Global,
    topo: &Topo,
    present: &Present,
    link: u16,
    found: &mut Diagnosis,
) -> Result<usize, AllocError> {
    let Some(decl) = topo.link(link) else {
        return Ok(0);
    };
    let beats = present.link_beats(alloc, link)?;
    add_of_beats(alloc, topo, decl, &beats, found)?;
    Ok(beats.len())
}

/// What looks wrong where these fragments are present: a WIDTH, a BLOCK, a MAXSIZE or SOURCES that do not fit the beats, a capture that
/// does not begin at reset, and a link whose sides are swapped, each in a line; and that there is no beat at all. No line is said of a
/// capture that breaks no rule, if it has a beat. AllocError where memory is refused.
pub fn diagnose(alloc: Global, topo: &Topo, present: &Present) -> Result<Diagnosis, AllocError> {
    let mut found = Diagnosis::none(alloc);
    let mut is_empty = true;
    for link in 0..topo.link_count() {
        let beats = add_of_link(alloc, topo, present, link as u16, &mut found)?;
        is_empty = is_empty && beats == 0;
    }
    if is_empty {
        found.text.push_str("no link has a beat\n")?;
        found.count = 1;
    }
    Ok(found)
}
