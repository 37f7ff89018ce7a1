//! Beats by link, and what is open on each after the last of them.

ghost use Rattle.std.specs.Prelude.{◌≡◌, ◌<◌, IfOk, length};
ghost use Rattle.tl_advice.specs.LinkCounts.{IsCountOf, AreCounted};

use std::alloc::{AllocError, Global};
use tl_capture::Present;
use tl_rows::{OpenCounts, tell};
use tl_topology::{Name, Topo};

/// How much of a link was checked.
#[derive(Clone, Copy, Debug)]
pub struct LinkCount {
    /// What the link is called.
    pub name: Name,
    /// How many beats it has.
    pub beats: usize,
    /// What is open on it after the last of them.
    pub still_open: OpenCounts,
}

/// How many items there are.
fn length_of<T>(items: &[T]) -> usize
    ensures { result ≡ length items.now }
{
    items.len()
}

/// How much of a link was checked.
fn link_count(
    alloc: Global,
    topo: &Topo,
    present: &Present,
    link: u16,
) -> Result<LinkCount, AllocError>
    requires { link < length topo.now.links }
    ensures { IfOk result (IsCountOf topo.now present.now link) }
{
    let decl = topo.link(link).unwrap();
    let exponent = topo.block(decl.manager).unwrap();
    let own = [link];
    let beats = present.beats(alloc, &own)?;
    let telling = tell(alloc, topo, exponent, &own, &beats, &[])?;
    Ok(LinkCount {
        name: decl.name,
        beats: length_of(&beats),
        still_open: telling.open,
    })
}

/// How much of each link of the topology was checked, where these fragments are present: its beats, and what they leave open.
/// AllocError where memory is refused.
pub(crate) fn link_counts(
    alloc: Global,
    topo: &Topo,
    present: &Present,
) -> Result<Vec<LinkCount>, AllocError>
    ensures { IfOk result (λ counts. AreCounted topo.now present.now counts.items) }
{
    let mut counts = Vec::new(alloc);
    for link in 0..topo.link_count() {
        let count = link_count(alloc, topo, present, link as u16)?;
        counts.push(count)?;
    }
    Ok(counts)
}
