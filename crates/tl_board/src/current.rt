//! Whether what a task was made of stands.

ghost use Rattle.std.specs.Prelude.{◌≡◌};
ghost use Rattle.std.specs.Option.{option_copied};
ghost use Rattle.std.specs.Bool.{Decides};
ghost use Rattle.tl_definitions.specs.Managers.{declared_links};
ghost use Rattle.tl_board.specs.Tasks.{HasNumbers, IsCurrent};

use crate::task::SpanTask;
use tl_capture::Present;
use tl_same::Exact;
use tl_topology::{LinkDecl, Region, RegionMap, Topo};

/// Whether two links are declared alike.
fn is_link(own: &LinkDecl, other: &LinkDecl) -> bool
    ensures { Decides result (own.now ≡ other.now) }
{
    own.name == other.name
        && own.manager == other.manager
        && own.level == other.level
        && own.width == other.width
        && own.max_size == other.max_size
        && own.sources == other.sources
        && own.strict == other.strict
}

/// Whether two topologies declare the same links.
fn have_same_links(own: &Topo, other: &Topo) -> bool
    ensures { Decides result (declared_links own.now ≡ declared_links other.now) }
{
    if own.link_count() != other.link_count() {
        return false;
    }
    for number in 0..own.link_count() {
        let link = own.link(number as u16).unwrap();
        if !is_link(link, other.link(number as u16).unwrap()) {
            return false;
        }
    }
    true
}

/// Whether two regions are one, or none is there.
fn is_region(own: Option<&Region>, other: Option<&Region>) -> bool
    ensures { Decides result (option_copied own.entry ≡ option_copied other.entry) }
{
    match (own, other) {
        (None, None) => true,
        (Some(own), Some(other)) => {
            let here = own.permits();
            let there = other.permits();
            own.first() == other.first()
                && own.last() == other.last()
                && here.get == there.get
                && here.put == there.put
                && here.atomic == there.atomic
                && here.hint == there.hint
                && here.cache == there.cache
        }
        _ => false,
    }
}

/// Whether two managers have the same regions.
fn are_regions(own: &RegionMap, other: &RegionMap) -> bool
    requires own { HasNumbers own.now }
    requires other { HasNumbers other.now }
    ensures { Decides result (own.now ≡ other.now) }
{
    let none = own.is_empty();
    if other.is_empty() && none {
        return true;
    }
    for number in 0..256u16 {
        let number = number as u8;
        if !is_region(own.get(number), other.get(number)) {
            return false;
        }
    }
    true
}

/// Whether two values are one.
fn equals<T: Exact>(here: &T, there: &T) -> bool
    ensures { Decides result (here.now ≡ there.now) }
{
    *here == *there
}

impl SpanTask {
    /// Whether what it was made of is what stands: the links and the block, the regions of its manager, and the beats of its
    /// window. It takes no memory, and costs a comparison for each link, region and beat.
    pub fn is_current(&self, topo: &Topo, regions: &RegionMap, present: &Present) -> bool
        requires { HasNumbers regions.now }
        ensures { Decides result (IsCurrent topo.now regions.now present.now self.now) }
    {
        if !have_same_links(&self.topo, topo) {
            return false;
        }
        if !equals(&self.topo.block(self.manager), &topo.block(self.manager)) {
            return false;
        }
        if !are_regions(&self.regions, regions) {
            return false;
        }
        present.has_beats(&self.beats, self.window, &self.links)
    }
}
