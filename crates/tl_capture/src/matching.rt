//! Whether the beats of a window are those that are present, without memory.

ghost use Rattle.std.specs.Prelude.{◌≡◌, ◌≤◌, length};
ghost use Rattle.std.specs.Arc.{arc_value};
ghost use Rattle.std.specs.Bool.{Decides};
ghost use Rattle.std.specs.List.{Contains};
ghost use Rattle.std.specs.List.Sorted.{IsStrictlySortedBy};
ghost use Rattle.std.specs.Ordering.{nat_cmp};
ghost use Rattle.tl_definitions.specs.Positions.{beats_of_all};
ghost use Rattle.tl_capture.specs.Parts.{spanned, AreAmong, AreAlike};
ghost use Rattle.tl_capture.specs.Present.{recorded};
ghost use Rattle.tl_capture.specs.Ranges.{span_beats};
ghost use Rattle.tl_capture.specs.Windows.{beats_in, beats_within};

use crate::cut::bounds;
use crate::present::Present;
use crate::span::span_of;
use crate::walks::Part;
use crate::window_beats::{WindowBeats, count};
use tl_beats::{Beat, Fragment};
use tl_same::Exact;

impl Present {
    /// Whether these are the beats of these links, whose numbers rise, in a window. It takes no memory; it costs a look for each
    /// of the fragments and a comparison for each beat.
    pub fn has_beats(&self, beats: &WindowBeats, window: u64, links: &[u16]) -> bool
        requires { IsStrictlySortedBy nat_cmp links.now }
        ensures { Decides result (beats.now ≡ beats_in window (beats_of_all links.now self.now)) }
    {
        // No two fragments of a link share a number or a cycle.
        let _ = &self.ranges;
        let Some((from, to)) = span_of(window) else {
            return beats.is_empty();
        };
        if beats.from != from {
            return beats.is_empty() && !self.has_beat(window, links);
        }
        let room = count(from, to, &beats.parts);
        self.has_as_many(from, to, links, room) && self.stand(from, to, links, &beats.parts)
    }

    /// Whether a span of these links, whose numbers rise, has so many beats.
    fn has_as_many(&self, from: u64, to: u64, links: &[u16], count: u128) -> bool
        requires order { from ≤ to }
        requires links { IsStrictlySortedBy nat_cmp links.now }
        ensures { Decides result (length (beats_within from to (beats_of_all links.now self.now)) ≡ count) }
    {
        // No two fragments of a link share a number or a cycle.
        let _ = &self.ranges;
        let mut left = count;
        for link in links {
            match self.ranges.less(from, to, *link, left) {
                Some(rest) => left = rest,
                None => return false,
            }
        }
        left == 0
    }

    /// Whether the beats of a span of these fragments are among those of these links.
    fn stand(&self, from: u64, to: u64, links: &[u16], parts: &[Part]) -> bool
        requires { from ≤ to }
        ensures { Decides result (AreAmong (spanned arc_value from to parts.now) (beats_within from to (beats_of_all links.now self.now))) }
    {
        for (link, fragment) in parts {
            if !self.stands(from, to, links, *link, fragment) {
                return false;
            }
        }
        true
    }

    /// Whether the beats of a span of a fragment on this link are among those of these links.
    fn stands(&self, from: u64, to: u64, links: &[u16], link: u16, fragment: &Fragment) -> bool
        requires { from ≤ to }
        ensures { Decides result (AreAmong (span_beats from to (recorded link fragment.now)) (beats_within from to (beats_of_all links.now self.now))) }
    {
        // No two fragments of a link share a number or a cycle.
        let _ = &self.ranges;
        let (start, end) = bounds(fragment, from, to);
        if start == end {
            return true;
        }
        if !has_link(links, link) {
            return false;
        }
        let Some(other) = self.get(link, fragment.number()) else {
            return false;
        };
        are_alike(start, end, fragment.beats(), other.beats())
    }
}

/// Whether a link is one of these.
fn has_link(links: &[u16], link: u16) -> bool
    ensures { Decides result (Contains links.now link) }
{
    links.contains(&link)
}

/// Whether the same beats stand from one index up to another.
fn are_alike(start: usize, end: usize, here: &[Beat], there: &[Beat]) -> bool
    requires { end ≤ length here.now }
    ensures { Decides result ((end ≤ length there.now) × AreAlike start end here.now there.now) }
{
    if there.len() < end {
        return false;
    }
    for index in start..end {
        if !equals(&here[index], &there[index]) {
            return false;
        }
    }
    true
}

/// Whether two values are one.
fn equals<T: Exact>(here: &T, there: &T) -> bool
    ensures { Decides result (here.now ≡ there.now) }
{
    *here == *there
}
