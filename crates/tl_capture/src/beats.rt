//! The beats of links, whole and of one window.

ghost use Rattle.std.specs.Prelude.{◌≡◌, ◌≤◌, IfOk};
ghost use Rattle.std.specs.Bool.{Decides};
ghost use Rattle.std.specs.List.Sorted.{IsStrictlySortedBy};
ghost use Rattle.std.specs.Ordering.{nat_cmp};
ghost use Rattle.tl_definitions.specs.Positions.{beats_of, beats_of_all};
ghost use Rattle.tl_capture.specs.Windows.{beats_within, AreBeatsOf, AreWindows, HasBeat};

use crate::merged::Merged;
use crate::order::{in_order, sort_once};
use crate::present::Present;
use crate::span::span_of;
use std::alloc::{AllocError, Global};
use tl_beats::Placed;

impl Present {
    /// The beats of a link, in the order of its fragments. AllocError where memory is refused.
    pub fn link_beats(&self, alloc: Global, link: u16) -> Result<Vec<Placed>, AllocError>
        ensures { IfOk result (λ beats. beats.items ≡ beats_of link self.now) }
    {
        let mut beats = Vec::new(alloc);
        beats.reserve(self.ranges.count(0, u64::MAX, link))?;
        self.ranges.push_link(0, u64::MAX, link, &mut beats)?;
        Ok(beats)
    }

    /// The beats of these links, whose numbers rise, in the order of positions. AllocError where memory is refused.
    pub fn beats(&self, alloc: Global, links: &[u16]) -> Result<Vec<Placed>, AllocError>
        requires { IsStrictlySortedBy nat_cmp links.now }
        ensures exact { IfOk result (λ beats. beats.items ≡ beats_of_all links.now self.now) }
        ensures kept { IfOk result (λ beats. AreBeatsOf links.now beats.items) }
    {
        // No two fragments of a link share a number or a cycle.
        let _ = &self.ranges;
        self.gather(alloc, 0, u64::MAX, links)
    }

    /// Whether one of these links has a beat in a window.
    pub fn has_beat(&self, window: u64, links: &[u16]) -> bool
        ensures { Decides result (HasBeat (beats_of_all links.now self.now) window) }
    {
        // No two fragments of a link share a number or a cycle.
        let _ = &self.ranges;
        let Some((from, to)) = span_of(window) else {
            return false;
        };
        for link in links {
            if self.ranges.has_beat(from, to, *link) {
                return true;
            }
        }
        false
    }

    /// The windows in which one of these links has a beat, each once, rising. AllocError where memory is refused.
    pub fn windows(&self, alloc: Global, links: &[u16]) -> Result<Vec<u64>, AllocError>
        ensures { IfOk result (λ windows. AreWindows (beats_of_all links.now self.now) windows.items) }
    {
        let mut windows = Vec::new(alloc);
        for link in links {
            self.ranges.push_windows(*link, &mut windows)?;
        }
        Ok(sort_once(windows))
    }

    /// A walk over the beats of these links, whose numbers rise, in the order of positions, as they lie in the fragments.
    /// AllocError where memory is refused.
    pub fn walk<'a>(&'a self, alloc: Global, links: &[u16]) -> Result<Merged<'a>, AllocError>
        requires { IsStrictlySortedBy nat_cmp links.now }
        ensures exact { IfOk result (λ walk. walk ≡ beats_of_all links.now self.now) }
        ensures kept { IfOk result (λ walk. AreBeatsOf links.now walk) }
    {
        // No two fragments of a link share a number or a cycle.
        let _ = &self.ranges;
        self.merge(alloc, 0, u64::MAX, links)
    }

    /// The same of the beats from a cycle to another.
    pub fn walk_between<'a>(
        &'a self,
        alloc: Global,
        from: u64,
        to: u64,
        links: &[u16],
    ) -> Result<Merged<'a>, AllocError>
        requires order { from ≤ to }
        requires links { IsStrictlySortedBy nat_cmp links.now }
        ensures exact { IfOk result (λ walk. walk ≡ beats_within from to (beats_of_all links.now self.now)) }
        ensures kept { IfOk result (λ walk. AreBeatsOf links.now walk) }
    {
        // No two fragments of a link share a number or a cycle.
        let _ = &self.ranges;
        self.merge(alloc, from, to, links)
    }

    /// The same, of which no more is said.
    fn merge<'a>(
        &'a self,
        alloc: Global,
        from: u64,
        to: u64,
        links: &[u16],
    ) -> Result<Merged<'a>, AllocError>
        requires order { from ≤ to }
        requires links { IsStrictlySortedBy nat_cmp links.now }
        ensures { IfOk result (λ walk. walk ≡ beats_within from to (beats_of_all links.now self.now)) }
    {
        let mut cursors = Vec::new(alloc);
        for link in links {
            self.ranges.push_cursors(from, to, *link, &mut cursors)?;
        }
        Ok(Merged::of(cursors))
    }

    /// The beats of a span of these links, whose numbers rise.
    fn gather(
        &self,
        alloc: Global,
        from: u64,
        to: u64,
        links: &[u16],
    ) -> Result<Vec<Placed>, AllocError>
        requires order { from ≤ to }
        requires links { IsStrictlySortedBy nat_cmp links.now }
        ensures { IfOk result (λ beats. beats.items ≡ beats_within from to (beats_of_all links.now self.now)) }
    {
        let mut beats = Vec::new(alloc);
        beats.reserve(self.count(from, to, links))?;
        for link in links {
            self.ranges.push_link(from, to, *link, &mut beats)?;
        }
        let sorted = in_order(beats)?;
        Ok(sorted)
    }
    /// How many beats of a span these links have, so that their room is asked once.
    fn count(&self, from: u64, to: u64, links: &[u16]) -> usize
        requires { from ≤ to }
    {
        let mut count = 0usize;
        for link in links {
            count = count.saturating_add(self.ranges.count(from, to, *link));
        }
        count
    }
}
