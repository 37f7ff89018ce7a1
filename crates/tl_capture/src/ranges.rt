//! Fragments by link and range.

ghost use Rattle.std.specs.Prelude.{◌≡◌, ◌≤◌, ◌<◌, ◌+◌, ◌++◌, ◌==◌, length, [], Some, IfOk, OnOk, OnErr, MatchOption, false, filter, min, slice_get};
ghost use Rattle.std.specs.Arc.{arc_value};
ghost use Rattle.std.specs.List.{AllByRecursion, find};
ghost use Rattle.std.specs.Option.{option_map, option_map_or};
ghost use Rattle.tl_definitions.specs.Positions.{all_placed};
ghost use Rattle.tl_capture.specs.Cursors.{all_left};
ghost use Rattle.tl_capture.specs.Parts.{spanned};
ghost use Rattle.tl_capture.specs.Present.{recorded, ends_by, of_link, overlapped, put_in, shares};
ghost use Rattle.tl_capture.specs.Ranges.{has_some, ends_at, without_end, meets, AreRanges};
ghost use Rattle.tl_capture.specs.Shares.{windows_of_all};
ghost use Rattle.tl_capture.specs.Walk.{fragments_left};
ghost use Rattle.tl_capture.specs.Windows.{beats_within};

use crate::cursor::Cursor;
use crate::cut::{bounds, cursor_in, has_some, push_beats};
use crate::shares::push_windows;
use crate::walks::{OnLink, Part};
use std::alloc::{AllocError, Global};
use std::collections::BTreeMap;
use std::marker::Model;
use std::sync::Arc;
use tl_beats::{Fragment, Placed};

/// The fragments by the number of their link and the last cycle of their range, which are apart on each link.
#[derive(Drop)]
pub(crate) struct Ranges {
    ends: BTreeMap<(u16, u64), Arc<Fragment>>,
}

impl Model for Ranges {
    ghost use Rattle.std.specs.Prelude.{List, map};
    ghost use Rattle.std.specs.Arc.{arc_value};
    ghost use Rattle.tl_definitions.specs.Positions.{Recorded};
    ghost use Rattle.tl_capture.specs.Ranges.{AreEntries, shown};

    ghost Value = { List Recorded };

    ghost view = { λ r. map (shown arc_value) r.ends.entries };

    ghost invariant = { λ r. AreEntries arc_value r.ends.entries };
}

/// The lower of a number and the lowest so far.
fn lower(lowest: Option<u32>, number: u32) -> Option<u32>
    ensures { result ≡ Some (option_map_or (min number) lowest number) }
{
    match lowest {
        Some(lowest) => Some(number.min(lowest)),
        None => Some(number),
    }
}

impl Ranges {
    /// No fragments.
    pub(crate) fn new(alloc: Global) -> Ranges
        ensures { result ≡ [] }
    {
        Ranges {
            ends: BTreeMap::new(alloc),
        }
    }

    /// Whether there is none.
    pub(crate) fn is_empty(&self) -> bool
        ensures { result ≡ (length self.now == 0) }
    {
        self.ends.is_empty()
    }

    /// The fragment of a link whose range ends with this cycle.
    pub(crate) fn at(&self, link: u16, last: u64) -> Option<&Arc<Fragment>>
        ensures { option_map (λ f. recorded link (arc_value f.now)) result ≡ find (ends_at link last) self.now }
    {
        self.ends.get(&(link, last))
    }

    /// Puts a fragment on a link, whose range is free there.
    pub(crate) fn insert(&mut self, link: u16, fragment: Arc<Fragment>) -> Result<(), AllocError>
        requires { AllByRecursion (λ f. shares link (arc_value fragment).first (arc_value fragment).last f ≡ false) self.old }
        ensures ok { OnOk result (self.new ≡ put_in (recorded link (arc_value fragment)) self.old) }
        ensures err { OnErr result (self.new ≡ self.old) }
    {
        // Its beats lie in its range, in order.
        let _ = fragment.beats();
        let last = fragment.last();
        self.ends.insert((link, last), fragment)?;
        Ok(())
    }

    /// Takes out the fragment of a link whose range ends with this cycle.
    pub(crate) fn remove(&mut self, link: u16, last: u64) -> Option<Arc<Fragment>>
        ensures value { option_map (λ f. recorded link (arc_value f)) result ≡ find (ends_at link last) self.old }
        ensures rest { self.new ≡ without_end link last self.old }
    {
        self.ends.remove(&(link, last))
    }

    /// Puts a fragment in the place of the one whose range ends with this cycle. Its range is free of the others.
    pub(crate) fn replace(
        &mut self,
        link: u16,
        last: u64,
        fragment: Arc<Fragment>,
    ) -> Result<(), AllocError>
        requires { AllByRecursion (λ f. shares link (arc_value fragment).first (arc_value fragment).last f ≡ false) (without_end link last self.old) }
        ensures ok { OnOk result (self.new ≡ put_in (recorded link (arc_value fragment)) (without_end link last self.old)) }
        ensures err { OnErr result (self.new ≡ self.old) }
    {
        // Its beats lie in its range, in order.
        let _ = fragment.beats();
        let end = fragment.last();
        self.ends.insert((link, end), fragment)?;
        if end == last {
            return Ok(());
        }
        self.ends.remove(&(link, last));
        Ok(())
    }

    /// The fragments of a link that end with a cycle or after it, up to the first that begins after an end, if there is one.
    fn on_link(&self, link: u16, first: u64, last: Option<u64>) -> OnLink<'_>
        ensures exact { fragments_left result ≡ filter (meets link first last) self.now }
        ensures kept { AreRanges self.now }
    {
        OnLink {
            entries: self.ends.range((link, first)..),
            link,
            last,
            has_ended: false,
        }
    }

    /// The lowest number of another fragment of the link that shares a cycle with this one.
    pub(crate) fn overlapped(&self, link: u16, fragment: &Fragment) -> Option<u32>
        ensures { result ≡ overlapped (recorded link fragment.now) self.now }
    {
        let number = fragment.number();
        let mut lowest = None;
        for (_, other) in self.on_link(link, fragment.first(), Some(fragment.last())) {
            if other.number() != number {
                lowest = lower(lowest, other.number());
            }
        }
        lowest
    }

    /// How many beats of a span a link has: what room `push_link` asks.
    pub(crate) fn count(&self, from: u64, to: u64, link: u16) -> usize
        requires { from ≤ to }
    {
        let mut count = 0usize;
        for (_, fragment) in self.on_link(link, from, Some(to)) {
            let (start, end) = bounds(fragment, from, to);
            count = count.saturating_add(end - start);
        }
        count
    }

    /// Whether a link has a beat in a span.
    pub(crate) fn has_beat(&self, from: u64, to: u64, link: u16) -> bool
        requires { from ≤ to }
        ensures { result ≡ has_some (beats_within from to (all_placed (of_link link self.now))) }
    {
        for (_, fragment) in self.on_link(link, from, Some(to)) {
            if has_some(fragment, from, to) {
                return true;
            }
        }
        false
    }

    /// Puts the beats of a span of a link after others. AllocError where memory is refused.
    pub(crate) fn push_link(
        &self,
        from: u64,
        to: u64,
        link: u16,
        beats: &mut Vec<Placed>,
    ) -> Result<(), AllocError>
        requires { from ≤ to }
        ensures { OnOk result (beats.new.items ≡ beats.old.items ++ beats_within from to (all_placed (of_link link self.now))) }
    {
        for (of, fragment) in self.on_link(link, from, Some(to)) {
            push_beats(from, to, of, fragment, beats)?;
        }
        Ok(())
    }

    /// Puts the fragments of a link that have a beat in a span after others, shared and not copied. AllocError where memory is
    /// refused.
    pub(crate) fn push_parts(
        &self,
        from: u64,
        to: u64,
        link: u16,
        parts: &mut Vec<Part>,
    ) -> Result<(), AllocError>
        requires { from ≤ to }
        ensures { OnOk result (spanned arc_value from to parts.new.items ≡ spanned arc_value from to parts.old.items ++ beats_within from to (all_placed (of_link link self.now))) }
    {
        for (of, fragment) in self.on_link(link, from, Some(to)) {
            if has_some(fragment, from, to) {
                parts.push((of, fragment.clone()?))?;
            }
        }
        Ok(())
    }

    /// Puts what the fragments of a link have in a span after others. AllocError where memory is refused.
    pub(crate) fn push_cursors<'a>(
        &'a self,
        from: u64,
        to: u64,
        link: u16,
        cursors: &mut Vec<Cursor<'a>>,
    ) -> Result<(), AllocError>
        requires { from ≤ to }
        ensures { OnOk result (all_left cursors.new.items ≡ all_left cursors.old.items ++ beats_within from to (all_placed (of_link link self.now))) }
    {
        for (of, fragment) in self.on_link(link, from, Some(to)) {
            match cursor_in(of, fragment, from, to) {
                Some(cursor) => cursors.push(cursor)?,
                None => continue,
            }
        }
        Ok(())
    }

    /// What is left of a count after the beats of a span of a link; None where they are more.
    pub(crate) fn less(&self, from: u64, to: u64, link: u16, count: u128) -> Option<u128>
        requires { from ≤ to }
        ensures { MatchOption result (count < length (beats_within from to (all_placed (of_link link self.now))))
            (λ left. left + length (beats_within from to (all_placed (of_link link self.now))) ≡ count) }
    {
        let mut left = count;
        for (_, fragment) in self.on_link(link, from, Some(to)) {
            let (start, end) = bounds(fragment, from, to);
            let own = (end - start) as u128;
            if left < own {
                return None;
            }
            left -= own;
        }
        Some(left)
    }

    /// Puts the windows in which a fragment of a link has a beat after others. AllocError where memory is refused.
    pub(crate) fn push_windows(&self, link: u16, windows: &mut Vec<u64>) -> Result<(), AllocError>
        ensures { OnOk result (windows.new.items ≡ windows.old.items ++ windows_of_all (of_link link self.now)) }
    {
        for (_, fragment) in self.on_link(link, 0, None) {
            push_windows(fragment.beats(), windows)?;
        }
        Ok(())
    }

    /// The number of the first fragment of a link.
    pub(crate) fn first(&self, link: u16) -> Option<u32>
        ensures { result ≡ option_map (λ f. f.number) (slice_get (of_link link self.now) 0) }
    {
        let (_, fragment) = self.on_link(link, 0, None).next()?;
        Some(fragment.number())
    }

    /// The number of the first fragment of a link that ends by a cycle: of the link's first, if that does.
    pub(crate) fn first_ended(&self, link: u16, cycle: u64) -> Option<u32>
        ensures { result ≡ option_map (λ f. f.number) (slice_get (filter (ends_by link cycle) self.now) 0) }
    {
        let (_, fragment) = self.on_link(link, 0, None).next()?;
        if fragment.last() <= cycle {
            Some(fragment.number())
        } else {
            None
        }
    }

    /// The same fragments, shared and not copied. AllocError where memory is refused.
    pub(crate) fn copy(&self) -> Result<Ranges, AllocError>
        ensures { IfOk result (λ copy. copy ≡ self.now) }
    {
        Ok(Ranges {
            ends: self.ends.clone()?,
        })
    }
}
