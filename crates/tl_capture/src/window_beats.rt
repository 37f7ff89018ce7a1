//! The beats of a window as they lie in shared fragments.

ghost use Rattle.std.specs.Prelude.{◌≡◌, ◌≤◌, ◌==◌, [], IfOk, length};
ghost use Rattle.std.specs.Arc.{arc_value};
ghost use Rattle.std.specs.List.Sorted.{IsStrictlySortedBy};
ghost use Rattle.std.specs.Ordering.{nat_cmp};
ghost use Rattle.tl_definitions.specs.Positions.{beats_of_all};
ghost use Rattle.tl_capture.specs.Cursors.{all_left};
ghost use Rattle.tl_capture.specs.Parts.{spanned};
ghost use Rattle.tl_capture.specs.Spans.{IsSpan};
ghost use Rattle.tl_capture.specs.Windows.{window_of, beats_in, beats_within, AreBeatsOf};

use crate::cursor::Cursor;
use crate::cut::{bounds, cursor_in, push_beats};
use crate::merged::Merged;
use crate::order::in_order;
use crate::present::Present;
use crate::span::{WIDTH, span_of};
use crate::walks::Part;
use std::alloc::{AllocError, Global};
use std::marker::Model;
use tl_beats::Placed;

/// The beats of a window of some links as they lie in shared fragments: none is copied until they are asked for.
#[derive(Drop)]
pub struct WindowBeats {
    // The first and the last cycle of the window; where no cycle lies in it, those of the first, and no parts.
    pub(crate) from: u64,
    pub(crate) to: u64,
    // The fragments with a beat there.
    pub(crate) parts: Vec<Part>,
}

impl Model for WindowBeats {
    ghost use Rattle.std.specs.Prelude.{List};
    ghost use Rattle.std.specs.Arc.{arc_value};
    ghost use Rattle.tl_beats.specs.declared.Placed.{Placed};
    ghost use Rattle.tl_definitions.specs.Positions.{in_order};
    ghost use Rattle.tl_capture.specs.Parts.{spanned, AreOfWindow};

    ghost Value = { List Placed };

    ghost view = { λ b. in_order (spanned arc_value b.from b.to b.parts.items) };

    ghost invariant = { λ b. AreOfWindow b.from b.to (spanned arc_value b.from b.to b.parts.items) };
}

impl WindowBeats {
    /// None.
    fn none(alloc: Global) -> WindowBeats
        ensures { result ≡ [] }
    {
        WindowBeats {
            from: 0,
            to: WIDTH - 1,
            parts: Vec::new(alloc),
        }
    }

    /// Whether there is none.
    pub fn is_empty(&self) -> bool
        ensures { result ≡ (length self.now == 0) }
    {
        count(self.from, self.to, &self.parts) == 0
    }

    /// The beats, copied, in the order of positions. AllocError where memory is refused.
    pub fn gathered(&self, alloc: Global) -> Result<Vec<Placed>, AllocError>
        ensures { IfOk result (λ beats. beats.items ≡ self.now) }
    {
        let beats = copied(alloc, self.from, self.to, &self.parts)?;
        let sorted = in_order(beats)?;
        Ok(sorted)
    }

    /// A walk over the beats in the order of positions, as they lie in the fragments. AllocError where memory is refused.
    pub fn walk(&self, alloc: Global) -> Result<Merged<'_>, AllocError>
        ensures { IfOk result (λ walk. walk ≡ self.now) }
    {
        let cursors = cursors_in(alloc, self.from, self.to, &self.parts)?;
        Ok(Merged::of(cursors))
    }
}

/// What each of these fragments has in a span. AllocError where memory is refused.
fn cursors_in<'a>(
    alloc: Global,
    from: u64,
    to: u64,
    parts: &'a [Part],
) -> Result<Vec<Cursor<'a>>, AllocError>
    requires { from ≤ to }
    ensures { IfOk result (λ cursors. all_left cursors.items ≡ spanned arc_value from to parts.now) }
{
    let mut cursors = Vec::new(alloc);
    for (link, fragment) in parts {
        match cursor_in(*link, fragment, from, to) {
            Some(cursor) => cursors.push(cursor)?,
            None => continue,
        }
    }
    Ok(cursors)
}

/// The beats of a span of these fragments, one after the other.
fn copied(alloc: Global, from: u64, to: u64, parts: &[Part]) -> Result<Vec<Placed>, AllocError>
    requires { from ≤ to }
    ensures { IfOk result (λ beats. beats.items ≡ spanned arc_value from to parts.now) }
{
    let mut beats = Vec::new(alloc);
    beats.reserve(usize::try_from(count(from, to, parts)).unwrap_or(usize::MAX))?;
    for (link, fragment) in parts {
        push_beats(from, to, *link, fragment, &mut beats)?;
    }
    Ok(beats)
}

/// How many beats of a span these fragments have.
pub(crate) fn count(from: u64, to: u64, parts: &[Part]) -> u128
    requires { from ≤ to }
    ensures { result ≡ length (spanned arc_value from to parts.now) }
{
    let mut count = 0u128;
    for (_, fragment) in parts {
        let (start, end) = bounds(fragment, from, to);
        count += (end - start) as u128;
    }
    count
}

impl Present {
    /// The beats of these links, whose numbers rise, in a window, shared and not copied. AllocError where memory is refused.
    pub fn window_beats(
        &self,
        alloc: Global,
        window: u64,
        links: &[u16],
    ) -> Result<WindowBeats, AllocError>
        requires { IsStrictlySortedBy nat_cmp links.now }
        ensures exact { IfOk result (λ beats. beats ≡ beats_in window (beats_of_all links.now self.now)) }
        ensures kept { IfOk result (λ beats. AreBeatsOf links.now beats) }
    {
        // No two fragments of a link share a number or a cycle.
        let _ = &self.ranges;
        match span_of(window) {
            Some((from, to)) => self.share(alloc, from, to, links),
            None => Ok(WindowBeats::none(alloc)),
        }
    }

    /// The beats of a span of these links, whose numbers rise, shared and not copied.
    fn share(
        &self,
        alloc: Global,
        from: u64,
        to: u64,
        links: &[u16],
    ) -> Result<WindowBeats, AllocError>
        requires span { IsSpan (window_of from) from to }
        requires links { IsStrictlySortedBy nat_cmp links.now }
        ensures { IfOk result (λ beats. beats ≡ beats_within from to (beats_of_all links.now self.now)) }
    {
        // No two fragments of a link share a number or a cycle.
        let _ = &self.ranges;
        let mut parts = Vec::new(alloc);
        for link in links {
            self.ranges.push_parts(from, to, *link, &mut parts)?;
        }
        Ok(WindowBeats { from, to, parts })
    }
}
