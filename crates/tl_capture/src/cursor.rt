//! What is left of one fragment.

ghost use Rattle.std.specs.Prelude.{◌≡◌, ◌∷◌, ◌+◌, ◌≤◌, ◌<◌, ◌^◌, [], length, drop, MatchOption};
ghost use Rattle.tl_capture.specs.Rising.{AreRising};

use std::cmp::Ordering;
use tl_beats::{Beat, Placed};
use tl_tables::chan_index;

/// What is left of a fragment's beats in a span: one at least.
#[derive(Clone, Copy)]
pub(crate) struct Cursor<'a> {
    pub(crate) link: u16,
    pub(crate) fragment: u32,
    // The line of the next beat.
    pub(crate) line: u32,
    pub(crate) next: &'a Beat,
    // The beats after it.
    pub(crate) rest: &'a [Beat],
    ghost lines: { line + length rest.now < 2 ^ 32 },
    ghost rising: { AreRising (next.now ∷ rest.now) },
}

impl<'a> Cursor<'a> {
    ghost use Rattle.tl_definitions.specs.Positions.{position_order, lies_before, placed_from};
    ghost use Rattle.tl_capture.specs.Cursors.{here, after, beats_left};

    /// The beats of a fragment from this line on; None where there is none.
    pub(crate) fn new(link: u16, fragment: u32, line: u32, beats: &'a [Beat]) -> Option<Cursor<'a>>
        requires lines { line + length beats.now ≤ 2 ^ 32 }
        requires rising { AreRising beats.now }
        ensures { MatchOption result (beats.now ≡ []) (λ c. beats_left c ≡ placed_from link fragment line beats.now) }
    {
        let (next, rest) = beats.split_first()?;
        Some(Cursor {
            link,
            fragment,
            line,
            next,
            rest,
        })
    }

    /// The next beat.
    pub(crate) fn here(&self) -> Placed
        ensures { result ≡ here self.now }
    {
        Placed {
            link: self.link,
            fragment: self.fragment,
            line: self.line,
            beat: *self.next,
        }
    }

    /// What is left after the next beat and so many after that; None where nothing is.
    pub(crate) fn moved(&self, more: usize) -> Option<Cursor<'a>>
        requires { more ≤ length self.now.rest.now }
        ensures { MatchOption result (drop more (after self.now) ≡ []) (λ c. beats_left c ≡ drop more (after self.now)) }
    {
        let left = &self.rest[more..];
        let (next, rest) = left.split_first()?;
        Some(Cursor {
            link: self.link,
            fragment: self.fragment,
            line: self.line + 1 + more as u32,
            next,
            rest,
        })
    }

    /// How its next beat lies to that of another in the order of positions.
    pub(crate) fn order(&self, other: &Cursor<'a>) -> Ordering
        ensures { result ≡ position_order (here self.now) (here other.now) }
    {
        let chan = chan_index(self.next.chan).cmp(&chan_index(other.next.chan));
        let cycle = self.next.cycle.cmp(&other.next.cycle);
        cycle.then(chan.then(self.link.cmp(&other.link)))
    }

    /// Whether its next beat lies before that of another.
    pub(crate) fn lies_before(&self, other: &Cursor<'a>) -> bool
        ensures { result ≡ lies_before (here self.now) (here other.now) }
    {
        // Cycles mostly decide.
        let cycle = self.next.cycle;
        if cycle != other.next.cycle {
            return cycle < other.next.cycle;
        }
        self.order(other).is_lt()
    }
}
