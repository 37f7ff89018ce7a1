//! The fragments that are present on links at one moment.

ghost use Rattle.std.specs.Prelude.{◌≡◌, ◌==◌, length, [], IfOk};
ghost use Rattle.std.specs.Arc.{arc_value};
ghost use Rattle.std.specs.Option.{option_map};
ghost use Rattle.tl_capture.specs.Present.{recorded, numbered, overlapped, IsPresent};

use crate::ranges::Ranges;
use std::alloc::{AllocError, Global};
use std::collections::BTreeMap;
use std::marker::Model;
use std::sync::Arc;
use tl_beats::Fragment;

/// The fragments that stand on links, each by the number of its link and its own, in the order of links and ranges. No two
/// of one link share a number or a cycle. Fragments are shared and not copied: their beats stand once in memory, however
/// many values name them.
#[derive(Drop)]
pub struct Present {
    pub(crate) ranges: Ranges,
    // The end of the range of each fragment, by link and number.
    pub(crate) numbers: BTreeMap<(u16, u32), u64>,
}

impl Model for Present {
    ghost use Rattle.std.specs.Prelude.{List};
    ghost use Rattle.tl_definitions.specs.Positions.{Recorded};
    ghost use Rattle.tl_capture.specs.Present.{IsPresent};
    ghost use Rattle.tl_capture.specs.Ranges.{AreEnds};

    ghost Value = { List Recorded };

    ghost view = { λ p. p.ranges };

    ghost invariant = { λ p. IsPresent p.ranges × AreEnds p.numbers.entries p.ranges };
}

impl Present {
    /// No fragment is present.
    pub fn new(alloc: Global) -> Present
        ensures { result ≡ [] }
    {
        Present {
            ranges: Ranges::new(alloc),
            numbers: BTreeMap::new(alloc),
        }
    }

    /// Whether no fragment is present.
    pub fn is_empty(&self) -> bool
        ensures exact { result ≡ (length self.now == 0) }
        // Each is a fragment's, and no two of one link share a number or a cycle.
        ensures kept { IsPresent self.now }
    {
        // No two fragments of a link share a number or a cycle.
        let _ = &self.numbers;
        self.ranges.is_empty()
    }

    /// The fragment of a link with a number, if one is there.
    pub fn get(&self, link: u16, number: u32) -> Option<&Arc<Fragment>>
        ensures { option_map (λ f. recorded link (arc_value f.now)) result ≡ numbered link number self.now }
    {
        let last = *self.numbers.get(&(link, number))?;
        self.ranges.at(link, last)
    }

    /// The lowest number of another fragment of a link whose range shares a cycle with that of this fragment. One of the same
    /// number, which this one would replace, isn't asked.
    pub fn overlapped(&self, link: u16, fragment: &Fragment) -> Option<u32>
        ensures { result ≡ overlapped (recorded link fragment.now) self.now }
    {
        self.ranges.overlapped(link, fragment)
    }

    /// The same fragments, shared and not copied. AllocError where memory is refused.
    pub fn copy(&self) -> Result<Present, AllocError>
        ensures { IfOk result (λ copy. copy ≡ self.now) }
    {
        Ok(Present {
            ranges: self.ranges.copy()?,
            numbers: self.numbers.clone()?,
        })
    }
}
