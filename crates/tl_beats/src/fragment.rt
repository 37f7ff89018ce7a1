//! A fragment of a capture.

ghost use Rattle.std.specs.Prelude.{◌≡◌, ◌≤◌, IfOk};
ghost use Rattle.tl_beats.specs.Fragments.{AreBeats};
ghost use Rattle.tl_beats.specs.Parts.{IsAnswerTo};
ghost use Rattle.std.specs.List.{All};
ghost use Rattle.tl_text.specs.Words.{lines_of};
ghost use Rattle.tl_beats.specs.Beats.{IsWellFormed};
ghost use Rattle.tl_beats.specs.Text.{fragment_text};
ghost use Rattle.tl_beats.specs.Reading.{whole_fragment_in};

use crate::Beat;
use crate::fault::FragmentFault;
use crate::places::judge;
use std::alloc::{AllocError, Global};
use std::marker::Model;
use tl_text::Name;

/// The accepted beats of one link in a range of cycles: at most 65,536, each in the range and strictly before the next
/// by cycle and channel.
#[derive(Drop)]
pub struct Fragment {
    pub(crate) link: Name,
    pub(crate) number: u32,
    pub(crate) first: u64,
    pub(crate) last: u64,
    pub(crate) beats: Vec<Beat>,
}

impl Model for Fragment {
    ghost use Rattle.tl_beats.specs.Fragments.{Frag, IsFragment};

    ghost Value = { Frag };

    ghost view = { λ f. record { link = f.link; number = f.number; first = f.first; last = f.last; beats = f.beats.items } };

    ghost invariant = { λ f. IsFragment (record { link = f.link; number = f.number; first = f.first; last = f.last; beats = f.beats.items }) };
}

impl Fragment {
    /// The fragment with these parts, or the first fault, counted as in the text: the header is line 1 and the beat at place i
    /// is on line i + 2. BadHeader where the first cycle is above the last; in the line of a beat first BadField, where the beat
    /// is not well-formed, then TooManyBeats, OutOfRange and NotRising.
    pub fn new(
        link: Name,
        number: u32,
        first: u64,
        last: u64,
        beats: Vec<Beat>,
    ) -> Result<Fragment, FragmentFault>
        ensures exact { IsAnswerTo (record { link = link; number = number; first = first; last = last; beats = beats.items }) result }
        ensures keeps { IfOk result (λ f. f ≡ record { link = link; number = number; first = first; last = last; beats = beats.items }) }
        // Well-formed beats are answered as the text of the parts is.
        ensures as_text { All IsWellFormed beats.items → result ≡ whole_fragment_in (lines_of (fragment_text (record { link = link; number = number; first = first; last = last; beats = beats.items }))) }
    {
        if last < first {
            return Err(FragmentFault::BadHeader);
        }
        judge(first, last, &beats)?;
        Ok(Fragment {
            link,
            number,
            first,
            last,
            beats,
        })
    }

    /// The name of its link.
    pub fn link(&self) -> Name
        ensures { result ≡ self.now.link }
    {
        self.link
    }

    /// Its number on its link.
    pub fn number(&self) -> u32
        ensures { result ≡ self.now.number }
    {
        self.number
    }

    /// The first cycle of its range.
    pub fn first(&self) -> u64
        ensures exact { result ≡ self.now.first }
        ensures order { result ≤ self.now.last }
    {
        self.first
    }

    /// The last cycle of its range.
    pub fn last(&self) -> u64
        ensures exact { result ≡ self.now.last }
        ensures order { self.now.first ≤ result }
    {
        self.last
    }

    /// Its beats, in their order.
    pub fn beats(&self) -> &[Beat]
        ensures exact { result.now ≡ self.now.beats }
        ensures kept { AreBeats self.now.first self.now.last result.now }
    {
        self.beats.as_slice()
    }

    /// A copy of it. AllocError where memory is refused.
    pub fn copy(&self, alloc: Global) -> Result<Fragment, AllocError>
        ensures { IfOk result (λ copy. copy ≡ self.now) }
    {
        let beats = Vec::from_slice(alloc, self.beats.as_slice())?;
        Ok(Fragment {
            link: self.link,
            number: self.number,
            first: self.first,
            last: self.last,
            beats,
        })
    }
}
