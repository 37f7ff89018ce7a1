//! An input of fragments, one text after another.

ghost use Rattle.std.specs.Prelude.{◌≡◌, ◌++◌, ◌+◌, ◌<◌, ◌≤◌, ◌^◌, [], ℕ, List, IfOk, OnOk, OnErr, length, true};
ghost use Rattle.std.specs.List.{flat_map};
ghost use Rattle.std.specs.Io.KnownBytes.{Keeps, IsAtEnd};
ghost use Rattle.tl_beats.specs.Text.{fragment_text};
ghost use Rattle.tl_stream.specs.Feeds.{all_left, Gives, IsCut};
ghost use Rattle.tl_stream.specs.Parts.{joined_texts, BeginsWith};

use crate::ahead::Ahead;
use crate::ending::sought;
use crate::parsers::Parsers;
use crate::share::{Passed, Share};
use std::alloc::{AllocError, Global};
use std::collections::VecDeque;
use std::marker::Model;
use std::thread::Threads;
use tl_beats::{Fragment, FragmentFault, parse_fragment};
use tl_text::ByteIn;
use tl_topology::Topo;

/// The most bytes of a fragment's text.
const MOST_BYTES: usize = 8_388_608;

/// What comes next in an input.
#[derive(Drop)]
pub enum Cut {
    /// A fragment.
    Fragment(Fragment),
    /// The text of one that is not checked.
    Passed(Passed),
}

/// Which fragments are checked.
#[derive(Clone, Copy)]
pub struct Sieve<'a> {
    /// The topology.
    pub topo: &'a Topo,
    /// The managers of which the links are checked.
    pub share: &'a Share,
}

/// What was read of an input of fragments and that no fragment had that was taken.
#[derive(Drop)]
pub struct Feed {
    // The fragments that were parsed before they are asked for.
    parsed: VecDeque<Fragment>,
    // What comes after them.
    ahead: Ahead,
}

impl Model for Feed {
    ghost use Rattle.std.specs.Prelude.{ℕ, List, ◌++◌};
    ghost use Rattle.std.specs.List.{flat_map};
    ghost use Rattle.tl_beats.specs.Text.{fragment_text};

    ghost Value = { List ℕ };

    ghost view = { λ f. flat_map fragment_text f.parsed.items ++ f.ahead };
}

/// The texts at the front, each up to a line that is the last of a fragment. AllocError where memory is refused.
fn whole_texts(alloc: Global, bytes: &[u8]) -> Result<Vec<Vec<u8>>, AllocError>
    ensures { IfOk result (λ texts. BeginsWith bytes.now texts.items) }
{
    let mut texts = Vec::new(alloc);
    let mut start = 0;
    for _ in 0..bytes.len() {
        let found = sought(bytes, start);
        if !found.has_end {
            break;
        }
        texts.push(Vec::from_slice(alloc, &bytes[start..found.place])?)?;
        start = found.place;
    }
    Ok(texts)
}

/// How many bytes texts have together.
fn byte_count(texts: &[Vec<u8>]) -> usize
    requires { length (joined_texts texts.now) < 2 ^ 64 }
    ensures { result ≡ length (joined_texts texts.now) }
{
    let mut count = 0;
    for text in texts {
        count += text.len();
    }
    count
}

/// The fragment at the front of what was read.
fn cut_one(alloc: Global, sieve: Sieve<'_>, ahead: &mut Ahead) -> Result<Cut, FragmentFault>
    ensures ok { IfOk result (λ cut. IsCut ahead.old ahead.new cut) }
    ensures err { OnErr result (ahead.new ≡ ahead.old) }
{
    if let Some(passed) = sieve.share.passed(alloc, sieve.topo, ahead.left())? {
        ahead.pass(passed.bytes);
        return Ok(Cut::Passed(passed));
    }
    let (fragment, used) = parse_fragment(alloc, ahead.left())?;
    ahead.pass(used);
    Ok(Cut::Fragment(fragment))
}

/// The fragments at the front of what was read, where there are workers, all fragments are checked, and the texts of several are whole:
/// each thread parses its share. A text that is none ends them. AllocError where memory is refused.
fn cut_beside<R: Threads + Sync + AllocGlobal>(
    parsers: &Parsers<'_, R>,
    sieve: Sieve<'_>,
    ahead: &mut Ahead,
) -> Result<Vec<Fragment>, AllocError>
    ensures { IfOk result (λ fs. ahead.old ≡ flat_map fragment_text fs.items ++ ahead.new) }
{
    let alloc = parsers.alloc();
    if parsers.workers() == 0 || !sieve.share.is_all() {
        return Ok(Vec::new(alloc));
    }
    let texts = whole_texts(alloc, ahead.left())?;
    if texts.len() < 2 {
        return Ok(Vec::new(alloc));
    }
    let parsed = parsers.parse(&texts)?;
    ahead.pass(byte_count(&texts[..parsed.fragments.len()]));
    Ok(parsed.fragments)
}

/// Reads until the text of a fragment is whole at the front, in at most 8,388,610 reads, and answers whether the input was at its end
/// before. TooLong where that text has more than 8,388,608 bytes, ReadFault where a read fails.
fn fill<I: ByteIn>(ahead: &mut Ahead, input: &mut I) -> Result<bool, FragmentFault>
    requires reads { I.read_count input.old < 2 ^ 62 }
    requires failures { I.failure_count input.old < 2 ^ 63 }
    ensures kept { OnOk result (Keeps (all_left ahead.old (I.remaining input.old)) (all_left ahead.new (I.remaining input.new))) }
    ensures end { IfOk result (λ is_end. is_end ≡ true → IsAtEnd (I.remaining input.new)) }
    ensures quiet { OnOk result (I.failure_count input.new ≡ I.failure_count input.old) }
    ensures reads { I.read_count input.new ≤ I.read_count input.old + 8388610 }
{
    let mut searched = 0;
    for _ in 0..MOST_BYTES + 2 {
        let left = ahead.left();
        let found = sought(&left[..left.len().min(MOST_BYTES)], searched);
        if found.has_end {
            return Ok(false);
        }
        if left.len() > MOST_BYTES {
            return Err(FragmentFault::TooLong);
        }
        searched = found.place;
        if ahead.read_more(input)? {
            return Ok(true);
        }
    }
    Err(FragmentFault::TooLong)
}

impl Feed {
    /// No bytes.
    pub fn new<R: Threads + Sync + AllocGlobal>(parsers: &Parsers<'_, R>) -> Feed
        ensures { result ≡ [] }
    {
        let alloc = parsers.alloc();
        Feed {
            parsed: VecDeque::new(alloc),
            ahead: Ahead::with_workers(alloc, parsers.workers()),
        }
    }

    /// What was read after the fragments that were parsed before they are asked for.
    pub(crate) fn left(&self) -> &[u8]
        ensures { (texts : List ℕ) × (self.now ≡ texts ++ result.now) }
    {
        self.ahead.left()
    }

    /// The next fragment, read in at most 8,388,610 reads; None where nothing is left. Of one that is not checked its first line is
    /// read and its line `end` found. Its fault where what is left does not begin with the text of a fragment, TooLong where that has
    /// more than 8,388,608 bytes, ReadFault where a read fails; then, and at want of memory, what was read is lost.
    pub fn next<R: Threads + Sync + AllocGlobal, I: ByteIn>(
        &mut self,
        parsers: &Parsers<'_, R>,
        sieve: Sieve<'_>,
        input: &mut I,
    ) -> Result<Option<Cut>, FragmentFault>
        requires reads { I.read_count input.old < 2 ^ 62 }
        requires failures { I.failure_count input.old < 2 ^ 63 }
        ensures given { IfOk result (Gives (all_left self.old (I.remaining input.old)) (all_left self.new (I.remaining input.new))) }
        ensures quiet { OnOk result (I.failure_count input.new ≡ I.failure_count input.old) }
        ensures reads { I.read_count input.new ≤ I.read_count input.old + 8388610 }
    {
        if let Some(fragment) = self.parsed.pop_front() {
            return Ok(Some(Cut::Fragment(fragment)));
        }
        let is_end = fill(&mut self.ahead, input)?;
        self.parsed = VecDeque::from(cut_beside(parsers, sieve, &mut self.ahead)?);
        if let Some(fragment) = self.parsed.pop_front() {
            return Ok(Some(Cut::Fragment(fragment)));
        }
        if is_end && self.ahead.left().is_empty() {
            return Ok(None);
        }
        Ok(Some(cut_one(parsers.alloc(), sieve, &mut self.ahead)?))
    }
}
