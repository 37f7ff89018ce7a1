//! Texts of fragments that several threads parse.

ghost use Rattle.std.specs.Prelude.{◌≡◌, ◌<◌, ◌*◌, ◌/◌, ◌%◌, ◌+◌, ℕ, min, IfOk, length};
ghost use Rattle.tl_stream.specs.Parts.{AreParsed, ArePartsParsed};

use std::alloc::{AllocError, Global};
use std::thread::{Threads, map_chunks};
use tl_beats::{Fragment, FragmentFault, parse_whole_fragment};

/// What texts are: fragments, up to the first text that is none.
#[derive(Drop)]
pub struct Parsed {
    /// The fragments, in the order of their texts.
    pub fragments: Vec<Fragment>,
    /// The fault of the text after theirs, where they are not all.
    pub fault: Option<FragmentFault>,
}

/// What texts are, parsed one after another. AllocError where memory is refused.
fn parse_texts(alloc: Global, texts: &[Vec<u8>]) -> Result<Parsed, AllocError>
    ensures { IfOk result (AreParsed texts.now) }
{
    let mut fragments = Vec::new(alloc);
    for text in texts {
        match parse_whole_fragment(alloc, text) {
            Ok(fragment) => fragments.push(fragment)?,
            Err(FragmentFault::Memory) => return Err(AllocError),
            Err(fault) => {
                return Ok(Parsed {
                    fragments,
                    fault: Some(fault),
                });
            }
        }
    }
    Ok(Parsed {
        fragments,
        fault: None,
    })
}

/// What texts are, of which each part of so many was parsed by itself. AllocError where memory was refused, or is.
fn joined(
    alloc: Global,
    texts: &[Vec<u8>],
    share: usize,
    parts: Vec<Result<Parsed, AllocError>>,
) -> Result<Parsed, AllocError>
    requires share { 0 < share }
    requires count { length parts.items ≡ length texts.now / share + min 1 (length texts.now % share) }
    requires parsed { ArePartsParsed texts.now share parts.items }
    ensures { IfOk result (AreParsed texts.now) }
{
    // Only the contract speaks of these.
    let _ = texts.len();
    let _ = share;
    let mut fragments = Vec::new(alloc);
    for part in parts {
        let mut part = part?;
        fragments.append(&mut part.fragments)?;
        if part.fault.is_some() {
            return Ok(Parsed {
                fragments,
                fault: part.fault,
            });
        }
    }
    Ok(Parsed {
        fragments,
        fault: None,
    })
}

/// The threads that parse fragments: the one that asks for them, and so many beside it.
#[derive(Drop)]
pub struct Parsers<'a, R> {
    rt: &'a R,
    workers: u8,
}

impl<'a, R: Threads + Sync + AllocGlobal> Parsers<'a, R> {
    /// The thread that asks, and so many beside it.
    pub fn new(rt: &'a R, workers: u8) -> Parsers<'a, R> {
        Parsers { rt, workers }
    }

    /// What they allocate in.
    pub fn alloc(&self) -> Global {
        self.rt.alloc()
    }

    /// How many there are beside the thread that asks.
    pub fn workers(&self) -> u8 {
        self.workers
    }

    /// What texts are, of which each thread parses an equal share, in their order. It is the same for any number of threads.
    /// AllocError where memory is refused.
    pub fn parse(&self, texts: &[Vec<u8>]) -> Result<Parsed, AllocError>
        ensures { IfOk result (AreParsed texts.now) }
    {
        let alloc = self.alloc();
        let share = texts.len().div_ceil(usize::from(self.workers) + 1).max(1);
        let parts = map_chunks(
            self.rt,
            alloc,
            texts,
            share,
            &|_, part| parse_texts(alloc, part),
        )?;
        joined(alloc, texts, share, parts)
    }
}
