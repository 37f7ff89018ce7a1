//! The first lines of the files of fragments, and an order in which few fragments are held at a time.

use std::alloc::{AllocError, Global};
use std::fs;
use std::rt::Files;
use tl_beats::{Fragment, FragmentFault, parse_fragment};
use tl_files::Fault;
use tl_pass::has_no_caches;
use tl_text::{ByteIn, CountedReader, line};
use tl_topology::Topo;

/// More bytes than the first line of a fragment has.
const LINE_BYTES: usize = 256;

/// What is judged apart.
#[derive(Clone, Copy, Debug, PartialEq, Eq)]
pub enum Parts {
    /// All links of a manager, where some link has caches.
    Managers,
    /// Each link by itself, where none has caches.
    Links,
}

/// What is judged apart of a topology.
fn parts_of(topo: &Topo) -> Parts {
    if has_no_caches(topo) {
        Parts::Links
    } else {
        Parts::Managers
    }
}

/// What the first line of a file says of its fragment. Heads are ordered by their parts, and those of a part by the first cycles of their
/// ranges.
#[derive(Clone, Copy, Debug, PartialEq, Eq, PartialOrd, Ord)]
pub struct Head {
    /// The number of the manager, or of the link that is judged by itself.
    pub part: u16,
    first: u64,
    pub link: u16,
    number: u32,
    last: u64,
    /// The place of the file among all.
    file: usize,
}

/// Some heads in a row.
#[derive(Clone, Copy)]
pub struct Stretch {
    /// The place of the first among all.
    from: usize,
    pub count: usize,
}

impl Stretch {
    /// None, before the head at this place.
    pub fn at(from: usize) -> Stretch {
        Stretch { from, count: 0 }
    }

    /// Has the next one too.
    pub fn grow(&mut self) {
        self.count = self.count.saturating_add(1);
    }

    /// The heads, of all.
    pub fn of<'a>(self, heads: &'a [Head]) -> &'a [Head] {
        let end = self.from.saturating_add(self.count);
        heads.get(self.from..end).unwrap_or(&[])
    }
}

/// Files of fragments, in the order in which a pass takes them.
#[derive(Clone, Copy)]
pub struct Queue<'a> {
    files: &'a [String],
    pub heads: &'a [Head],
}

impl<'a> Queue<'a> {
    /// The files of which these are the heads.
    pub fn new(files: &'a [String], heads: &'a [Head]) -> Queue<'a> {
        Queue { files, heads }
    }

    /// Those of the files that have these heads.
    pub fn only(self, heads: &'a [Head]) -> Queue<'a> {
        Queue {
            files: self.files,
            heads,
        }
    }

    /// The path of the file with the head at this place.
    pub fn path(self, place: usize) -> Result<&'a str, Fault> {
        match self.heads.get(place) {
            Some(head) => self.path_of(head),
            None => Err(Fault::FILE),
        }
    }

    /// The path of the file with this head.
    pub fn path_of(self, head: &Head) -> Result<&'a str, Fault> {
        match self.files.get(head.file) {
            Some(path) => Ok(path.as_str()),
            None => Err(Fault::FILE),
        }
    }
}

/// The head of a fragment, if the topology has its link.
fn head_of(topo: &Topo, parts: Parts, fragment: &Fragment, file: usize) -> Option<Head> {
    let link = topo.link_of(&fragment.link())?;
    let part = match parts {
        Parts::Managers => topo.link(link)?.manager,
        Parts::Links => link,
    };
    Some(Head {
        part,
        first: fragment.first(),
        link,
        number: fragment.number(),
        last: fragment.last(),
        file,
    })
}

/// The head of the fragment that begins with the first line of these bytes, if that is one of a known link.
fn head_in(
    alloc: Global,
    topo: &Topo,
    parts: Parts,
    bytes: &[u8],
    file: usize,
) -> Result<Option<Head>, AllocError> {
    let Some((header, _)) = line(bytes) else {
        return Ok(None);
    };
    let mut alone = Vec::from_slice(alloc, header)?;
    alone.extend_from_slice(b"\nend\n")?;
    match parse_fragment(alloc, &alone) {
        Ok((fragment, _)) => Ok(head_of(topo, parts, &fragment, file)),
        Err(FragmentFault::Memory) => Err(AllocError),
        Err(_) => Ok(None),
    }
}

/// How many bytes at the front of a file one read gives.
fn front_bytes<R: Files + AllocGlobal>(rt: &R, path: &str, buffer: &mut [u8]) -> Option<usize> {
    let file = fs::open(rt, path).ok()?;
    CountedReader::new(file).read(buffer).ok()
}

/// The heads of all files; None where one has none.
fn heads_of<R: Files + AllocGlobal>(
    rt: &R,
    topo: &Topo,
    parts: Parts,
    files: &[String],
) -> Result<Option<Vec<Head>>, AllocError> {
    let mut buffer = Vec::new(rt.alloc());
    buffer.resize(LINE_BYTES, 0u8)?;
    let mut heads = Vec::new(rt.alloc());
    for (file, path) in files.iter().enumerate() {
        let Some(taken) = front_bytes(rt, path.as_str(), &mut buffer) else {
            return Ok(None);
        };
        let front = buffer.get(..taken).unwrap_or(&[]);
        match head_in(rt.alloc(), topo, parts, front, file)? {
            Some(head) => heads.push(head)?,
            None => return Ok(None),
        }
    }
    Ok(Some(heads))
}

/// Whether the numbers and the ranges of each link rise.
fn are_rising(alloc: Global, links: usize, heads: &[Head]) -> Result<bool, AllocError> {
    let mut newest: Vec<Option<Head>> = Vec::new(alloc);
    newest.resize(links, None)?;
    for head in heads {
        let Some(place) = newest.get_mut(usize::from(head.link)) else {
            return Ok(false);
        };
        if let Some(before) = *place
            && (head.number <= before.number || head.first <= before.last)
        {
            return Ok(false);
        }
        *place = Some(*head);
    }
    Ok(true)
}

/// The order in which a pass takes the fragments of files: part by part, and those of a part by the first cycles of their ranges. None
/// where a file has no head, or the fragments of a link that is judged with others don't rise by number and range.
pub fn in_turn<R: Files + AllocGlobal>(
    rt: &R,
    topo: &Topo,
    files: &[String],
) -> Result<Option<Vec<Head>>, AllocError> {
    let parts = parts_of(topo);
    let Some(mut heads) = heads_of(rt, topo, parts, files)? else {
        return Ok(None);
    };
    heads.sort_unstable();
    let is_fit = parts == Parts::Links || are_rising(rt.alloc(), topo.link_count(), &heads)?;
    if is_fit { Ok(Some(heads)) } else { Ok(None) }
}
