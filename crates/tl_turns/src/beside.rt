//! Files whose parts are judged by several threads.

ghost use Rattle.std.specs.Prelude.{◌<◌, List, None, IfOk};
ghost use Rattle.tl_beats.specs.Fragments.{Frag};
ghost use Rattle.tl_pass.specs.Parts.{IsPart};
ghost use Rattle.tl_pass.specs.Reports.{IsTaken};
ghost use Rattle.tl_turns.specs.Beside.{AreJudged};

use crate::heads::{Head, Queue, Stretch};
use crate::turns::FileSupply;
use std::alloc::{AllocError, Global};
use std::rt::Files;
use std::thread::{Threads, map_indices};
use tl_files::{FilesRead, Gauge, Untold, bytes_of};
use tl_pass::{Hitch, Links, Part, Taken, Whole, can_part};
use tl_stream::Sieve;
use tl_topology::Topo;

/// How many files each thread reads and judges between two times that it is told how many were read, about.
const FILES_EACH: usize = 128;

/// Fragments of links that are judged apart from all others, by their heads.
#[derive(Clone, Copy)]
pub struct Group {
    links: Links,
    heads: Stretch,
}

impl Group {
    /// No fragment, but one of this link will be there.
    fn at(from: usize, link: u16) -> Group {
        Group {
            links: Links {
                first: link,
                next: link,
            },
            heads: Stretch::at(from),
        }
    }

    /// It has one of this link more.
    fn take(&mut self, link: u16) {
        self.links.first = self.links.first.min(link);
        self.links.next = self.links.next.max(link.saturating_add(1));
        self.heads.grow();
    }
}

/// Groups of so many parts each.
fn gathered(alloc: Global, heads: &[Head], most: usize) -> Result<Vec<Group>, AllocError>
    requires { 0 < most }
{
    let mut groups: Vec<Group> = Vec::new(alloc);
    let mut parts: usize = 0;
    let mut last = None;
    for (at, head) in heads.iter().enumerate() {
        if last != Some(head.part) {
            if parts % most == 0 {
                groups.push(Group::at(at, head.link))?;
            }
            parts = parts.saturating_add(1);
            last = Some(head.part);
        }
        if let Some(group) = groups.last_mut() {
            group.take(head.link);
        }
    }
    Ok(groups)
}

/// How many parts there are.
fn part_count(heads: &[Head]) -> usize {
    let mut count: usize = 0;
    let mut last = None;
    for head in heads {
        if last != Some(head.part) {
            count = count.saturating_add(1);
            last = Some(head.part);
        }
    }
    count
}

/// Whether the links of each group come after those before, and may be judged apart from them.
fn are_apart(topo: &Topo, groups: &[Group]) -> bool {
    let mut next = 0;
    for group in groups {
        if group.links.first < next || !can_part(topo, group.links.first) {
            return false;
        }
        next = group.links.next;
    }
    true
}

/// The groups that so many threads beside this one judge, of fragments in the order in which a pass takes them; none where their links
/// can't be judged apart.
pub fn groups_of(
    alloc: Global,
    topo: &Topo,
    heads: &[Head],
    workers: u8,
) -> Result<Vec<Group>, AllocError> {
    let threads = usize::from(workers) + 1;
    let rounds = heads.len().div_ceil(threads * FILES_EACH);
    let most = part_count(heads).div_ceil((threads * rounds).max(1)).max(1);
    let groups = gathered(alloc, heads, most)?;
    if are_apart(topo, &groups) {
        Ok(groups)
    } else {
        Ok(Vec::new(alloc))
    }
}

/// The report of the files of a group, which are read and judged one after the other.
fn part_of<R: Files + AllocGlobal>(
    rt: &R,
    sieve: Sieve<'_>,
    queue: Queue<'_>,
    group: Group,
) -> Result<Part, Hitch>
    ensures { IfOk result (λ part. (fs : List Frag) × IsPart None sieve.entry.topo.now fs part) }
{
    let mut gauge = Untold;
    let count = group.heads.count;
    let mut read = FilesRead::none_of(count, &mut gauge);
    let own = queue.only(group.heads.of(queue.heads));
    let mut supply = FileSupply::new(rt, sieve, own, &mut read);
    Part::of(
        rt.alloc(),
        sieve.topo,
        None,
        group.links,
        count,
        &mut supply,
    )
}

/// The reports of groups, each made by a thread of its own.
fn parts_of<R: Files + Threads + Sync + AllocGlobal>(
    rt: &R,
    sieve: Sieve<'_>,
    queue: Queue<'_>,
    groups: &[Group],
) -> Result<Vec<Result<Part, Hitch>>, AllocError>
where
    R::File: Send,
    R::Dir: Send,
    ensures { IfOk result (λ parts. AreJudged sieve.entry.topo.now parts.items) }
{
    map_indices(
        rt,
        rt.alloc(),
        groups.len(),
        &|place| part_of(rt, sieve, queue, groups[place]),
    )
}

/// Counts the files with these heads.
pub fn count_files<R: Files, G: Gauge>(
    rt: &R,
    queue: Queue<'_>,
    heads: &[Head],
    read: &mut FilesRead<'_, G>,
) {
    for head in heads {
        if let Ok(path) = queue.path_of(head) {
            read.count(bytes_of(rt, path));
        }
    }
}

/// Counts the files of groups.
fn count_groups<R: Files, G: Gauge>(
    rt: &R,
    queue: Queue<'_>,
    groups: &[Group],
    read: &mut FilesRead<'_, G>,
) {
    for group in groups {
        count_files(rt, queue, group.heads.of(queue.heads), read);
    }
}

/// The rows of the fragments of files, of which this thread and so many beside it read and judge a group each.
pub fn rows_beside<R: Files + Threads + Sync + AllocGlobal, G: Gauge>(
    rt: &R,
    sieve: Sieve<'_>,
    queue: Queue<'_>,
    groups: &[Group],
    workers: u8,
    read: &mut FilesRead<'_, G>,
) -> Result<Taken, Hitch>
where
    R::File: Send,
    R::Dir: Send,
    ensures { IfOk result (λ taken. (fs : List Frag) × IsTaken None sieve.entry.topo.now fs taken) }
{
    let mut whole = Whole::new(rt.alloc());
    for round in groups.chunks(usize::from(workers) + 1) {
        let parts = parts_of(rt, sieve, queue, round)?;
        whole.add_all(sieve.topo, &parts)?;
        count_groups(rt, queue, round, read);
    }
    Ok(whole.report())
}
