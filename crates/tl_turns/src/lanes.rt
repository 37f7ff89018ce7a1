//! Files of links with caches, which several threads read and judge beside each other.

ghost use Rattle.std.specs.Prelude.{List, None, IfOk};
ghost use Rattle.tl_beats.specs.Fragments.{Frag};
ghost use Rattle.tl_pass.specs.Reports.{IsTaken};

use crate::beside::count_files;
use crate::heads::{Head, Queue, Stretch};
use crate::turns::FileSupply;
use std::alloc::{AllocError, Global};
use std::rt::Files;
use std::thread::Threads;
use tl_apart::LinkFeed;
use tl_files::{FilesRead, Gauge, Untold, bytes_of};
use tl_pass::{Beside, Hitch, Lanes, Taken, feed_all, has_no_caches};
use tl_stream::Sieve;
use tl_topology::Topo;

/// With fewer threads beside this one, links that are judged beside each other take as long as one thread takes for all of them.
const LEAST_WORKERS: u8 = 3;

/// How many bytes the files of a round have, about. What they tell their managers waits until its end, in some 16 MB.
const ROUND_BYTES: u64 = 8_388_608;

/// Whether links of files are to be judged beside each other: some have caches, there are several, and so are threads.
pub fn are_lanes(topo: &Topo, heads: &[Head], workers: u8) -> bool {
    let Some(first) = heads.first() else {
        return false;
    };
    workers >= LEAST_WORKERS
        && !has_no_caches(topo)
        && heads.iter().any(|head| head.link != first.link)
}

/// The heads of each round of files.
fn rounds_of<R: Files + AllocGlobal>(rt: &R, queue: Queue<'_>) -> Result<Vec<Stretch>, AllocError> {
    let mut rounds: Vec<Stretch> = Vec::new(rt.alloc());
    let mut bytes = ROUND_BYTES;
    for (place, head) in queue.heads.iter().enumerate() {
        if bytes >= ROUND_BYTES {
            rounds.push(Stretch::at(place))?;
            bytes = 0;
        }
        if let Some(round) = rounds.last_mut() {
            round.grow();
        }
        if let Ok(path) = queue.path_of(head) {
            bytes = bytes.saturating_add(bytes_of(rt, path));
        }
    }
    Ok(rounds)
}

/// Files of links, in rounds.
#[derive(Drop)]
struct FileLanes<'r, 'a, 'q, R> {
    rt: &'r R,
    sieve: Sieve<'a>,
    queue: Queue<'q>,
    rounds: &'q [Stretch],
}

impl<'r, 'a, 'q, R: Files + AllocGlobal> FileLanes<'r, 'a, 'q, R> {
    /// The heads of the files of a round.
    fn heads(&self, round: usize) -> &'q [Head] {
        match self.rounds.get(round) {
            Some(round) => round.of(self.queue.heads),
            None => &[],
        }
    }

    /// Those of a link.
    fn own_heads(&self, alloc: Global, round: usize, link: u16) -> Result<Vec<Head>, AllocError> {
        self.heads(round)
            .iter()
            .copied()
            .filter(|head| head.link == link)
            .collect(alloc)
    }
}

impl<'r, 'a, 'q, R: Files + AllocGlobal> Lanes for FileLanes<'r, 'a, 'q, R> {
    ghost gives = { λ _ _ _ _. Unit {0} };

    fn fill(
        &self,
        alloc: Global,
        topo: &Topo,
        round: usize,
        link: u16,
        feed: &mut LinkFeed,
    ) -> Result<(), Hitch> {
        let own = self.own_heads(alloc, round, link)?;
        let mut gauge = Untold;
        let mut read = FilesRead::none_of(own.len(), &mut gauge);
        let queue = self.queue.only(&own);
        let mut supply = FileSupply::new(self.rt, self.sieve, queue, &mut read);
        feed_all(alloc, topo, link, own.len(), &mut supply, feed)
    }
}

/// The rows of the fragments of files, of which this thread and so many beside it read and judge some links' each.
pub fn rows_of_lanes<R: Files + Threads + Sync + AllocGlobal, G: Gauge>(
    rt: &R,
    sieve: Sieve<'_>,
    queue: Queue<'_>,
    workers: u8,
    read: &mut FilesRead<'_, G>,
) -> Result<Taken, Hitch>
where
    R::File: Send,
    R::Dir: Send,
    ensures { IfOk result (λ taken. (fs : List Frag) × IsTaken None sieve.entry.topo.now fs taken) }
{
    let threads = usize::from(workers) + 1;
    let rounds = rounds_of(rt, queue)?;
    let lanes = FileLanes {
        rt,
        sieve,
        queue,
        rounds: &rounds,
    };
    let mut beside = Beside::new(rt.alloc(), sieve.topo)?;
    for round in 0..rounds.len() {
        beside.round(rt, threads, round, &lanes)?;
        count_files(rt, queue, lanes.heads(round), read);
    }
    beside.report()
}
