//! The report of files of which each is judged as it is read, and forgotten.

ghost use Rattle.std.specs.Prelude.{List, IfOk, IfSome};
ghost use Rattle.tl_beats.specs.Fragments.{Frag};
ghost use Rattle.tl_pass.specs.Reports.{IsTaken};

use crate::beside::{groups_of, rows_beside};
use crate::heads::{Queue, in_turn};
use crate::lanes::{are_lanes, rows_of_lanes};
use crate::pieces::FilePieces;
use std::alloc::Global;
use std::rt::Files;
use std::sync::Arc;
use std::thread::Threads;
use tl_beats::Fragment;
use tl_files::{Fault, FilesRead, Gauge, Page, are_files, bytes_of, fragment_at, listed};
use tl_midway::Midway;
use tl_options::How;
use tl_pass::{Hitch, Supply, Taken, report_of, report_of_pieces};
use tl_stream::Sieve;

/// The most fragments that are edits of one log.
const MOST_EDITS: usize = 65_536;

/// Why a pass does not go on that needs a file with this fault. Which fault is told is found by looking at the files in the order of the
/// words.
pub fn hitch_of(fault: Fault) -> Hitch {
    if fault == Fault::MEMORY {
        Hitch::Memory
    } else {
        Hitch::Fault
    }
}

/// Files of fragments, each of which is read into one page when it is wanted.
#[derive(Drop)]
pub struct FileSupply<'r, 'a, 'p, 'g, R, G: Gauge> {
    rt: &'r R,
    sieve: Sieve<'a>,
    queue: Queue<'a>,
    next: usize,
    page: Page,
    read: &'p mut FilesRead<'g, G>,
}

impl<'r, 'a, 'p, 'g, R: Files + AllocGlobal, G: Gauge> FileSupply<'r, 'a, 'p, 'g, R, G> {
    /// The files of a queue, none of which was read.
    pub fn new(
        rt: &'r R,
        sieve: Sieve<'a>,
        queue: Queue<'a>,
        read: &'p mut FilesRead<'g, G>,
    ) -> FileSupply<'r, 'a, 'p, 'g, R, G> {
        FileSupply {
            rt,
            sieve,
            queue,
            next: 0,
            page: Page::new(rt.alloc()),
            read,
        }
    }

    /// The fragment of the next file, if it is checked.
    fn next_fragment(&mut self) -> Result<Option<Arc<Fragment>>, Fault> {
        let path = self.queue.path(self.next)?;
        self.next = self.next.saturating_add(1);
        fragment_at(self.rt, path, self.sieve, &mut self.page, self.read)
    }
}

impl<'r, 'a, 'p, 'g, R: Files + AllocGlobal, G: Gauge> Supply for FileSupply<'r, 'a, 'p, 'g, R, G> {
    ghost has_given = { λ _ _ _. Unit {0} };

    fn next(&mut self, _alloc: Global) -> Result<Option<Arc<Fragment>>, Hitch> {
        match self.next_fragment() {
            Ok(fragment) => Ok(fragment),
            Err(fault) => Err(hitch_of(fault)),
        }
    }
}

/// What is found in the fragments of files, of a whole run or of a capture that begins so, which are judged in this order, by so many
/// threads beside this one: each has parts of its own where there are several, and else links. One thread judges a capture from the middle
/// of a run.
fn taken_of<R: Files + Threads + Sync + AllocGlobal, G: Gauge>(
    rt: &R,
    sieve: Sieve<'_>,
    queue: Queue<'_>,
    midway: Option<Midway>,
    workers: u8,
    read: &mut FilesRead<'_, G>,
) -> Result<Taken, Hitch>
where
    R::File: Send,
    R::Dir: Send,
    ensures { IfOk result (λ taken. (fs : List Frag) × IsTaken midway sieve.entry.topo.now fs taken) }
{
    if workers > 0 && midway.is_none() {
        let groups = groups_of(rt.alloc(), sieve.topo, queue.heads, workers)?;
        if groups.len() > 1 {
            return rows_beside(rt, sieve, queue, &groups, workers, read);
        }
        if are_lanes(sieve.topo, queue.heads, workers) {
            return rows_of_lanes(rt, sieve, queue, workers, read);
        }
    }
    let mut supply = FileSupply::new(rt, sieve, queue, read);
    report_of(
        rt.alloc(),
        sieve.topo,
        midway,
        queue.heads.len(),
        &mut supply,
    )
}

/// What is found in the fragment of a file, which is read and judged in pieces, and forgotten. A hitch where it can't be, and where the
/// capture begins in the middle of a run.
fn taken_in_pieces<R: Files + AllocGlobal, G: Gauge>(
    rt: &R,
    sieve: Sieve<'_>,
    path: &str,
    midway: Option<Midway>,
    read: &mut FilesRead<'_, G>,
) -> Result<Taken, Hitch>
    ensures { IfOk result (λ taken. (fs : List Frag) × IsTaken midway sieve.entry.topo.now fs taken) }
{
    match midway {
        None => {
            let mut pieces = FilePieces::open(rt, path, sieve)?;
            let taken = report_of_pieces(rt.alloc(), sieve.topo, &mut pieces)?;
            read.count(bytes_of(rt, path));
            Ok(taken)
        }
        Some(_) => Err(Hitch::Fault),
    }
}

/// The same of files, in an order in which few fragments are held. A hitch where there is no such order.
fn taken_in_turn<R: Files + Threads + Sync + AllocGlobal, G: Gauge>(
    rt: &R,
    sieve: Sieve<'_>,
    files: &[String],
    how: How,
    read: &mut FilesRead<'_, G>,
) -> Result<Taken, Hitch>
where
    R::File: Send,
    R::Dir: Send,
    ensures { IfOk result (λ taken. (fs : List Frag) × IsTaken how.midway sieve.entry.topo.now fs taken) }
{
    match in_turn(rt, sieve.topo, files)? {
        Some(heads) => taken_of(
            rt,
            sieve,
            Queue::new(files, &heads),
            how.midway,
            how.workers,
            read,
        ),
        None => Err(Hitch::Fault),
    }
}

/// What is found in the fragments of the files that words stand for, of a whole run or of a capture that begins so, which are read in an
/// order in which few are held, and judged by so many threads beside this one; a file by itself is read in pieces. None where they have to
/// be held together: where a file can't be read again or has a fault, fragments don't rise, some links of a capture from the middle of a
/// run have caches and others none, or such a capture is one file.
pub fn report_in_turn<R: Files + Threads + Sync + AllocGlobal + Clone + Drop, G: Gauge>(
    rt: &R,
    sieve: Sieve<'_>,
    words: &[&str],
    how: How,
    gauge: &mut G,
) -> Result<Option<Taken>, Fault>
where
    R::File: Send,
    R::Dir: Send,
    ensures { IfOk result (λ found. IfSome found (λ taken. (fs : List Frag) × IsTaken how.midway sieve.entry.topo.now fs taken)) }
{
    let (files, fault) = listed(rt, words)?;
    let is_fit = fault.is_none() && !files.is_empty() && files.len() <= MOST_EDITS;
    if !is_fit || !are_files(rt, &files) {
        return Ok(None);
    }
    let mut read = FilesRead::none_of(files.len(), gauge);
    let taken = if files.len() == 1 {
        taken_in_pieces(rt, sieve, files[0].as_str(), how.midway, &mut read)
    } else {
        taken_in_turn(rt, sieve, &files, how, &mut read)
    };
    match taken {
        Ok(taken) => Ok(Some(taken)),
        Err(Hitch::Memory) => Err(Fault::MEMORY),
        Err(Hitch::Fault) => Ok(None),
    }
}
