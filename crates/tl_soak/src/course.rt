//! How far all threads have come.

use std::sync::atomic::{AtomicBool, AtomicU64, Ordering};
use std::thread::yield_now;
use tl_hall::{Gate, WorkCount};

/// How many editors there are.
pub(crate) const EDITORS: u64 = 2;

/// The windows of this number's multiples as tickets are lost until their tickets are called back.
const LOST: u64 = 2_000;

/// How often a thread looks for what it waits for before it goes on without.
const MOST_LOOKS: u32 = 20_000;

/// What was done on a course.
#[derive(Clone, Copy)]
pub(crate) struct Totals {
    /// How many tickets were called back.
    pub(crate) recalls: u64,
    /// How many windows were checked that were taken in.
    pub(crate) taken: u64,
    /// How many windows were checked that were void.
    pub(crate) void: u64,
}

/// What all threads share beside the hall: how many editors have ended, and whether the reader has; how many windows are lost now,
/// and how many were handed in; the last ticket that was called back, and how many were; how many windows were taken in, and how
/// many were void.
#[derive(Drop)]
pub(crate) struct Course {
    edited: AtomicU64,
    read: AtomicBool,
    lost: AtomicU64,
    handed: AtomicU64,
    last: AtomicU64,
    recalls: AtomicU64,
    taken: AtomicU64,
    void: AtomicU64,
}

impl Course {
    /// One on which nothing was done.
    pub(crate) fn new() -> Course {
        Course {
            edited: AtomicU64::new(0),
            read: AtomicBool::new(false),
            lost: AtomicU64::new(0),
            handed: AtomicU64::new(0),
            last: AtomicU64::new(0),
            recalls: AtomicU64::new(0),
            taken: AtomicU64::new(0),
            void: AtomicU64::new(0),
        }
    }

    /// An editor has ended.
    pub(crate) fn end_editor(&self) {
        self.edited.fetch_add(1, Ordering::SeqCst);
    }

    /// The reader has ended.
    pub(crate) fn end_reader(&self) {
        self.read.store(true, Ordering::SeqCst);
    }

    /// Whether all editors have ended.
    pub(crate) fn is_edited(&self) -> bool {
        self.edited.load(Ordering::SeqCst) >= EDITORS
    }

    /// Whether the reader has ended too, so that workers and their supervisor end.
    pub(crate) fn is_over(&self) -> bool {
        self.is_edited() && self.read.load(Ordering::SeqCst)
    }

    /// A ticket was called back.
    pub(crate) fn note_recall(&self, ticket: u64) {
        self.last.store(ticket, Ordering::SeqCst);
        self.recalls.fetch_add(1, Ordering::SeqCst);
    }

    /// What a worker has done.
    pub(crate) fn note_work(&self, count: WorkCount) {
        self.taken.fetch_add(count.taken, Ordering::SeqCst);
        self.void.fetch_add(count.void, Ordering::SeqCst);
    }

    /// What was counted.
    pub(crate) fn totals(&self) -> Totals {
        Totals {
            recalls: self.recalls.load(Ordering::SeqCst),
            taken: self.taken.load(Ordering::SeqCst),
            void: self.void.load(Ordering::SeqCst),
        }
    }

    /// Waits until this ticket or a later one was called back, or all is over, or it looked too often.
    fn wait_for_recall(&self, ticket: u64) {
        for _ in 0..MOST_LOOKS {
            if self.is_over() || self.last.load(Ordering::SeqCst) >= ticket {
                return;
            }
            yield_now();
        }
    }

    /// How many windows were handed in.
    pub(crate) fn handed(&self) -> u64 {
        self.handed.load(Ordering::SeqCst)
    }

    /// Waits until more windows were handed in than these and none is lost, or it looked too often. So workers keep up with edits, and
    /// a lost window stays as it is until its ticket is called back.
    pub(crate) fn wait_for_work(&self, before: u64) {
        for _ in 0..MOST_LOOKS {
            if self.handed() > before && self.lost.load(Ordering::SeqCst) == 0 {
                return;
            }
            yield_now();
        }
    }
}

impl Gate for Course {
    fn taken(&self, ticket: u64) {
        if ticket % LOST == 0 {
            self.lost.fetch_add(1, Ordering::SeqCst);
            self.wait_for_recall(ticket);
            self.lost.fetch_sub(1, Ordering::SeqCst);
        }
    }

    fn handed_in(&self, _ticket: u64) {
        self.handed.fetch_add(1, Ordering::SeqCst);
    }

    fn go_on(&self) -> bool {
        yield_now();
        !self.is_over()
    }
}
