//! A monitor of a test's own: a Budget that counts how often it is called.

use std::alloc::{AllocError, Global};
use std::sync::atomic::{AtomicU64, Ordering};
use std::sync::{Arc, OnceLock};
use tl_beats::{Beat, Class, Watch};
use tl_monitor::{Budget, Monitor, Settlement};
use tl_tables::Chan;
use tl_topology::Name;

/// Gets.
pub(crate) const GET: Class = Class {
    chan: Chan::A,
    opcode: 4,
};

/// How often monitors were called.
#[derive(Drop)]
pub(crate) struct Counts {
    /// With a beat.
    pub(crate) beats: AtomicU64,
    /// With the edit that ends it.
    pub(crate) ends: AtomicU64,
}

/// How often the monitors of a desk were called, by all of them.
pub(crate) type Calls = Arc<Counts>;

/// A Budget that counts its calls.
#[derive(Drop)]
pub(crate) struct Counting {
    inner: Budget,
    calls: Calls,
}

/// No calls; None where memory is refused.
pub(crate) fn no_calls(alloc: Global) -> Option<Calls> {
    let none = Counts {
        beats: AtomicU64::new(0),
        ends: AtomicU64::new(0),
    };
    match Arc::new(alloc, none) {
        Ok(calls) => Some(calls),
        Err(_) => None,
    }
}

impl Counting {
    /// A monitor that lets so many Gets of a link through, and counts its calls by these counters.
    pub(crate) fn new(
        alloc: Global,
        link: Name,
        limit: u32,
        calls: &Calls,
    ) -> Result<Counting, AllocError> {
        let cell = Arc::new(alloc, OnceLock::new())?;
        Ok(Counting {
            inner: Budget::new(link, GET, limit, cell),
            calls: Arc::try_clone(calls)?,
        })
    }
}

impl Monitor for Counting {
    ghost held = { λ m. ⟦<Budget as Monitor>⟧.held m.inner };

    fn watch(&self) -> Watch {
        self.inner.watch()
    }

    fn tally(&self) -> u32 {
        self.inner.tally()
    }

    fn settlement(&self) -> Settlement {
        self.inner.settlement()
    }

    fn restart(&mut self, tally: u32) {
        self.inner.restart(tally)
    }

    fn see(&mut self, beat: &Beat) -> bool {
        self.calls.beats.fetch_add(1, Ordering::SeqCst);
        self.inner.see(beat)
    }

    fn retune(&mut self, limit: u32) {
        self.inner.retune(limit)
    }

    fn close(&mut self, edit: u64) {
        self.calls.ends.fetch_add(1, Ordering::SeqCst);
        self.inner.close(edit)
    }
}
