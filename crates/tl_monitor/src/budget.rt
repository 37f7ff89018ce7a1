//! The monitor that lets so many beats through.

ghost use Rattle.std.specs.Prelude.{◌≡◌, ◌<◌};
ghost use Rattle.tl_beats.specs.declared.watch.Watch.TheVariants as watch;

use crate::monitor::{Monitor, Settlement};
use std::sync::{Arc, OnceLock};
use tl_beats::{Beat, Class, Watch};
use tl_topology::Name;

/// Flags each beat of its class that comes after at least `limit` others of it.
pub struct Budget {
    link: Name,
    class: Class,
    limit: u32,
    seen: u32,
    closed_at: u64,
    cell: Arc<OnceLock<Settlement>>,
    ghost fits: { limit < 4294967296 },
}

impl Budget {
    /// A monitor that has seen nothing. Its drop leaves its settlement in the cell, if that is empty.
    pub fn new(link: Name, class: Class, limit: u32, cell: Arc<OnceLock<Settlement>>) -> Budget
        ensures { ⟦<Budget as Monitor>⟧.held result ≡ record { watch = watch.Budget link class limit; tally = 0; closed_at = 0 } }
    {
        Budget {
            link,
            class,
            limit,
            seen: 0,
            closed_at: 0,
            cell,
        }
    }
}

impl Drop for Budget {
    fn drop(self) {
        let settlement = self.settlement();
        let Budget {
            link: _,
            class: _,
            limit: _,
            seen: _,
            closed_at: _,
            cell,
        } = self;
        let _ = cell.try_set(settlement);
    }
}

impl Monitor for Budget {
    ghost held = { λ m. record { watch = watch.Budget m.link m.class m.limit; tally = m.seen; closed_at = m.closed_at } };

    fn watch(&self) -> Watch {
        Watch::Budget {
            link: self.link,
            class: self.class,
            limit: self.limit,
        }
    }

    fn tally(&self) -> u32 {
        self.seen
    }

    fn settlement(&self) -> Settlement {
        Settlement {
            watch: self.watch(),
            closed_at: self.closed_at,
        }
    }

    fn restart(&mut self, tally: u32) {
        self.seen = tally;
    }

    fn see(&mut self, beat: &Beat) -> bool {
        let matched = self.class.matches(beat);
        let flagged = matched && self.limit <= self.seen;
        if matched {
            self.seen = self.seen.saturating_add(1);
        }
        flagged
    }

    fn retune(&mut self, limit: u32) {
        self.limit = limit;
    }

    fn close(&mut self, edit: u64) {
        self.closed_at = edit;
    }
}
