//! The monitor that lets none through after another.

ghost use Rattle.std.specs.Prelude.{◌≡◌};
ghost use Rattle.tl_beats.specs.declared.watch.Watch.TheVariants as watch;

use crate::monitor::{Monitor, Settlement};
use std::sync::{Arc, OnceLock};
use tl_beats::{Beat, Class, Watch};
use tl_topology::Name;

/// Flags each beat of its second class that comes after one of its first.
pub struct After {
    link: Name,
    first: Class,
    second: Class,
    begun: bool,
    closed_at: u64,
    cell: Arc<OnceLock<Settlement>>,
}

impl After {
    /// A monitor that has seen nothing. Its drop leaves its settlement in the cell, if that is empty.
    pub fn new(link: Name, first: Class, second: Class, cell: Arc<OnceLock<Settlement>>) -> After
        ensures { ⟦<After as Monitor>⟧.held result ≡ record { watch = watch.After link first second; tally = 0; closed_at = 0 } }
    {
        After {
            link,
            first,
            second,
            begun: false,
            closed_at: 0,
            cell,
        }
    }
}

impl Drop for After {
    fn drop(self) {
        let settlement = self.settlement();
        let After {
            link: _,
            first: _,
            second: _,
            begun: _,
            closed_at: _,
            cell,
        } = self;
        let _ = cell.try_set(settlement);
    }
}

impl Monitor for After {
    ghost use Rattle.std.specs.Prelude.{if◌then◌else◌};

    ghost held = { λ m. record { watch = watch.After m.link m.first m.second; tally = if m.begun then 1 else 0; closed_at = m.closed_at } };

    fn watch(&self) -> Watch {
        Watch::After {
            link: self.link,
            first: self.first,
            second: self.second,
        }
    }

    fn tally(&self) -> u32 {
        u32::from(self.begun)
    }

    fn settlement(&self) -> Settlement {
        Settlement {
            watch: self.watch(),
            closed_at: self.closed_at,
        }
    }

    fn restart(&mut self, tally: u32) {
        self.begun = tally > 0;
    }

    fn see(&mut self, beat: &Beat) -> bool {
        let flagged = self.begun && self.second.matches(beat);
        self.begun = self.begun || self.first.matches(beat);
        flagged
    }

    fn retune(&mut self, _limit: u32) {}

    fn close(&mut self, edit: u64) {
        self.closed_at = edit;
    }
}
