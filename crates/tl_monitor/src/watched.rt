//! A monitor as what it holds.

ghost use Rattle.std.specs.Prelude.{◌≡◌};
ghost use Rattle.tl_definitions.specs.Watching.{retuned, IsWatch};
ghost use Rattle.tl_definitions.specs.Tallies.{flags_at, tally_with, kept_tally};

use crate::monitor::{Monitor, Settlement};
use std::marker::Model;
use tl_beats::{Beat, Watch};

/// A monitor that contracts see as what it holds: its watch, its tally, and the edit that closed it. What owns monitors owns
/// them so, and knows nothing of their type.
#[derive(Drop)]
pub struct Watched<M: Monitor> {
    monitor: M,
}

impl<M: Monitor> Model for Watched<M> {
    ghost use Rattle.tl_monitor.specs.Held.{Held};

    ghost Value = { Held };

    ghost view = { λ s. M.held s.monitor };
}

impl<M: Monitor> Watched<M> {
    /// The monitor, seen so.
    pub fn new(monitor: M) -> Watched<M>
        ensures { result ≡ M.held monitor }
    {
        Watched { monitor }
    }

    /// The monitor itself.
    pub fn into_inner(self) -> M
        ensures { M.held result ≡ self }
    {
        let Watched { monitor } = self;
        monitor
    }

    /// Its watch, as it is now.
    pub fn watch(&self) -> Watch
        ensures watch { result ≡ self.now.watch }
        ensures fits { IsWatch self.now.watch }
    {
        self.monitor.watch()
    }

    /// Its tally.
    pub fn tally(&self) -> u32
        ensures { result ≡ self.now.tally }
    {
        self.monitor.tally()
    }

    /// What it would tell if it ended now.
    pub fn settlement(&self) -> Settlement
        ensures watch { result.watch ≡ self.now.watch }
        ensures closed_at { result.closed_at ≡ self.now.closed_at }
    {
        self.monitor.settlement()
    }

    /// Sets the tally; for an After any tally above 0 is 1.
    pub fn restart(&mut self, tally: u32)
        ensures { self.new ≡ record self.old { tally = kept_tally self.old.watch tally } }
    {
        self.monitor.restart(tally)
    }

    /// Whether the watch flags the beat; the tally then counts it.
    pub fn see(&mut self, beat: &Beat) -> bool
        ensures verdict { result ≡ flags_at self.old.watch self.old.tally beat.now }
        ensures counts { self.new ≡ record self.old { tally = tally_with self.old.watch self.old.tally beat.now } }
    {
        self.monitor.see(beat)
    }

    /// Gives a Budget another limit; an After has none.
    pub fn retune(&mut self, limit: u32)
        ensures { self.new ≡ record self.old { watch = retuned self.old.watch limit } }
    {
        self.monitor.retune(limit)
    }

    /// Keeps the number of the edit that ends it.
    pub fn close(&mut self, edit: u64)
        ensures { self.new ≡ record self.old { closed_at = edit } }
    {
        self.monitor.close(edit)
    }
}
