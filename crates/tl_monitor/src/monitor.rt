//! What every monitor does.

ghost use Rattle.std.specs.Prelude.{◌≡◌, ℕ};
ghost use Rattle.tl_definitions.specs.Watching.{retuned, IsWatch};
ghost use Rattle.tl_definitions.specs.Tallies.{flags_at, tally_with, kept_tally};
ghost use Rattle.tl_monitor.specs.Held.{Held};

use tl_beats::{Beat, Watch};

/// What a monitor tells at its end.
#[derive(Clone, Copy, Debug, PartialEq, Eq)]
pub struct Settlement {
    /// The watch that it held last.
    pub watch: Watch,
    /// The number of the edit that closed it, from 1 on; 0 if none did.
    pub closed_at: u64,
}

/// A watch with its tally, run over the beats of its link. A monitor of a user's own keeps the verdicts of its watch, and may
/// keep more beside them. No call takes memory. What it tells at its end is left by its drop: `Budget` and `After` leave their
/// settlement in a cell that they share with their maker.
pub trait Monitor: Drop {
    /// What it holds, whatever it keeps beside it.
    ghost held: { Self → Held };

    /// The watch, as it is now.
    fn watch(&self) -> Watch
        ensures watch { result ≡ (held self.now).watch }
        ensures fits { IsWatch (held self.now).watch };

    /// Of a Budget how many beats of its class were seen, at most 4,294,967,295; of an After 1 once a beat of its first class
    /// was seen, else 0.
    fn tally(&self) -> u32
        ensures { result ≡ (held self.now).tally };

    /// What it would tell if it ended now.
    fn settlement(&self) -> Settlement
        ensures watch { result.watch ≡ (held self.now).watch }
        ensures closed_at { result.closed_at ≡ (held self.now).closed_at };

    /// Sets the tally, as if other beats had been seen; for an After any tally above 0 is 1.
    fn restart(&mut self, tally: u32)
        ensures { held self.new ≡ record (held self.old) { tally = kept_tally (held self.old).watch tally } };

    /// Whether the watch flags the beat, by the tally of the beats before it; the tally then counts the beat.
    fn see(&mut self, beat: &Beat) -> bool
        ensures verdict { result ≡ flags_at (held self.old).watch (held self.old).tally beat.now }
        ensures counts { held self.new ≡ record (held self.old) { tally = tally_with (held self.old).watch (held self.old).tally beat.now } };

    /// Gives a Budget another limit, which holds for all beats, and leaves its tally; an After has no limit.
    fn retune(&mut self, limit: u32)
        ensures { held self.new ≡ record (held self.old) { watch = retuned (held self.old).watch limit } };

    /// Keeps the number of the edit that ends it.
    fn close(&mut self, edit: u64)
        ensures { held self.new ≡ record (held self.old) { closed_at = edit } };
}
