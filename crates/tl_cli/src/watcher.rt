//! A monitor of any watch.

ghost use Rattle.std.specs.Prelude.{◌≡◌};
ghost use Rattle.tl_beats.specs.declared.watch.Watch.TheVariants as watch;
ghost use Rattle.tl_definitions.specs.Watching.{retuned, IsWatch};

use std::sync::{Arc, OnceLock};
use tl_beats::{Beat, Class, Watch};
use tl_monitor::{Monitor, Settlement};
use tl_topology::Name;

/// A monitor of either kind of watch, which leaves in a cell what it tells at its end. A run whose monitors are made as commands
/// attach them has one type of monitor, and a box that hides it would hide what it promises.
pub(crate) struct Watcher {
    watch: Watch,
    tally: u32,
    closed_at: u64,
    cell: Arc<OnceLock<Settlement>>,
}

/// A watch that lets so many beats of a class through.
fn budget(link: Name, class: Class, limit: u32) -> Watch
    ensures exact { result ≡ watch.Budget link class limit }
    ensures fits { IsWatch result }
{
    Watch::Budget { link, class, limit }
}

/// A watch with another limit; an After has none.
fn with_limit(watch: Watch, limit: u32) -> Watch
    ensures { result ≡ retuned watch limit }
{
    match watch {
        Watch::Budget { link, class, .. } => budget(link, class, limit),
        Watch::After {
            link,
            first,
            second,
        } => Watch::After {
            link,
            first,
            second,
        },
    }
}

impl Watcher {
    /// A monitor that has seen nothing. Its drop leaves its settlement in the cell, if that is empty.
    pub(crate) fn new(watch: Watch, cell: Arc<OnceLock<Settlement>>) -> Watcher
        ensures { ⟦<Watcher as Monitor>⟧.held result ≡ record { watch = watch; tally = 0; closed_at = 0 } }
    {
        Watcher {
            watch,
            tally: 0,
            closed_at: 0,
            cell,
        }
    }
}

impl Drop for Watcher {
    fn drop(self) {
        let settlement = self.settlement();
        let Watcher {
            watch: _,
            tally: _,
            closed_at: _,
            cell,
        } = self;
        let _ = cell.try_set(settlement);
    }
}

impl Monitor for Watcher {
    ghost held = { λ m. record { watch = m.watch; tally = m.tally; closed_at = m.closed_at } };

    fn watch(&self) -> Watch {
        match self.watch {
            Watch::Budget { link, class, limit } => budget(link, class, limit),
            Watch::After {
                link,
                first,
                second,
            } => Watch::After {
                link,
                first,
                second,
            },
        }
    }

    fn tally(&self) -> u32 {
        self.tally
    }

    fn settlement(&self) -> Settlement {
        Settlement {
            watch: self.watch(),
            closed_at: self.closed_at,
        }
    }

    fn restart(&mut self, tally: u32) {
        self.tally = match self.watch {
            Watch::Budget { .. } => tally,
            Watch::After { .. } => tally.min(1),
        };
    }

    fn see(&mut self, beat: &Beat) -> bool {
        match self.watch {
            Watch::Budget { class, limit, .. } => {
                let matched = class.matches(beat);
                let flagged = matched && limit <= self.tally;
                if matched {
                    self.tally = self.tally.saturating_add(1);
                }
                flagged
            }
            Watch::After { first, second, .. } => {
                let flagged = second.matches(beat) && 1 <= self.tally;
                if first.matches(beat) {
                    self.tally = 1;
                }
                flagged
            }
        }
    }

    fn retune(&mut self, limit: u32) {
        self.watch = with_limit(self.watch, limit);
    }

    fn close(&mut self, edit: u64) {
        self.closed_at = edit;
    }
}
