//! The watch of a monitor over the beats of its link as they come.

ghost use Rattle.std.specs.Prelude.{◌≡◌, ◌∷◌, [], IfOk, OnErr};
ghost use Rattle.std.specs.Arc.{arc_value};
ghost use Rattle.std.specs.List.Sorted.{IsStrictlySortedBy};
ghost use Rattle.tl_definitions.specs.Positions.{beats_of, position_order};
ghost use Rattle.tl_definitions.specs.Tallies.{AreOfOneLink};
ghost use Rattle.tl_monitor.specs.Held.{WatchFinds};
ghost use Rattle.tl_capture.specs.Present.{recorded};
ghost use Rattle.tl_stream.specs.Lookouts.{IsLookedOut};

use std::alloc::{AllocError, Global};
use std::sync::{Arc, OnceLock};
use tl_beats::{Fragment, Placed, Row, Watch};
use tl_capture::Present;
use tl_monitor::{After, Budget, Checked, Monitor, Watched, monitor_check};

/// A watch with the number of its monitor, and the tally of the beats that came.
#[derive(Clone, Copy, Debug, PartialEq, Eq)]
pub struct Lookout {
    /// The number of the monitor.
    pub number: u32,
    /// What it watches.
    pub watch: Watch,
    /// The tally of the beats that came.
    pub tally: u32,
}

/// What a monitor finds in these beats, from a tally on.
fn found_by<M: Monitor>(
    alloc: Global,
    number: u32,
    monitor: M,
    tally: u32,
    beats: &[Placed],
) -> Result<Checked, AllocError>
    requires link { AreOfOneLink beats.now }
    requires rises { IsStrictlySortedBy position_order beats.now }
    ensures { IfOk result (λ checked. WatchFinds number (M.held monitor).watch tally beats.now checked.tally checked.rows.items) }
{
    let mut watched = Watched::new(monitor);
    monitor_check(alloc, number, &mut watched, tally, beats)
}

/// What a watch finds in these beats, from its tally on.
fn found(alloc: Global, lookout: &Lookout, beats: &[Placed]) -> Result<Checked, AllocError>
    requires link { AreOfOneLink beats.now }
    requires rises { IsStrictlySortedBy position_order beats.now }
    ensures { IfOk result (λ checked. WatchFinds lookout.now.number lookout.now.watch lookout.now.tally beats.now checked.tally checked.rows.items) }
{
    let cell = Arc::new(alloc, OnceLock::new())?;
    match lookout.watch {
        Watch::Budget { link, class, limit } => {
            let monitor = Budget::new(link, class, limit, cell);
            found_by(alloc, lookout.number, monitor, lookout.tally, beats)
        }
        Watch::After {
            link,
            first,
            second,
        } => {
            let monitor = After::new(link, first, second, cell);
            found_by(alloc, lookout.number, monitor, lookout.tally, beats)
        }
    }
}

/// The beats of a fragment of this link.
pub(crate) fn placed(
    alloc: Global,
    link: u16,
    fragment: &Arc<Fragment>,
) -> Result<Vec<Placed>, AllocError>
    ensures exact { IfOk result (λ beats. beats.items ≡ beats_of link (recorded link (arc_value fragment.now) ∷ [])) }
    ensures link { IfOk result (λ beats. AreOfOneLink beats.items) }
    ensures rises { IfOk result (λ beats. IsStrictlySortedBy position_order beats.items) }
{
    let mut present = Present::new(alloc);
    present.put(link, Arc::try_clone(fragment)?)?;
    // Of what is there each number and each cycle is one fragment's.
    let _ = present.is_empty();
    present.link_beats(alloc, link)
}

impl Lookout {
    /// That of a monitor that has seen no beat.
    pub fn new(number: u32, watch: Watch) -> Lookout
        ensures { result ≡ record { number = number; watch = watch; tally = 0 } }
    {
        Lookout {
            number,
            watch,
            tally: 0,
        }
    }

    /// Judges the next beats of its link, and answers the rows of those that its watch flags, in their order. AllocError, with
    /// nothing changed, where memory is refused.
    pub fn judge(&mut self, alloc: Global, beats: &[Placed]) -> Result<Vec<Row>, AllocError>
        requires link { AreOfOneLink beats.now }
        requires rises { IsStrictlySortedBy position_order beats.now }
        ensures ok { IfOk result (λ rows. IsLookedOut self.old beats.now self.new rows.items) }
        ensures err { OnErr result (self.new ≡ self.old) }
    {
        let checked = found(alloc, self, beats)?;
        self.tally = checked.tally;
        Ok(checked.rows)
    }
}
