//! Windows of monitors that are to be checked, apart from the log and the windows that they come from.

ghost use Rattle.std.specs.Prelude.{◌≡◌, IfOk, OnOk};
ghost use Rattle.std.specs.Arc.{arc_value};
ghost use Rattle.std.specs.Bool.{Decides};
ghost use Rattle.tl_pieces.specs.Marks.{pass_of};
ghost use Rattle.tl_check.specs.Captured.{watched_beats};
ghost use Rattle.tl_board.specs.WatchTasks.{AreWatched, IsAmid, IsTallyOf, IsWatchWindow, IsWatchTask, IsWatchPassOf, IsWatchCurrent, SameButTally, LeavesTally, with_monitor, without_monitor};
ghost use Rattle.tl_capture.specs.Windows.{beats_in};

use crate::Rows;
use crate::present::kept;
use crate::same_watch::is_watch;
use crate::tally::Tally;
use std::alloc::{AllocError, Global};
use std::marker::Model;
use std::sync::Arc;
use tl_beats::Watch;
use tl_capture::{Present, WindowBeats};
use tl_monitor::{Monitor, Watched, monitor_check};
use tl_pieces::Stored;
use tl_topology::Topo;

/// A window of a monitor with all that its check asks but the monitor itself, which comes last, when no memory is asked any more.
/// The tally that it is checked from may be a guess: the result is true of it whatever it is.
#[derive(Drop)]
pub struct WatchWindow {
    number: u32,
    window: u64,
    watch: Watch,
    beats: WindowBeats,
    entry: Arc<Tally>,
}

impl Model for WatchWindow {
    ghost use Rattle.std.specs.Arc.{arc_value};
    ghost use Rattle.tl_board.specs.WatchTasks.{WatchWindowData, IsWatchWindow};

    ghost Value = { WatchWindowData };

    ghost view = { λ t. record { number = t.number; window = t.window; watch = t.watch; beats = t.beats; entry = arc_value t.entry } };

    ghost invariant = { λ t. IsWatchWindow (record { number = t.number; window = t.window; watch = t.watch; beats = t.beats; entry = arc_value t.entry }) };
}

impl WatchWindow {
    /// The window of a monitor with the beats that are present there on the link that its watch names, shared and not copied, and
    /// this entry, which is a tally of the watch. Where the topology has no such link there are no beats. AllocError where memory
    /// is refused.
    pub fn new(
        alloc: Global,
        number: u32,
        window: u64,
        watch: Watch,
        topo: &Topo,
        present: &Present,
        entry: &Arc<Tally>,
    ) -> Result<WatchWindow, AllocError>
        requires { IsTallyOf watch (arc_value entry.now) }
        ensures { IfOk result (λ task. task ≡ record {
          number = number;
          window = window;
          watch = watch;
          beats = beats_in window (watched_beats topo.now present.now watch);
          entry = arc_value entry.now;
        }) }
    {
        Ok(WatchWindow {
            number,
            window,
            watch,
            beats: watched(alloc, topo, present, &watch, window)?,
            entry: Arc::try_clone(entry)?,
        })
    }

    /// The number of the monitor.
    pub fn number(&self) -> u32
        ensures exact { result ≡ self.now.number }
        ensures kept { IsWatchWindow self.now }
    {
        self.number
    }

    /// The window.
    pub fn window(&self) -> u64
        ensures { result ≡ self.now.window }
    {
        self.window
    }

    /// The watch of the monitor.
    pub fn watch(&self) -> Watch
        ensures { result ≡ self.now.watch }
    {
        self.watch
    }

    /// The window with its monitor, which has its watch. It takes no memory.
    pub fn for_monitor<M: Monitor>(self, monitor: Watched<M>) -> WatchTask<M>
        requires { monitor.watch ≡ self.watch }
        ensures { result ≡ with_monitor self monitor }
    {
        // That its watch, its entry and its beats fit together.
        let _ = &self.beats;
        WatchTask {
            window: self,
            monitor,
        }
    }

    /// The pass of its beats by the watch of a monitor, which has its watch, from its entry. AllocError where memory is refused. In
    /// both cases the monitor stays the same but for its tally, which is then that after some first beats of the window (all of
    /// them where it was checked), or was not touched.
    pub fn check<M: Monitor>(
        &self,
        alloc: Global,
        monitor: &mut Watched<M>,
    ) -> Result<Stored<Tally, Rows>, AllocError>
        requires { monitor.old.watch ≡ self.now.watch }
        ensures pass { IfOk result (λ stored. IsWatchPassOf (with_monitor self.now monitor.old) (pass_of stored)) }
        ensures entry { IfOk result (λ stored. arc_value stored.entry ≡ self.now.entry) }
        ensures held { monitor.new ≡ record monitor.old { tally = monitor.new.tally } }
        ensures behind { OnOk result (IsAmid self.now.number monitor.old.watch self.now.entry self.now.beats monitor.new.tally) }
        ensures left { LeavesTally (with_monitor self.now monitor.old) monitor.new.tally }
    {
        let beats = self.beats.gathered(alloc)?;
        let entry = Arc::try_clone(&self.entry)?;
        let checked = monitor_check(alloc, self.number, monitor, entry.count, &beats)?;
        let exit = Tally {
            count: checked.tally,
        };
        Ok(Stored {
            entry,
            exit: Arc::new(alloc, exit)?,
            rows: Rows::new(checked.rows),
        })
    }
}

/// A window of a monitor that is to be checked, with all that its check asks, the monitor itself among it: it needs nothing else,
/// and may go to another thread.
#[derive(Drop)]
pub struct WatchTask<M: Monitor> {
    window: WatchWindow,
    monitor: Watched<M>,
}

impl<M: Monitor> Model for WatchTask<M> {
    ghost use Rattle.std.specs.Prelude.{◌≡◌};
    ghost use Rattle.tl_board.specs.WatchTasks.{WatchTaskData, IsWatchTask, with_monitor};

    ghost Value = { WatchTaskData };

    ghost view = { λ t. with_monitor t.window t.monitor };

    ghost invariant = { λ t. IsWatchTask (with_monitor t.window t.monitor) × (t.monitor.watch ≡ t.window.watch) };
}

impl<M: Monitor> WatchTask<M> {
    /// The number of the monitor.
    pub fn number(&self) -> u32
        ensures exact { result ≡ self.now.number }
        ensures kept { IsWatchTask self.now }
    {
        self.window.number()
    }

    /// The window.
    pub fn window(&self) -> u64
        ensures { result ≡ self.now.window }
    {
        self.window.window()
    }

    /// The watch of its monitor.
    pub fn watch(&self) -> Watch
        ensures { result ≡ self.now.held.watch }
    {
        self.monitor.watch()
    }

    /// The monitor alone.
    pub fn into_monitor(self) -> Watched<M>
        ensures { result ≡ self.held }
    {
        let WatchTask { window: _, monitor } = self;
        monitor
    }

    /// The window without its monitor, and the monitor. It takes no memory.
    pub fn into_parts(self) -> (WatchWindow, Watched<M>)
        ensures window { result.0 ≡ without_monitor self }
        ensures monitor { result.1 ≡ self.held }
    {
        let WatchTask { window, monitor } = self;
        (window, monitor)
    }

    /// The pass of its beats by the watch of its monitor, from its entry. AllocError where memory is refused. In both cases the task
    /// stays the same but for the tally of its monitor, which is then that after some first beats of it, or was not touched.
    pub fn check(&mut self, alloc: Global) -> Result<Stored<Tally, Rows>, AllocError>
        ensures pass { IfOk result (λ stored. IsWatchPassOf self.old (pass_of stored)) }
        ensures entry { IfOk result (λ stored. arc_value stored.entry ≡ self.old.entry) }
        ensures rest { SameButTally self.old self.new }
        ensures left { LeavesTally self.old self.new.held.tally }
    {
        self.window.check(alloc, &mut self.monitor)
    }

    /// Whether what it was made of is what stands: this is its monitor's watch, and its beats are those that lie in its window on
    /// the link that the watch names. It takes no memory, and costs a comparison for each beat.
    pub fn is_current(&self, topo: &Topo, present: &Present, watch: &Watch) -> bool
        ensures { Decides result (IsWatchCurrent topo.now present.now watch.now self.now) }
    {
        is_watch(&self.monitor.watch(), watch)
            && has_watched(topo, present, watch, &self.window.beats, self.window.window)
    }
}

/// The beats of a window of the link that a watch names, shared and not copied; none where the topology has no such link.
fn watched(
    alloc: Global,
    topo: &Topo,
    present: &Present,
    watch: &Watch,
    window: u64,
) -> Result<WindowBeats, AllocError>
    ensures exact { IfOk result (λ beats. beats ≡ beats_in window (watched_beats topo.now present.now watch.now)) }
    ensures kept { IfOk result AreWatched }
{
    let Some(link) = topo.link_of(&watch.link()) else {
        let beats = present.window_beats(alloc, window, &[])?;
        return Ok(beats);
    };
    let beats = kept(present).window_beats(alloc, window, &[link])?;
    Ok(beats)
}

/// Whether these are the beats of a window of the link that a watch names.
fn has_watched(
    topo: &Topo,
    present: &Present,
    watch: &Watch,
    beats: &WindowBeats,
    window: u64,
) -> bool
    ensures { Decides result (beats.now ≡ beats_in window (watched_beats topo.now present.now watch.now)) }
{
    match topo.link_of(&watch.link()) {
        Some(link) => kept(present).has_beats(beats, window, &[link]),
        None => beats.is_empty(),
    }
}
