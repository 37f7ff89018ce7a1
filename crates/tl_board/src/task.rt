//! Windows of managers.

ghost use Rattle.std.specs.Prelude.{◌≡◌, ◌<◌, length, IfOk};
ghost use Rattle.std.specs.Arc.{arc_value};
ghost use Rattle.tl_topology.specs.Regions.{areas_of};
ghost use Rattle.tl_definitions.specs.Managers.{manager_at};
ghost use Rattle.tl_pieces.specs.Marks.{pass_of};
ghost use Rattle.tl_check.specs.Jobs.{Judges};
ghost use Rattle.tl_check.specs.States.{IsOf, SameSpan};
ghost use Rattle.tl_board.specs.Tasks.{IsPassOf, HasNumbers, manager_of, task_for};

use crate::apart::{beats_apart, check_apart};
use crate::rows::Rows;
use std::alloc::{AllocError, Global};
use std::marker::Model;
use std::sync::Arc;
use tl_beats::Row;
use tl_capture::{Present, WindowBeats};
use tl_check::{SpanState, check_window};
use tl_client_rules::clients_of;
use tl_pieces::Stored;
use tl_topology::{RegionMap, Topo};

/// A window of a manager that is to be checked, with all that its check asks: it needs nothing else, and may go to another
/// thread. The state that it is checked from may be a guess: the result is true of it whatever it is.
#[derive(Drop)]
pub struct SpanTask {
    pub(crate) topo: Arc<Topo>,
    pub(crate) manager: u16,
    pub(crate) window: u64,
    pub(crate) regions: RegionMap,
    // The links of the manager.
    pub(crate) links: Vec<u16>,
    pub(crate) beats: WindowBeats,
    // Those of each link, where none has caches and they are few; else none.
    pub(crate) apart: Vec<WindowBeats>,
    pub(crate) entry: Arc<SpanState>,
}

impl Model for SpanTask {
    ghost use Rattle.std.specs.Coded.{codes};
    ghost use Rattle.std.specs.Arc.{arc_value};
    ghost use Rattle.std.specs.Prelude.{◌≡◌};
    ghost use Rattle.tl_definitions.specs.Managers.{declared_links};
    ghost use Rattle.tl_definitions.specs.Positions.{clients_of as clients};
    ghost use Rattle.tl_check.specs.contracts.state.SpanState as state;
    ghost use Rattle.tl_board.specs.Apart.{AreApart};
    ghost use Rattle.tl_board.specs.Tasks.{TaskData, IsTask};

    ghost Value = { TaskData };

    ghost coded = { Prim.hlevel (codes, state.the_row.coded) };

    ghost view = { λ t. record { topo = arc_value t.topo; owner = t.manager; window = t.window; regions = t.regions; beats = t.beats; entry = arc_value t.entry } };

    ghost invariant = { λ t. IsTask (record { topo = arc_value t.topo; owner = t.manager; window = t.window; regions = t.regions; beats = t.beats; entry = arc_value t.entry })
        × (t.links.items ≡ clients t.manager (declared_links (arc_value t.topo)))
        × AreApart (arc_value t.topo) t.links.items t.beats t.apart.items };
}

impl SpanTask {
    ghost use Rattle.tl_board.specs.Tasks.{IsTask};

    /// The window of a manager with the beats that are present there, shared and not copied, these regions and this entry, which
    /// is a state of the manager. AllocError where memory is refused.
    pub fn new(
        alloc: Global,
        topo: &Arc<Topo>,
        manager: u16,
        regions: &RegionMap,
        present: &Present,
        window: u64,
        entry: &Arc<SpanState>,
    ) -> Result<SpanTask, AllocError>
        requires manager { manager < length (arc_value topo.now).managers }
        requires entry { IsOf (manager_at (arc_value topo.now) manager (areas_of regions.now)) (arc_value entry.now) }
        requires numbers { HasNumbers regions.now }
        ensures { IfOk result (λ task. task ≡ task_for (arc_value topo.now) manager regions.now present.now window (arc_value entry.now)) }
    {
        let links = clients_of(alloc, topo, manager)?;
        Ok(SpanTask {
            topo: Arc::try_clone(topo)?,
            manager,
            window,
            regions: regions.copy()?,
            beats: present.window_beats(alloc, window, &links)?,
            apart: beats_apart(alloc, topo, present, window, &links)?,
            links,
            entry: Arc::try_clone(entry)?,
        })
    }

    /// The number of the manager.
    pub fn manager(&self) -> u16
        ensures exact { result ≡ self.now.owner }
        ensures kept { IsTask self.now }
    {
        self.manager
    }

    /// The window.
    pub fn window(&self) -> u64
        ensures { result ≡ self.now.window }
    {
        self.window
    }

    /// The rows of what its beats break, judged by a state that shows what its entry shows, and that goes on after them: link by link, where
    /// its manager has no caches. AllocError where memory is refused: then the state is for nothing more.
    fn judged(&self, alloc: Global, state: &mut SpanState) -> Result<Vec<Row>, AllocError>
        requires { SameSpan self.now.entry state.old }
        ensures { IfOk result (λ rows. Judges (manager_of self.now) state.old self.now.beats state.new rows.items) }
    {
        let (topo, regions) = (&self.topo, &self.regions);
        if self.apart.is_empty() {
            let walk = self.beats.walk(alloc)?;
            return check_window(alloc, topo, self.manager, regions, walk, state);
        }
        check_apart(alloc, topo, self.manager, regions, &self.apart, state)
    }

    /// A state that shows what its entry shows. AllocError where memory is refused.
    pub(crate) fn begin(&self, alloc: Global) -> Result<SpanState, AllocError>
        ensures { IfOk result (SameSpan self.now.entry) }
    {
        self.entry.copy(alloc)
    }

    /// The pass of its beats by a state that shows what its entry shows, and that goes on after them: it then shows what the pass leaves. What
    /// is kept of that is settled, so that the states of windows share what is held. AllocError where memory is refused: then the state is
    /// for nothing more.
    pub(crate) fn check_on(
        &self,
        alloc: Global,
        state: &mut SpanState,
    ) -> Result<Stored<SpanState, Rows>, AllocError>
        requires { SameSpan self.now.entry state.old }
        ensures pass { IfOk result (λ stored. IsPassOf self.now (pass_of stored)) }
        ensures entry { IfOk result (λ stored. arc_value stored.entry ≡ self.now.entry) }
        ensures left { IfOk result (λ stored. SameSpan (arc_value stored.exit) state.new) }
    {
        let rows = self.judged(alloc, state)?;
        state.settle()?;
        // A copy takes no more memory than what it shows.
        let kept = state.copy(alloc)?;
        Ok(Stored {
            entry: Arc::try_clone(&self.entry)?,
            exit: Arc::new(alloc, kept)?,
            rows: Rows::new(rows),
        })
    }

    /// The pass of its beats from its entry. What it leaves is settled, so that the states of windows share what is held.
    /// AllocError where memory is refused.
    pub fn check(&self, alloc: Global) -> Result<Stored<SpanState, Rows>, AllocError>
        ensures pass { IfOk result (λ stored. IsPassOf self.now (pass_of stored)) }
        ensures entry { IfOk result (λ stored. arc_value stored.entry ≡ self.now.entry) }
    {
        let mut state = self.begin(alloc)?;
        let stored = self.check_on(alloc, &mut state)?;
        Ok(stored)
    }
}
