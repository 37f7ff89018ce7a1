//! What stands after some edits.

ghost use Rattle.std.specs.Prelude.{◌≡◌, ◌<◌, ◌≤◌, ℕ, map, length, slice_get, IfOk, IfSome, IsSome};
ghost use Rattle.std.specs.Arc.{arc_value};
ghost use Rattle.std.specs.List.{All};
ghost use Rattle.std.specs.List.Sorted.{IsStrictlySortedBy};
ghost use Rattle.std.specs.Option.{option_copied};
ghost use Rattle.std.specs.Ordering.{nat_cmp};
ghost use Rattle.tl_definitions.specs.Watching.{IsWatch};
ghost use Rattle.tl_edits.specs.Inputs.{InputData, AreNumbered, blank, watch_at, was_attached, attached};

use std::alloc::{AllocError, Global};
use std::collections::BTreeMap;
use std::marker::Model;
use std::sync::Arc;
use tl_beats::Watch;
use tl_capture::Present;
use tl_topology::{RegionMap, Topo};

/// What a report is the report of: a topology, the fragments on its links, the regions of its managers, and the monitors that
/// are attached. It knows the numbers of monitors that once were attached, too.
#[derive(Drop)]
pub struct Inputs {
    pub(crate) topo: Arc<Topo>,
    pub(crate) present: Present,
    pub(crate) regions: Vec<RegionMap>,
    // Each monitor that was ever attached, with its watch until it is detached.
    pub(crate) monitors: BTreeMap<u32, Option<Watch>>,
}

impl Model for Inputs {
    ghost use Rattle.std.specs.Prelude.{◌≡◌, length};
    ghost use Rattle.std.specs.Arc.{arc_value};
    ghost use Rattle.tl_edits.specs.Inputs.{InputData, AreNumbered};

    ghost Value = { InputData };

    ghost view = { λ i. record { topo = arc_value i.topo; fragments = i.present; regions = i.regions.items; monitors = i.monitors.entries } };

    ghost invariant = { λ i. (length i.regions.items ≡ length (arc_value i.topo).managers) × AreNumbered i.regions.items };
}

impl Inputs {
    /// A topology without fragments, regions and monitors. AllocError where memory is refused.
    pub fn new(alloc: Global, topo: Arc<Topo>) -> Result<Inputs, AllocError>
        ensures { IfOk result (λ inputs. inputs ≡ blank (arc_value topo)) }
    {
        let mut regions = Vec::new(alloc);
        for _ in 0..topo.manager_count() {
            regions.push(RegionMap::new(alloc))?;
        }
        Ok(Inputs {
            topo,
            present: Present::new(alloc),
            regions,
            monitors: BTreeMap::new(alloc),
        })
    }

    /// The topology.
    pub fn topo(&self) -> &Topo
        ensures { result.now ≡ self.now.topo }
    {
        &self.topo
    }

    /// The topology, shared.
    pub fn shared_topo(&self) -> &Arc<Topo>
        ensures { arc_value result.now ≡ self.now.topo }
    {
        &self.topo
    }

    /// The fragments that stand on its links.
    pub fn present(&self) -> &Present
        ensures { result.now ≡ self.now.fragments }
    {
        &self.present
    }

    /// The regions of its managers, each at the manager's number.
    pub fn regions(&self) -> &[RegionMap]
        ensures exact { result.now ≡ self.now.regions }
        ensures all { length result.now ≡ length self.now.topo.managers }
        // The numbers of regions are below 256.
        ensures numbers { AreNumbered self.now.regions }
    {
        self.regions.as_slice()
    }

    /// The watch of a monitor, or None where it isn't attached.
    pub fn watch(&self, monitor: u32) -> Option<Watch>
        ensures { result ≡ watch_at monitor self.now.monitors }
    {
        *self.monitors.get(&monitor)?
    }

    /// Whether a monitor is attached or once was.
    pub fn was_attached(&self, monitor: u32) -> bool
        ensures { result ≡ was_attached monitor self.now.monitors }
    {
        self.monitors.contains_key(&monitor)
    }

    /// The monitors that are attached, in the order of their numbers, with their watches. AllocError where memory is refused.
    pub fn watches(&self, alloc: Global) -> Result<Vec<(u32, Watch)>, AllocError>
        ensures exact { IfOk result (λ watches. watches.items ≡ attached self.now.monitors) }
        ensures rise { IfOk result (λ watches. IsStrictlySortedBy nat_cmp (map (λ e. e.0) watches.items)) }
    {
        let mut watches = Vec::new(alloc);
        for (monitor, watch) in self.monitors.iter() {
            if let Some(watch) = watch {
                watches.push((*monitor, *watch))?;
            }
        }
        Ok(watches)
    }

    /// The same, with the fragments shared and not copied. AllocError where memory is refused.
    pub fn copy(&self) -> Result<Inputs, AllocError>
        ensures { IfOk result (λ copy. copy ≡ self.now) }
    {
        let mut regions = Vec::new(*self.regions.allocator());
        for map in self.regions.iter() {
            regions.push(map.copy()?)?;
        }
        Ok(Inputs {
            topo: Arc::try_clone(&self.topo)?,
            present: self.present.copy()?,
            regions,
            monitors: self.monitors.clone()?,
        })
    }
}
