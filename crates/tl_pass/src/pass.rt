//! Fragments that come one after another.

ghost use Rattle.std.specs.Prelude.{List, Option, IfOk, OnOk};
ghost use Rattle.std.specs.Arc.{arc_value};
ghost use Rattle.tl_topology.specs.Topology.{Topology};
ghost use Rattle.tl_definitions.specs.Positions.{Recorded};
ghost use Rattle.tl_capture.specs.Present.{put_in};
ghost use Rattle.tl_midway.specs.declared.midway.Midway.{Midway as AnyMidway};
ghost use Rattle.tl_pass.specs.Reports.{ComesOn, IsReportIn};

use std::alloc::{AllocError, AllocFailed, Global};
use std::sync::Arc;
use tl_beats::{Fragment, Row};
use tl_stream::StreamFault;

/// Why a pass does not go on.
#[derive(Clone, Copy, Debug, PartialEq, Eq)]
pub enum Hitch {
    /// Memory is refused.
    Memory,
    /// A fragment is refused, or comes too late.
    Fault,
}

impl From<AllocError> for Hitch {
    fn from(_error: AllocError) -> Hitch {
        Hitch::Memory
    }
}

impl<T: Drop> From<AllocFailed<T>> for Hitch {
    fn from(_error: AllocFailed<T>) -> Hitch {
        Hitch::Memory
    }
}

impl From<StreamFault> for Hitch {
    fn from(fault: StreamFault) -> Hitch {
        match fault {
            StreamFault::Memory => Hitch::Memory,
            _ => Hitch::Fault,
        }
    }
}

/// What a pass finds.
#[derive(Drop)]
pub struct Found {
    /// The rows.
    pub rows: Vec<Row>,
    /// How many beats are in lead-ins; 2^64 - 1 where there are more. Of a whole run none is counted.
    pub lead_ins: u64,
}

/// Fragments that come one after another, and what is found in them.
pub trait Pass {
    // Exactly these fragments of links of the topology came, of a whole run or of a capture that begins so.
    ghost has_come: { Option AnyMidway → Topology → List Recorded → Self → Type 0 };

    /// The next fragment. Where there is a hitch, the pass is for nothing more.
    fn accept(&mut self, alloc: Global, fragment: Arc<Fragment>) -> Result<(), Hitch>
        ensures { (midway : Option AnyMidway) (topo : Topology) (fs : List Recorded) → has_come midway topo fs self.old
            → OnOk result (ComesOn topo (arc_value fragment) (λ f. has_come midway topo (put_in f fs) self.new)) };

    /// What is found in the fragments that came, the rows in the order of reports. AllocError where memory is refused.
    fn report(self, alloc: Global) -> Result<Found, AllocError>
        ensures { (midway : Option AnyMidway) (topo : Topology) (fs : List Recorded) → has_come midway topo fs self → IfOk result (IsReportIn midway topo fs) };
}
