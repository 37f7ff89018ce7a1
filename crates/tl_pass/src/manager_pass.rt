//! Managers whose links come together: what is judged of them is forgotten.

ghost use Rattle.std.specs.Prelude.{◌≡◌, [], IfOk};
ghost use Rattle.std.specs.Arc.{arc_value};
ghost use Rattle.tl_pass.specs.ManagerPass.{HasTold};

use crate::pass::{Found, Hitch, Pass};
use std::alloc::{AllocError, Global};
use std::sync::Arc;
use tl_beats::{Fragment, Row};
use tl_check::{has_caches, sort_rows};
use tl_midway::Midway;
use tl_stream::Stream;
use tl_topology::Topo;

/// Whether all links of a topology have caches, so that none can be judged apart from the others of its manager for nothing.
pub(crate) fn have_caches(topo: &Topo) -> bool {
    for link in 0..topo.link_count() {
        if !has_caches(topo, link as u16) {
            return false;
        }
    }
    true
}

/// The rows of the fragments that came, those of each link with rising numbers and ranges. It holds the fragments of which a cycle is not
/// complete on all links of their manager, and of all others what they leave.
#[derive(Drop)]
pub struct ManagerPass {
    stream: Stream,
    rows: Vec<Row>,
}

impl ManagerPass {
    /// No fragment of a topology came, of a whole run or of a capture that begins so. AllocError where memory is refused.
    pub fn new(
        alloc: Global,
        topo: Arc<Topo>,
        midway: Option<Midway>,
    ) -> Result<ManagerPass, AllocError>
        ensures none { IfOk result (λ pass. HasTold [] pass.stream pass.rows.items) }
        ensures topo { IfOk result (λ pass. pass.stream.topo ≡ arc_value topo) }
        ensures midway { IfOk result (λ pass. pass.stream.midway ≡ midway) }
    {
        Ok(ManagerPass {
            stream: Stream::new(alloc, topo, Vec::new(alloc), midway)?,
            rows: Vec::new(alloc),
        })
    }
}

impl Pass for ManagerPass {
    ghost has_come = { λ midway topo fs pass. (pass.stream.midway ≡ midway) × (pass.stream.topo ≡ topo) × HasTold fs pass.stream pass.rows.items };

    fn accept(&mut self, alloc: Global, fragment: Arc<Fragment>) -> Result<(), Hitch> {
        let topo = self.stream.topo();
        let Some(link) = topo.link_of(&fragment.link()) else {
            return Err(Hitch::Fault);
        };
        // The rows that come are those of this link's manager.
        let _ = topo.link(link).unwrap();
        let rows = self.stream.accept(alloc, fragment)?;
        self.rows.extend_from_slice(&rows)?;
        Ok(())
    }

    fn report(self, alloc: Global) -> Result<Found, AllocError> {
        let mut rows = self.rows;
        let rest = self.stream.end(alloc)?;
        rows.extend_from_slice(&rest.rows)?;
        Ok(Found {
            rows: sort_rows(rows),
            lead_ins: rest.lead_ins,
        })
    }
}
