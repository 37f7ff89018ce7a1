//! Managers of which some links have caches and others have none: each link is judged apart, and what it tells its manager by itself.

ghost use Rattle.std.specs.Prelude.{◌≡◌, None};
ghost use Rattle.tl_apart.specs.Apart.{HasApart};

use crate::pass::{Found, Hitch, Pass};
use std::alloc::{AllocError, Global};
use std::sync::Arc;
use tl_apart::{Apart, ApartFault};
use tl_beats::Fragment;
use tl_check::sort_rows;

impl From<ApartFault> for Hitch {
    fn from(fault: ApartFault) -> Hitch {
        match fault {
            ApartFault::Memory => Hitch::Memory,
            ApartFault::UnknownLink | ApartFault::Late => Hitch::Fault,
        }
    }
}

impl Pass for Apart {
    ghost has_come = { λ midway topo fs pass. (midway ≡ None) × HasApart topo fs pass };

    fn accept(&mut self, alloc: Global, fragment: Arc<Fragment>) -> Result<(), Hitch> {
        self.accept(alloc, &fragment)?;
        Ok(())
    }

    fn report(self, alloc: Global) -> Result<Found, AllocError> {
        Ok(Found {
            rows: sort_rows(self.rows()?),
            lead_ins: 0,
        })
    }
}
