//! Links, managers and the text of a topology; the regions of a manager.
#![tactic(auto)]

mod fault;
pub mod laws;
mod reading;
mod region;
mod topo;

pub use fault::TopoFault;
pub use reading::read_topo;
pub use region::{Permits, Region, RegionFault, RegionMap};
use tl_tables::Level;
pub use tl_text::Name;
pub use topo::Topo;

/// A link as its topology declares it.
#[derive(Clone, Copy, Debug, PartialEq, Eq)]
pub struct LinkDecl {
    /// What the topology calls it.
    pub name: Name,
    /// The number of its manager, from 0 in declared order.
    pub manager: u16,
    /// How much of the protocol it speaks.
    pub level: Level,
    /// Bytes of data in one beat: a power of two from 1 to 64.
    pub width: u8,
    /// The exponent of the largest message in bytes, 0 to 15.
    pub max_size: u8,
    /// How many sources it has, 1 to 65,536; they are numbered from 0.
    pub sources: u32,
    /// Whether its client never drops a block in silence, so that what it may hold is what it holds and it claims
    /// neither more nor less. Only on TL-C.
    pub strict: bool,
}
