//! The capture that is edited: one link, with a fragment in each window.

use std::alloc::Global;
use std::sync::Arc;
use tl_beats::{Beat, Fragment};
use tl_tables::Chan;
use tl_topology::{Name, Topo, read_topo};

/// One manager with one link.
const TOPOLOGY: &str = "topo 1\nmanager m0 64\nlink dma0 m0 ul 8 3 2\nend\n";

/// The link.
const LINK: &[u8] = b"dma0";

/// The cycles of a window.
const CYCLES: u64 = 4096;

/// How many windows there are. The fragment of a window has its number.
pub(crate) const WINDOWS: u32 = 80;

/// What the fragment of a window has.
#[derive(Clone, Copy, PartialEq, Eq)]
pub(crate) enum Content {
    /// A Get with its reply.
    Plain,
    /// The same, at an address that isn't aligned: one row.
    Misaligned,
    /// A Get without a reply: its source is in flight in the next window, where the Get has a row.
    InFlight,
}

impl Content {
    /// One of seven brings a row, and one of seven brings one to the window after it.
    pub(crate) fn of(number: u32) -> Content {
        match number % 7 {
            0 => Content::Misaligned,
            3 => Content::InFlight,
            _ => Content::Plain,
        }
    }
}

/// The topology; None where memory is refused.
pub(crate) fn topology(alloc: Global) -> Option<Topo> {
    let (topo, _) = read_topo(alloc, TOPOLOGY.as_bytes()).ok()?;
    Some(topo)
}

/// The name of the link.
pub(crate) fn link() -> Option<Name> {
    Name::new(LINK)
}

/// A Get from an address.
fn get(cycle: u64, address: u64) -> Beat {
    Beat {
        cycle,
        chan: Chan::A,
        opcode: 4,
        param: 0,
        size: 3,
        source: 0,
        sink: 0,
        address,
        mask: 0xff,
        denied: false,
        corrupt: false,
    }
}

/// The reply of a Get.
fn reply(cycle: u64) -> Beat {
    Beat {
        cycle,
        chan: Chan::D,
        opcode: 1,
        param: 0,
        size: 3,
        source: 0,
        sink: 0,
        address: 0,
        mask: 0,
        denied: false,
        corrupt: false,
    }
}

/// The fragment of a window with this content; None where memory is refused.
pub(crate) fn fragment(alloc: Global, window: u32, content: Content) -> Option<Arc<Fragment>> {
    let first = u64::from(window) * CYCLES;
    let address = match content {
        Content::Misaligned => 0x1004,
        _ => 0x1000,
    };
    let mut beats = Vec::new(alloc);
    beats.push(get(first, address)).ok()?;
    if content != Content::InFlight {
        beats.push(reply(first + 1)).ok()?;
    }
    let fragment = Fragment::new(link()?, window, first, first + (CYCLES - 1), beats).ok()?;
    Arc::new(alloc, fragment).ok()
}
