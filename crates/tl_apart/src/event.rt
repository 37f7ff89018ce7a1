//! What a link tells its manager.

use tl_beats::Placed;
use tl_tables::{Op, Perm};

/// What a head of a link with caches tells its manager. [TileLink 1.8: coherence]
#[derive(Clone, Copy, Debug, PartialEq, Eq)]
pub struct Event {
    /// The head, and where it is written.
    pub place: Placed,
    /// Its message.
    pub op: Op,
    /// The first address of its block, if that is known. A GrantAck has none, and there it isn't read.
    pub block: Option<u64>,
    /// The block and the bound that it sets, if it sets one.
    pub sets: Option<(u64, Perm)>,
    /// Of a Grant or GrantAck the block, if known, of the Grant that was open on its sink.
    pub closes: Option<u64>,
}
