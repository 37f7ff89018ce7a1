//! The tables that states keep values in: by key, by source or sink, and by block.
#![tactic(auto)]

mod block_map;
mod block_walk;
mod changes;
mod leaves;
mod place;
mod search;
mod share_map;
mod slots;
mod walk;

pub use block_map::BlockMap;
pub use block_walk::Blocks;
pub use share_map::ShareMap;
pub use slots::Slots;
pub use walk::Entries;
