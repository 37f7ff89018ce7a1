//! What is kept of each window: its result, its live tickets, and whether it is wanted.
#![tactic(auto)]

mod key;
pub mod laws;
mod marks;
mod openings;
mod piece_map;
mod slot;
mod slots;
mod tally;
mod walk;

pub use key::PieceKey;
pub use piece_map::PieceMap;
pub use slot::Stored;
pub use walk::{PieceRef, Pieces};
