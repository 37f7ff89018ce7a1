//! Files of a capture in the order in which little is held: their first lines, and whose turn it is, of one thread or of several.
#![tactic(auto)]

mod beside;
mod heads;
mod lanes;
mod pieces;
mod turns;

pub use turns::report_in_turn;
