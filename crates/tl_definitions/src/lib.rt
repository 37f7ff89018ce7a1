//! What the product means by each rule, said once: over whole lists of beats, the newest first. The definitions stand in
//! `specs/`; the functions here run nothing, and carry the laws about the definitions as their contracts.
#![tactic(auto)]

pub mod coherence;
pub mod judging;
pub mod laws;
pub mod links;
pub mod midway;
pub mod midway_rows;
pub mod positions;
pub mod report;
pub mod rows;
pub mod watching;

use tl_beats::Beat;

/// A burst with beats still to come: its head, and how many are missing.
#[derive(Clone, Copy, Debug, PartialEq, Eq)]
pub struct Unfinished {
    /// The first beat of the message.
    pub head: Beat,
    /// How many beats are still to come, 1 to 32,767.
    pub missing: u16,
}
