//! Entries of the history, and what a pass knows.

use std::collections::LinkedList;
use tl_desk::Call;
use tl_topology::Topo;

/// A call that changed the desk, with its answer, by the pass of this number. Contracts speak of it; no value of it is made.
pub struct Entry {
    pub by: u64,
    pub call: Call,
}

/// What a pass knows. Contracts speak of it; no value of it is made.
pub struct View {
    /// The topology of its hall.
    pub topo: Topo,
    /// Its number.
    pub number: u64,
    /// The numbers `number + stride`, `number + 2 * stride` and so on are this pass's to give.
    pub stride: u64,
    /// What it has seen of the history.
    pub seen: LinkedList<Entry>,
    /// What a pass had seen that was joined, until that is compared.
    pub met: LinkedList<Entry>,
    /// Whether it holds the turn.
    pub turn: bool,
    /// Whether it only takes windows, hands them in and abandons them.
    pub helps: bool,
    /// Whether each other pass of its hall only helps.
    pub sole: bool,
    /// Whether it is gone.
    pub spent: bool,
}
