//! Files that words name: which there are, their texts, how far they are read, and the faults of all of that.
#![tactic(auto)]

mod chain;
mod fault;
mod files;
mod page;
mod paths;
mod progress;

pub use chain::Chain;
pub use fault::Fault;
pub use files::{
    Seen, all_fragments_of, are_files, bytes_of, fill_page, fragment_at, fragments_of, is_passed,
    line_after, line_ends, listed, script_of, seen_at, topology_of, whole_topology,
};
pub use page::Page;
pub use paths::{files_of, list_of};
pub use progress::{FilesRead, Gauge, LineCounter, Progress, SoFar, Untold};
