//! The windows of managers and of monitors after a log of edits, each with its result or wanted.
#![tactic(auto)]

mod accepting;
mod apart;
mod checking;
mod current;
mod edits;
mod outside;
mod present;
mod recheck;
mod rechecks;
mod rows;
mod same_watch;
mod spans;
mod tally;
mod task;
mod tickets;
mod touched;
mod touched_watches;
mod watch_checking;
mod watch_task;
mod watch_tickets;
mod watches;
mod windows;

pub use outside::watch_key;
pub use rows::Rows;
pub use same_watch::is_watch;
pub use spans::{Spans, gathered};
pub use tally::Tally;
pub use task::SpanTask;
pub use tickets::window_key;
pub use touched::{Touched, touches_of};
pub use watch_task::{WatchTask, WatchWindow};
pub use watches::Watches;
pub use windows::{grow, keep, keys_of, prune, touch_each};
