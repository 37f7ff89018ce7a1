//! The run of a script beside workers, which check windows in threads of their own.
#![tactic(auto)]

mod crew;
mod run;
mod seat;
mod shift;
mod texts;
mod windows;

pub use run::{Script, run_gated, run_with, show_with};
