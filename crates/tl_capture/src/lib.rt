//! The fragments that are present on links at one moment, and the beats of their windows.
#![tactic(auto)]

mod beats;
mod cursor;
mod cut;
mod edits;
pub mod laws;
mod matching;
mod merged;
mod order;
mod present;
mod ranges;
mod runs;
mod shares;
mod span;
mod waiting;
mod walks;
mod window_beats;

pub use merged::Merged;
pub use present::Present;
pub use runs::{Front, Runs};
pub use shares::windows_of;
pub use span::window_of;
pub use window_beats::WindowBeats;
