//! Values that are compared: by what they show, by `==` where that tells all apart, and with their clones.
#![tactic(auto)]

mod exact;
mod faithful;
mod same;

pub use exact::Exact;
pub use faithful::Faithful;
pub use same::{Same, are_same};
