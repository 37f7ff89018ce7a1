//! One pass over the fragments of a capture, of which each is forgotten once it is judged.
#![tactic(auto)]

mod apart_pass;
mod beside;
mod link_pass;
mod manager_pass;
mod part;
mod pass;
mod solo;
mod supply;

pub use beside::{Beside, Lanes, feed_all};
pub use link_pass::{LinkPass, has_no_caches};
pub use manager_pass::ManagerPass;
pub use part::{Links, Part, Whole, can_part};
pub use pass::{Found, Hitch, Pass};
pub use solo::report_of_pieces;
pub use supply::{Supply, Taken, report_of};
