//! Links that are judged apart, and what they tell their managers.
#![tactic(auto)]

mod apart;
mod event;
mod fault;
mod feed;
mod grants;
mod holder;
mod holders;
mod link_judge;
mod listener;
mod order;

pub use apart::Apart;
pub use fault::ApartFault;
pub use feed::LinkFeed;
