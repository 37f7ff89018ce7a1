//! The rules of one link: which beat begins a message, the format rules, and the flow rules.
#![tactic(auto)]

mod bursts;
mod fields;
mod flow;
mod heads;
mod later;
pub mod laws;
mod open_table;
mod rule_list;

pub use bursts::{BurstState, Place, beat_count};
pub use fields::active_lanes;
pub use flow::{FlowAnswer, FlowState, has_other_size, is_unlike, request_from};
pub use heads::{check_head, keeps_format};
pub use later::{breaks as breaks_later, check_later, is_alike, keeps_burst};
pub use open_table::OpenTable;
pub use rule_list::RuleList;
