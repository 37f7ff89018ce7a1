//! Captures that begin in the middle of a run: what the next beat of a channel may be, and what is known of a link's past.
#![tactic(auto)]

mod asks;
mod counted;
mod counting;
mod counts;
mod judged;
mod known;
mod known_bounds;
mod known_link;
mod known_pasts;
mod known_rules;
pub mod laws;
mod lead_ins;
mod link_readings;
mod loose_bounds;
mod manager_readings;
mod manager_rules;
mod midway;
mod named;
mod plain_links;
mod reading;
mod readings;
mod seen;
mod standing;
mod state;
mod table;
mod unjudged;
mod walked;

pub use counting::{CountedReport, capture_rows, counted_report, midway_report};
pub use counts::{Counts, RuleCount};
pub use known::Known;
pub use known_link::KnownLink;
pub use known_pasts::{KnownPasts, LinkPast};
pub use lead_ins::{HeadsKnown, heads_known};
pub use link_readings::LinkReadings;
pub use manager_readings::ManagerReadings;
pub use midway::Midway;
pub use reading::Reading;
pub use readings::Readings;
pub use seen::Seen;
pub use standing::Standing;
pub use state::MidwayState;
pub use walked::{Walked, midway_rows, walk_on};
