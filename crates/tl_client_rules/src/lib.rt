//! The rules of what is held: the permission rules of one client, and the manager rules over all clients.
#![tactic(auto)]

mod bounds;
mod claims;
mod client;
pub mod client_laws;
mod clients;
mod counts;
mod manager;
pub mod manager_laws;
mod open_blocks;
mod settled;

pub use claims::{acquired_block, block_of, claim, granted_block};
pub use client::{ClientState, is_wrong};
pub use clients::clients_of;
pub use manager::{ManagerState, conflicts};
pub use open_blocks::OpenBlocks;
