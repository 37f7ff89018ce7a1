//! A manager that reads what its links tell.

use crate::holders::Holders;

/// A manager, and what it knows of its links.
#[derive(Drop)]
pub(crate) struct Listener {
    /// The numbers of its links, in rising order.
    pub(crate) clients: Vec<u16>,
    pub(crate) holders: Holders,
}
