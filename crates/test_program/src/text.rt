//! Texts that several tests read.

/// One manager with one link.
pub(crate) const ONE_LINK: &str = "topo 1\nmanager m0 64\nlink dma0 m0 ul 8 3 2\nend\n";

/// A reply without its request.
pub(crate) const REPLY: &str = "fragment dma0 2 20 29\n20 D 1 0 3 0 0 0 0\nend\n";

/// The same in a script, with a report.
pub(crate) const SCRIPT: &str = "add 45\nfragment dma0 2 20 29\n20 D 1 0 3 0 0 0 0\nend\npublish\n";
