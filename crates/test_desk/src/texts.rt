//! The topology and the fragments of the tests.

/// One manager with two caches and a reader.
pub(crate) const ONE_MANAGER: &str = "topo 1\n\
manager m0 64\n\
link cpu0 m0 c 8 6 4\n\
link cpu1 m0 c 8 6 4\n\
link dma0 m0 ul 8 3 2\n\
end\n";

/// A Get of dma0 with its reply, in window 0, and nothing in the others.
pub(crate) const ONE_GET: &str = "fragment dma0 1 0 99999\n\
10 A 4 0 3 0 1000 ff 0\n\
10 D 1 0 3 0 0 0 0\n\
end\n";

/// A Get of dma0 with its reply, in window 0.
pub(crate) const FIRST_GET: &str = "fragment dma0 1 0 4095\n\
10 A 4 0 3 0 1000 ff 0\n\
10 D 1 0 3 0 0 0 0\n\
end\n";

/// The same in window 1.
pub(crate) const SECOND_GET: &str = "fragment dma0 2 4096 8191\n\
5000 A 4 0 3 0 1000 ff 0\n\
5000 D 1 0 3 0 0 0 0\n\
end\n";

/// The same in window 2.
pub(crate) const THIRD_GET: &str = "fragment dma0 3 8192 12287\n\
9000 A 4 0 3 0 1000 ff 0\n\
9000 D 1 0 3 0 0 0 0\n\
end\n";

/// In place of the second: a Get of another address with its reply.
pub(crate) const OTHER_GET: &str = "fragment dma0 2 4096 8191\n\
6000 A 4 0 3 0 2000 ff 0\n\
6001 D 1 0 3 0 0 0 0\n\
end\n";

/// In place of the second: two Gets with their replies.
pub(crate) const TWO_GETS: &str = "fragment dma0 2 4096 8191\n\
5000 A 4 0 3 0 1000 ff 0\n\
5000 D 1 0 3 0 0 0 0\n\
6000 A 4 0 3 0 1000 ff 0\n\
6000 D 1 0 3 0 0 0 0\n\
end\n";

/// In window 0, dma0 asks for 8 bytes at an address that is no multiple of 8 (F3).
pub(crate) const MISALIGNED_GET: &str = "fragment dma0 1 0 4095\n\
10 A 4 0 3 0 4 ff 0\n\
end\n";

/// In window 0, cpu0 asks for a block to read.
pub(crate) const BLOCK_ASKED: &str = "fragment cpu0 1 0 4091\n\
4000 A 6 0 6 0 1000 ff 0\n\
end\n";

/// It gets the block in eight beats, four in window 0 and four in window 1, where it acknowledges them.
pub(crate) const BLOCK_GRANTED: &str = "fragment cpu0 2 4092 8191\n\
4092 D 5 1 6 0 3 0 0\n\
4093 D 5 1 6 0 3 0 0\n\
4094 D 5 1 6 0 3 0 0\n\
4095 D 5 1 6 0 3 0 0\n\
4096 D 5 1 6 0 3 0 0\n\
4097 D 5 1 6 0 3 0 0\n\
4098 D 5 1 6 0 3 0 0\n\
4099 D 5 1 6 0 3 0 0\n\
4100 E 3\n\
end\n";

/// A Get of dma0 with its reply, in window 2.
pub(crate) const LATER_GET: &str = "fragment dma0 1 8192 12287\n\
8200 A 4 0 3 0 1000 ff 0\n\
8210 D 1 0 3 0 0 0 0\n\
end\n";
