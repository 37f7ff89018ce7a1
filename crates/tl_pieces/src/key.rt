//! Keys of pieces.

/// Which piece: an owner, as a manager or a monitor, and one of its windows. Pieces are in the order of owners, and of windows
/// for each.
#[derive(Clone, Copy, Debug, PartialEq, Eq, PartialOrd, Ord)]
pub struct PieceKey {
    pub owner: u32,
    pub window: u64,
}
