//! How many slots pass a test, and where the first of them is looked for.

ghost use Rattle.std.specs.Prelude.{◌≡◌, ◌≤◌, ◌<◌, ◌+◌, ◌^◌, cond};
ghost use Rattle.tl_pieces.specs.Tallies.{lowered};

use crate::key::PieceKey;

/// How many slots pass a test, and a cursor over them.
#[derive(Clone, Copy, Drop)]
pub(crate) struct Tally {
    pub(crate) count: usize,
    // No slot before it passes the test; None: no slot does.
    pub(crate) cursor: Option<PieceKey>,
}

impl Tally {
    /// The tally of no slots.
    pub(crate) fn new() -> Tally
        ensures count { result.count ≡ 0 }
    {
        Tally {
            count: 0,
            cursor: None,
        }
    }

    /// The tally after the slot of the key came, went or changed: whether it passed the test before, and whether it does now.
    pub(crate) fn turned(self, key: PieceKey, was: bool, is: bool) -> Tally
        requires some { cond was 1 0 ≤ self.count }
        requires fits { self.count < 2 ^ 63 }
        ensures count { result.count + cond was 1 0 ≡ self.count + cond is 1 0 }
        ensures cursor { result.cursor ≡ cond is (lowered self.cursor key) self.cursor }
    {
        Tally {
            count: recounted(self.count, was, is),
            cursor: lowered_if(is, self.cursor, key),
        }
    }
}

fn recounted(count: usize, was: bool, is: bool) -> usize
    requires some { cond was 1 0 ≤ count }
    requires fits { count < 2 ^ 63 }
    ensures { result + cond was 1 0 ≡ count + cond is 1 0 }
{
    match (was, is) {
        (true, false) => count - 1,
        (false, true) => count + 1,
        _ => count,
    }
}

fn lowered(cursor: Option<PieceKey>, key: PieceKey) -> Option<PieceKey>
    ensures { result ≡ lowered cursor key }
{
    match cursor {
        Some(cursor) if cursor < key => Some(cursor),
        _ => Some(key),
    }
}

fn lowered_if(is: bool, cursor: Option<PieceKey>, key: PieceKey) -> Option<PieceKey>
    ensures { result ≡ cond is (lowered cursor key) cursor }
{
    if is {
        return lowered(cursor, key);
    }
    cursor
}
