//! Pieces of some windows of managers or monitors that come, go, lose their results, or get them.

ghost use Rattle.std.specs.Prelude.{◌≡◌, ◌++◌, Some, IfOk, OnOk, is_some, map, true};
ghost use Rattle.std.specs.Arc.{arc_value};
ghost use Rattle.std.specs.List.{Contains};
ghost use Rattle.tl_pieces.specs.declared.key.PieceKey.{PieceKey as AnyKey};
ghost use Rattle.tl_pieces.specs.Keys.{change};
ghost use Rattle.tl_pieces.specs.Marks.{pass_of};
ghost use Rattle.tl_pieces.specs.Pieces.{entry_for, opening_of, piece_at, with_pieces, IsBoard, IsSettled, EachOwnerIsChained};
ghost use Rattle.tl_board.specs.Windows.{key_of, with_checked, AreKeysOf, IsGrown, HasAll, IsTaken, IsPruned, AreBlank};
ghost use Rattle.tl_capture.specs.Windows.{HasBeat};
ghost use Rattle.tl_definitions.specs.Positions.{beats_of_all};

use std::alloc::{AllocError, Global};
use tl_capture::Present;
use tl_pieces::{PieceKey, PieceMap, Stored};
use tl_same::Same;

/// The keys with one of these owners and one of these windows. AllocError where memory is refused.
pub fn keys_of(alloc: Global, owners: &[u32], windows: &[u64]) -> Result<Vec<PieceKey>, AllocError>
    ensures { IfOk result (λ keys. AreKeysOf owners.now windows.now keys.items) }
{
    let mut keys = Vec::new(alloc);
    for owner in owners {
        push_keys(*owner, windows, &mut keys)?;
    }
    Ok(keys)
}

/// Puts the keys of an owner with these windows after others. AllocError where memory is refused.
fn push_keys(owner: u32, windows: &[u64], keys: &mut Vec<PieceKey>) -> Result<(), AllocError>
    ensures { OnOk result (keys.new.items ≡ keys.old.items ++ map (key_of owner) windows.now) }
{
    for window in windows {
        keys.push(PieceKey {
            owner,
            window: *window,
        })?;
    }
    Ok(())
}

/// The same pieces. Their keys rise, and each is of an owner; where they are settled, each begins with what the one before it of its
/// owner ended with.
pub(crate) fn known<S: Same + Drop, R: Drop>(pieces: &PieceMap<S, R>) -> &PieceMap<S, R>
    ensures same { result.now ≡ pieces.now }
    ensures board { IsBoard pieces.now }
    ensures chains { IsSettled S.same pieces.now → EachOwnerIsChained S.same pieces.now }
{
    let _ = pieces.len();
    let _ = pieces.settled();
    pieces
}

/// Puts in a piece for each of these keys, whose owners are there, that has none. AllocError where memory is refused: then some
/// have come.
pub fn grow<S: Same + Drop, R: Drop>(
    pieces: &mut PieceMap<S, R>,
    keys: &[PieceKey],
) -> Result<(), AllocError>
    requires { (key : AnyKey) → Contains keys.now key → is_some (opening_of key.owner pieces.old.openings) ≡ true }
    ensures grown { IsGrown keys.now pieces.old pieces.new }
    ensures all { OnOk result (HasAll keys.now pieces.new) }
    ensures board { IsBoard pieces.old }
{
    // The keys rise, and each is of an owner.
    let _ = pieces.len();
    for key in keys {
        if !pieces.contains(*key) {
            pieces.insert(*key)?;
        }
    }
    Ok(())
}

/// The pieces of these keys lose their results and their live tickets.
pub fn touch_each<S: Same + Drop, R: Drop>(pieces: &mut PieceMap<S, R>, keys: &[PieceKey])
    ensures { AreBlank keys.now pieces.old pieces.new }
{
    for key in keys {
        if pieces.contains(*key) {
            pieces.touch(*key);
        }
    }
}

/// A piece that was checked keeps its result, and its live ticket ends.
pub fn keep<S: Same + Drop, R: Drop>(
    pieces: &mut PieceMap<S, R>,
    key: PieceKey,
    stored: Stored<S, R>,
)
    requires { is_some (piece_at key pieces.old) ≡ true }
    ensures { pieces.new ≡ with_pieces pieces.old (change key (with_checked (pass_of stored)) pieces.old.pieces) }
{
    pieces.store(key, stored);
    pieces.set_live(key, None);
}

/// The same of a piece that was checked from what it is to start from: its own states aren't compared.
pub(crate) fn keep_following<S: Same + Drop, R: Drop>(
    pieces: &mut PieceMap<S, R>,
    key: PieceKey,
    stored: Stored<S, R>,
)
    requires there { is_some (piece_at key pieces.old) ≡ true }
    requires entry { entry_for key pieces.old ≡ Some (arc_value stored.entry) }
    requires same { S.same (arc_value stored.entry) (arc_value stored.entry) }
    ensures { pieces.new ≡ with_pieces pieces.old (change key (with_checked (pass_of stored)) pieces.old.pieces) }
{
    pieces.store_following(key, stored);
    pieces.set_live(key, None);
}

/// Takes out a piece, if it is there.
fn take_out<S: Same + Drop, R: Drop>(pieces: &mut PieceMap<S, R>, key: PieceKey)
    ensures { IsTaken key pieces.old pieces.new }
{
    if known(pieces).contains(key) {
        pieces.remove(key);
    }
}

/// Takes out those pieces of these keys in whose windows none of these links has a beat.
pub fn prune<S: Same + Drop, R: Drop>(
    pieces: &mut PieceMap<S, R>,
    present: &Present,
    links: &[u16],
    keys: &[PieceKey],
)
    ensures pruned { IsPruned (HasBeat (beats_of_all links.now present.now)) keys.now pieces.old pieces.new }
    ensures board { IsBoard pieces.new }
{
    for key in keys {
        if !present.has_beat(key.window, links) {
            take_out(pieces, *key);
        }
    }
    // The keys rise, and each is of an owner.
    let _ = pieces.len();
}
