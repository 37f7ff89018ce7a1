//! Cursors in a stack, the one whose next beat is least on top.

ghost use Rattle.std.specs.Prelude.{◌≡◌, ◌∷◌, ◌++◌, ◌<◌, ◌≤◌, [], length, drop, vec_len, vec_capacity};
ghost use Rattle.std.specs.List.Sorted.{IsPermutation, IsStrictlySortedBy};
ghost use Rattle.tl_definitions.specs.Positions.{position_order, in_order};
ghost use Rattle.tl_capture.specs.Cursors.{here, after, all_left};
ghost use Rattle.tl_capture.specs.Waiting.{under_top, in_turn, AreStacked, AreUntied, AreReady};

use crate::cursor::Cursor;

/// Within how many of the top a place is sought one by one.
const NEAR: usize = 8;

/// The same cursors, the least on top.
pub(crate) fn stacked<'a>(cursors: Vec<Cursor<'a>>) -> Vec<Cursor<'a>>
    requires { IsStrictlySortedBy position_order (in_turn cursors.items) }
    ensures moves { IsPermutation cursors.entry.items result.items }
    ensures stacked { AreStacked result.items }
{
    let mut sorted = cursors;
    sorted.sort_unstable_by(|one, other| other.order(one));
    sorted
}

/// Puts a cursor in its place among others, where there is room for it: the place is sought in halves.
fn put_far<'a>(cursors: &mut Vec<Cursor<'a>>, cursor: Cursor<'a>)
    requires room { vec_len cursors.old < vec_capacity cursors.old }
    requires stacked { AreStacked cursors.old.items }
    requires untied { AreUntied cursor cursors.old.items }
    ensures moves { IsPermutation (cursor.entry ∷ cursors.old.items) cursors.new.items }
    ensures stacked { AreStacked cursors.new.items }
{
    let place = cursors.partition_point(|other| cursor.lies_before(other));
    let _ = cursors.insert(place, cursor);
}

/// Puts a cursor in its place among those under the top, which gives its room: the place is sought from the top down.
fn put_near<'a>(cursors: &mut [Cursor<'a>], cursor: Cursor<'a>)
    requires some { 0 < length cursors.old }
    requires stacked { AreStacked (under_top cursors.old) }
    requires untied { AreUntied cursor (under_top cursors.old) }
    ensures moves { IsPermutation (cursor.entry ∷ under_top cursors.old) cursors.new }
    ensures stacked { AreStacked cursors.new }
{
    let mut place = cursors.len() - 1;
    while place > 0 {
        let above = cursors[place - 1];
        if cursor.lies_before(&above) {
            cursors[place] = cursor;
            return;
        }
        cursors[place] = above;
        place -= 1;
    }
    cursors[0] = cursor;
}

/// Puts a cursor in its place among those under the top, which gives its room.
#[inline(always)]
fn put<'a>(cursors: &mut Vec<Cursor<'a>>, cursor: Cursor<'a>)
    requires some { 0 < vec_len cursors.old }
    requires stacked { AreStacked (under_top cursors.old.items) }
    requires untied { AreUntied cursor (under_top cursors.old.items) }
    ensures moves { IsPermutation (cursor.entry ∷ under_top cursors.old.items) cursors.new.items }
    ensures stacked { AreStacked cursors.new.items }
{
    let count = cursors.len();
    if count > NEAR && cursors[count - NEAR].lies_before(&cursor) {
        drop_top(cursors);
        put_far(cursors, cursor);
        return;
    }
    put_near(cursors, cursor);
}

/// Takes off the top.
fn drop_top<'a>(cursors: &mut Vec<Cursor<'a>>)
    ensures under { cursors.new.items ≡ under_top cursors.old.items }
    ensures room { 0 < vec_len cursors.old → vec_len cursors.new < vec_capacity cursors.new }
{
    cursors.pop();
}

/// Goes on after the next beat of the top, which is read, and so many of its fragment's after that.
#[inline(always)]
pub(crate) fn go_on<'a>(cursors: &mut Vec<Cursor<'a>>, top: Cursor<'a>, more: usize)
    requires ready { AreReady cursors.old.items }
    requires top { cursors.old.items ≡ under_top cursors.old.items ++ top ∷ [] }
    requires within { more ≤ length top.rest.now }
    ensures ready { AreReady cursors.new.items }
    ensures next { in_turn cursors.old.items ≡ here top.entry ∷ in_order (after top.entry ++ all_left (under_top cursors.old.items)) }
    ensures left { in_turn cursors.new.items ≡ in_order (drop more (after top.entry) ++ all_left (under_top cursors.old.items)) }
{
    match top.moved(more) {
        Some(moved) => put(cursors, moved),
        None => drop_top(cursors),
    }
}
