//! Which pieces are wanted: each piece is judged by the exit before it.

ghost use Rattle.std.specs.Prelude.{◌≡◌, not, false, None};
ghost use Rattle.std.specs.Bool.{Decides};
ghost use Rattle.std.specs.Arc.{arc_value};
ghost use Rattle.std.specs.Option.{option_map};
ghost use Rattle.tl_pieces.specs.declared.slot.Change.TheVariants as to;
ghost use Rattle.tl_pieces.specs.Keys.{value_at, change, before, Rises};
ghost use Rattle.tl_pieces.specs.Slots.{changed};
ghost use Rattle.tl_pieces.specs.Pieces.{exit_of, exit_before, IsGood};
ghost use Rattle.tl_pieces.specs.Marks.{passed, pass_at, shown, ends, IsMarked, IsMarkedBut};

use crate::key::PieceKey;
use crate::openings::Openings;
use crate::slot::{Change, Slot, Stored};
use crate::slots::Slots;
use std::sync::Arc;
use tl_same::Same;

/// The exit of a result.
pub(crate) fn exit<S, R>(stored: &Stored<S, R>) -> &Arc<S>
    ensures { result.now ≡ stored.now.exit }
{
    &stored.exit
}

/// The exit of a piece, if it has a result.
fn exit_of<S, R>(slot: &Slot<S, R>) -> Option<&Arc<S>>
    ensures { option_map (λ a. arc_value a.now) result ≡ exit_of (passed slot.now.result) }
{
    match &slot.result {
        Some(stored) => Some(exit(stored)),
        None => None,
    }
}

/// The exit before a key.
fn exit_before<'a, S, R>(
    openings: &'a Openings<S>,
    slots: &'a Slots<S, R>,
    key: PieceKey,
) -> Option<&'a Arc<S>>
    ensures { option_map (λ a. arc_value a.now) result ≡ exit_before openings.now (ends None (before key slots.now)) key.owner }
{
    match slots.last_before(key) {
        Some((at, slot)) => {
            if at.owner == key.owner {
                exit_of(slot)
            } else {
                openings.get(key.owner)
            }
        }
        None => openings.get(key.owner),
    }
}

/// Whether a result is there and follows the exit before it, if that is there.
fn is_good<S: Same, R>(exit: Option<&Arc<S>>, stored: &Option<Stored<S, R>>) -> bool
    ensures { Decides result (IsGood S.same (option_map (λ a. arc_value a.now) exit.entry) (passed stored.now)) }
{
    match stored {
        Some(stored) => match exit {
            Some(exit) => stored.entry.is_same(exit),
            None => true,
        },
        None => false,
    }
}

/// Whether the piece of a key has a result that follows the exit before it.
fn fits<S: Same, R>(openings: &Openings<S>, slots: &Slots<S, R>, key: PieceKey) -> bool
    ensures { Decides result (IsGood S.same (exit_before openings.now (ends None (before key slots.now)) key.owner) (pass_at (value_at key slots.now))) }
{
    match slots.get(key) {
        Some(slot) => is_good(exit_before(openings, slots, key), &slot.result),
        None => false,
    }
}

/// Marks the piece of a key, and answers the mark.
pub(crate) fn judge<S: Same + Drop, R: Drop>(
    openings: &Openings<S>,
    slots: &mut Slots<S, R>,
    key: PieceKey,
) -> bool
    ensures exact { Decides (not result) (IsGood S.same (exit_before openings.now (ends None (before key slots.old)) key.owner) (pass_at (value_at key slots.old))) }
    ensures slots { slots.new ≡ change key (changed (to.Wanted result)) slots.old }
    ensures order { Rises slots.old }
{
    let wanted = !fits(openings, slots, key);
    slots.change(key, Change::Wanted(wanted));
    wanted
}

/// Marks the piece of a key as one whose result begins with the exit before it, without a comparison.
pub(crate) fn begins<S: Same + Drop, R: Drop>(slots: &mut Slots<S, R>, key: PieceKey)
    ensures slots { slots.new ≡ change key (changed (to.Wanted false)) slots.old }
    ensures order { Rises slots.old }
{
    slots.change(key, Change::Wanted(false));
}

/// Marks the piece of a key, if there is one.
pub(crate) fn judge_next<S: Same + Drop, R: Drop>(
    openings: &Openings<S>,
    slots: &mut Slots<S, R>,
    next: Option<PieceKey>,
)
    requires { IsMarkedBut S.same openings.now next slots.old }
    ensures marked { IsMarked S.same openings.now None slots.new }
    ensures shown { shown slots.new ≡ shown slots.old }
{
    if let Some(next) = next {
        judge(openings, slots, next);
    }
}
