//! A walk over the beats of several fragments.

ghost use Rattle.std.specs.Prelude.{◌≡◌};
ghost use Rattle.std.specs.Iterator.{YieldsFirst, item_count};
ghost use Rattle.std.specs.List.Sorted.{IsStrictlySortedBy};
ghost use Rattle.tl_definitions.specs.Positions.{position_order};
ghost use Rattle.tl_capture.specs.Waiting.{in_turn};

use crate::cursor::Cursor;
use crate::runs::Runs;
use crate::waiting::{go_on, stacked};
use std::marker::Model;
use tl_beats::Placed;

/// What is left of the beats of several fragments, in the order of positions: none is copied before it is next.
#[derive(Drop)]
pub struct Merged<'a> {
    // What is left of each fragment, the one whose next beat is least on top.
    cursors: Vec<Cursor<'a>>,
}

impl<'a> Model for Merged<'a> {
    ghost use Rattle.std.specs.Prelude.{List};
    ghost use Rattle.tl_beats.specs.declared.Placed.{Placed};
    ghost use Rattle.tl_capture.specs.Waiting.{in_turn, AreReady};

    ghost Value = { List Placed };

    ghost view = { λ m. in_turn m.cursors.items };

    ghost invariant = { λ m. AreReady m.cursors.items };
}

impl<'a> Merged<'a> {
    /// The beats of these cursors. Each has a position of its own.
    pub(crate) fn of(cursors: Vec<Cursor<'a>>) -> Merged<'a>
        requires { IsStrictlySortedBy position_order (in_turn cursors.items) }
        ensures { result ≡ in_turn cursors.entry.items }
    {
        Merged {
            cursors: stacked(cursors),
        }
    }

    /// The same walk, several beats of a fragment at a time.
    pub fn runs(self) -> Runs<'a>
        ensures { in_turn result ≡ self.entry }
    {
        Runs {
            cursors: self.cursors,
        }
    }
}

impl<'a> Iterator for Merged<'a> {
    type Item = Placed;

    ghost next_gives = { YieldsFirst (λ m. m) };

    ghost remaining = { item_count (λ m. m) };

    fn next(&mut self) -> Option<Placed> {
        let top = *self.cursors.last()?;
        go_on(&mut self.cursors, top, 0);
        Some(top.here())
    }
}
