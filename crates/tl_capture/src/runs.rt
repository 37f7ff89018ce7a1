//! A walk over the beats of several fragments that takes later beats of one ahead of those of others.

ghost use Rattle.std.specs.Prelude.{◌≡◌, ◌≤◌, ◌∷◌, ◌++◌, [], true, length, MatchOption};
ghost use Rattle.tl_capture.specs.Runs.{AreOthers, IsAlone, IsFront, IsPast};
ghost use Rattle.tl_capture.specs.Waiting.{under_top, in_turn};
ghost use Rattle.tl_capture.specs.declared.cursor.Cursor.{Cursor as AnyCursor};

use crate::cursor::Cursor;
use crate::waiting::go_on;
use std::marker::Model;
use tl_beats::{Beat, Placed};

/// Among how many fragments it is asked whether another is of the same link.
const FEW: usize = 16;

/// The next beat of a walk.
#[derive(Clone, Copy)]
pub struct Front<'a> {
    /// Where it is written, and the beat.
    pub at: Placed,
    /// Those after it in its fragment.
    pub rest: &'a [Beat],
}

impl<'a> Front<'a> {
    /// Whether the beat after it in its fragment is of the same channel.
    pub fn goes_on(&self) -> bool {
        match self.rest.first() {
            Some(next) => next.chan == self.at.beat.chan,
            None => false,
        }
    }
}

/// What is left of the beats of several fragments, in the order of positions but for those that are taken ahead.
#[derive(Drop)]
pub struct Runs<'a> {
    // What is left of each fragment, the one whose next beat is least on top.
    pub(crate) cursors: Vec<Cursor<'a>>,
}

impl<'a> Model for Runs<'a> {
    ghost use Rattle.std.specs.Prelude.{List};
    ghost use Rattle.tl_capture.specs.declared.cursor.Cursor.{Cursor};
    ghost use Rattle.tl_capture.specs.Waiting.{AreReady};

    ghost Value = { List Cursor };

    ghost view = { λ r. r.cursors.items };

    ghost invariant = { λ r. AreReady r.cursors.items };
}

/// Whether none of these is of the link.
fn are_others<'a>(cursors: &[Cursor<'a>], link: u16) -> bool
    ensures { result ≡ true → AreOthers link cursors.now }
{
    for cursor in cursors {
        if cursor.link == link {
            return false;
        }
    }
    true
}

impl<'a> Runs<'a> {
    /// The next beat, if one is left.
    pub fn front(&self) -> Option<Front<'a>>
        ensures { MatchOption result (in_turn self.now ≡ []) (IsFront self.now) }
    {
        let top = self.cursors.last()?;
        Some(Front {
            at: top.here(),
            rest: top.rest,
        })
    }

    /// Whether no other fragment is of the link of the next beat. False says nothing where there are many.
    pub fn is_alone(&self) -> bool
        ensures { result ≡ true → IsAlone self.now }
    {
        let Some(top) = self.cursors.last() else {
            return false;
        };
        let under = self.cursors.len() - 1;
        under <= FEW && are_others(&self.cursors[..under], top.link)
    }

    /// Goes past the next beat, and so many after it in its fragment. These are taken ahead of what other fragments have left, so where
    /// they are any, no other is to be of their link.
    pub fn pass(&mut self, more: usize)
        requires within { (top : AnyCursor) → self.old ≡ under_top self.old ++ top ∷ [] → more ≤ length top.rest.now }
        requires alone { 1 ≤ more → IsAlone self.old }
        ensures { (top : AnyCursor) → self.old ≡ under_top self.old ++ top ∷ [] → IsPast top more self.old self.new }
    {
        if let Some(top) = self.cursors.last() {
            let top = *top;
            go_on(&mut self.cursors, top, more);
        }
    }
}
