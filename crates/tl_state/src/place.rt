//! A place of a map by block.

ghost use Rattle.std.specs.Prelude.{◌≡◌, None, Some};

use std::marker::Model;

/// A place of a map: a block that stands there with its value, if one does.
#[derive(Clone, Copy, Drop)]
pub struct Place<V: Copy + Drop> {
    block: u64,
    // None where the place is free.
    value: Option<V>,
}

impl<V: Copy + Drop> Model for Place<V> {
    ghost use Rattle.std.specs.Prelude.{ℕ, Option};

    ghost Value = { Option (ℕ × V) };

    ghost use Rattle.tl_state.specs.Places.{held, IsPlain, place_of, gives_back};

    ghost view = { held };

    ghost invariant = { IsPlain };

    ghost inverse = { place_of };

    ghost inverse_ok = { gives_back };
}

impl<V: Copy + Drop> Place<V> {
    /// A place that is free.
    #[inline(always)]
    pub(crate) fn free() -> Self
        ensures { result ≡ None }
    {
        Place {
            block: 0,
            value: None,
        }
    }

    /// The place of a block with this value.
    #[inline(always)]
    pub(crate) fn of(block: u64, value: V) -> Self
        ensures { result ≡ Some (block, value) }
    {
        Place {
            block,
            value: Some(value),
        }
    }

    /// The block that stands there, and its value.
    #[inline(always)]
    pub(crate) fn held(&self) -> Option<(u64, V)>
        ensures { result ≡ self.now }
    {
        match self.value {
            Some(value) => Some((self.block, value)),
            None => None,
        }
    }
}
