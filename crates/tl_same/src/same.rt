//! States that are compared by what they show.

ghost use Rattle.std.specs.Bool.{Decides};
ghost use Rattle.tl_same.specs.SameItems.{SameItems, SameOption};

/// A state of which two are compared by what they show.
pub trait Same {
    // Both show the same.
    ghost same: { Self → Self → Type 0 };

    /// Whether both show the same.
    fn is_same(&self, other: &Self) -> bool
        ensures { Decides result (same self.now other.now) };
}

/// Whether both lists have as many items, each showing the same as its counterpart.
pub fn are_same<T: Same>(here: &[T], there: &[T]) -> bool
    ensures { Decides result (SameItems T.same here.now there.now) }
{
    if here.len() != there.len() {
        return false;
    }
    for n in 0..here.len() {
        if !here[n].is_same(&there[n]) {
            return false;
        }
    }
    true
}

impl<T: Same> Same for Vec<T> {
    ghost same = { λ one two. SameItems T.same one.items two.items };

    fn is_same(&self, other: &Self) -> bool {
        are_same(self, other)
    }
}

impl<T: Same> Same for Option<T> {
    ghost same = { SameOption T.same };

    fn is_same(&self, other: &Self) -> bool {
        match (self, other) {
            (None, None) => true,
            (Some(here), Some(there)) => here.is_same(there),
            _ => false,
        }
    }
}
