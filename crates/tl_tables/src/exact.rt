//! Messages and permissions that `==` tells apart, and whose clones are equal to them.

ghost use Rattle.std.proofs.Common.{rules};

use crate::{Op, Perm};
use tl_same::{Exact, Faithful};

impl Exact for Op {
    ghost exact = { Prim.search rules };
}

impl Exact for Perm {
    ghost exact = { Prim.search rules };
}

impl Faithful for Op {
    ghost faithful = { λ x y h. h };
}

impl Faithful for Perm {
    ghost faithful = { λ x y h. h };
}
