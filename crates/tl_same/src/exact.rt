//! Values that `==` tells apart.

ghost use Rattle.std.specs.Bool.{Decides};
ghost use Rattle.std.specs.Prelude.{◌≡◌};
ghost use Rattle.tl_same.specs.Exact.{nats_exact, options_exact, pairs_exact, units_exact};
ghost use Rattle.std.proofs.Common.{rules};

/// A type of which `==` says whether two values are one.
pub trait Exact: PartialEq {
    ghost exact: { (x y : Self) → Decides (Self.eq x y) (x ≡ y) };
}

impl Exact for () {
    ghost exact = { units_exact };
}

impl Exact for bool {
    ghost exact = { Prim.search rules };
}

impl Exact for u8 {
    ghost exact = { nats_exact };
}

impl Exact for u16 {
    ghost exact = { nats_exact };
}

impl Exact for u32 {
    ghost exact = { nats_exact };
}

impl Exact for u64 {
    ghost exact = { nats_exact };
}

impl<T: Exact> Exact for Option<T> {
    ghost exact = { options_exact T.Exact.exact };
}

impl<A: Exact, B: Exact> Exact for (A, B) {
    ghost exact = { pairs_exact A.Exact.exact B.Exact.exact };
}
