//! Values whose clones are equal to them.

ghost use Rattle.std.specs.Prelude.{◌≡◌, None, Some, refl};
ghost use Rattle.std.proofs.Common.{ap};
ghost use Rattle.tl_same.specs.Faithful.{pairs_faithful};

/// A type of which a clone is its source again.
pub trait Faithful: Clone {
    ghost faithful: { (x y : Self) → Self.is_clone x y → y ≡ x };
}

impl Faithful for () {
    ghost faithful = { λ x y h. h };
}

impl Faithful for bool {
    ghost faithful = { λ x y h. h };
}

impl Faithful for u8 {
    ghost faithful = { λ x y h. h };
}

impl Faithful for u16 {
    ghost faithful = { λ x y h. h };
}

impl Faithful for u32 {
    ghost faithful = { λ x y h. h };
}

impl Faithful for u64 {
    ghost faithful = { λ x y h. h };
}

impl<T: Faithful> Faithful for Option<T> {
    ghost faithful = { elim [ None ↦ elim [ None ↦ λ h. refl | Some y ↦ λ h. absurd h ] | Some x ↦ elim [ None ↦ λ h. absurd h | Some y ↦ λ h. ap Some (T.Faithful.faithful x y h) ] ] };
}

impl<A: Faithful, B: Faithful> Faithful for (A, B) {
    ghost faithful = { λ x y h. pairs_faithful A.Faithful.faithful B.Faithful.faithful x y h };
}
