//! Requests, beats and rows that `==` tells apart, and requests whose clones are equal to them.

ghost use Rattle.std.proofs.Common.{rules};
ghost use Rattle.tl_beats.specs.Exact.{requests_exact, beats_exact, rows_exact};

use crate::{Beat, Request, Row};
use tl_same::{Exact, Faithful};

impl Exact for Request {
    ghost exact = { requests_exact (Prim.search rules) };
}

impl Exact for Beat {
    ghost exact = { beats_exact };
}

impl Exact for Row {
    ghost exact = { rows_exact };
}

impl Faithful for Request {
    ghost faithful = { λ x y h. h };
}
