//! What follows for results of windows.

ghost use Rattle.tl_pieces.specs.BoardLaws.{ResultsMoveOn};

use tl_same::Same;

/// Where the first piece that is wanted gets a result whose entry is what a job for it starts from, the first that is wanted then
/// stands after it. So each piece is checked at most once on the way to a board where none is wanted.
pub fn results_move_on<S: Same, R>()
    ensures { ResultsMoveOn S R S.same }
{}
