//! Windows that one thread checks, one after the other.

ghost use Rattle.std.specs.Prelude.{◌≡◌};
ghost use Rattle.tl_workers.specs.Crew.{GoesOn};

use crate::shift::Shift;
use std::alloc::Global;
use std::sync::Wait;
use tl_desk::Piece;
use tl_hall::{Gate, Hall, Helper, Pass, Round, work_once};
use tl_monitor::Monitor;

/// How many windows may be checked again, beside one for each that is checked the first time, before the workers rest. Where what a
/// window leaves doesn't hang on what was before it, two checks of each are enough, and that is worth it where there are several
/// threads; where it does, each guess is wrong until the one before it is right.
const MOST_AGAIN: u32 = 2;

/// The windows that one thread checks, in a row. They come in the order of a report's windows but for those that are checked again.
#[derive(Drop)]
struct Stretch {
    last: Option<Piece>,
    fresh: u32,
    again: u32,
}

impl Stretch {
    fn new() -> Stretch {
        Stretch {
            last: None,
            fresh: 0,
            again: 0,
        }
    }

    /// Notes one more window, and answers whether too many are checked again.
    fn is_in_doubt(&mut self, piece: Piece) -> bool {
        if self.last.is_some_and(|last| is_not_behind(piece, last)) {
            self.again = self.again.saturating_add(1);
        } else {
            self.fresh = self.fresh.saturating_add(1);
        }
        self.last = Some(piece);
        self.again > self.fresh.saturating_add(MOST_AGAIN)
    }
}

/// Whether a window is another one or comes before it.
fn is_not_behind(piece: Piece, other: Piece) -> bool {
    match (piece, other) {
        (Piece::Manager(one, first), Piece::Manager(two, second)) => {
            one < two || one == two && first <= second
        }
        (Piece::Monitor(one, first), Piece::Monitor(two, second)) => {
            one < two || one == two && first <= second
        }
        (Piece::Manager(_, _), Piece::Monitor(_, _)) => true,
        (Piece::Monitor(_, _), Piece::Manager(_, _)) => false,
    }
}

/// Checks windows until there is none to be taken: whether memory sufficed. Where guesses are wrong the workers rest.
pub(crate) fn check_wanted<R: Wait, M: Monitor, G: Gate>(
    rt: &R,
    alloc: Global,
    hall: &Hall<M>,
    pass: Pass<M>,
    shift: &Shift<'_, '_, G>,
) -> (Pass<M>, bool)
    requires { pass.hall ≡ hall.now.hall }
    ensures { GoesOn pass result.0 }
{
    let mut pass = pass;
    let mut stretch = Stretch::new();
    for _ in rt.forever() {
        let (next, round) = work_once(rt, alloc, hall, pass, shift);
        pass = next;
        match round {
            Round::Taken(piece) | Round::Void(piece) | Round::Strange(piece) => {
                if stretch.is_in_doubt(piece) {
                    shift.give_up();
                }
            }
            Round::NoWindow => return (pass, true),
            Round::Refused(_) | Round::Abandoned(_) | Round::Lost(_) => return (pass, false),
        }
    }
    unreachable!()
}

/// Reads fragments ahead of their commands, and where enough are read checks windows ahead of a publish, of managers whose beats seem
/// to be whole. Where guesses are wrong, one worker alone goes on with these, since one that is alone needs none.
pub(crate) fn work_ahead<R: Wait, M: Monitor, G: Gate>(
    rt: &R,
    alloc: Global,
    hall: &Hall<M>,
    helper: Helper<M>,
    shift: &Shift<'_, '_, G>,
    is_first: bool,
) -> Helper<M>
    requires { helper.hall ≡ hall.now.hall }
    ensures { result.hall ≡ helper.hall }
{
    let mut helper = helper;
    let mut stretch = Stretch::new();
    let mut is_in_doubt = false;
    for _ in rt.forever() {
        if !shift.is_ahead() {
            return helper;
        }
        if shift.texts.read_next(rt, alloc) {
            continue;
        }
        if is_in_doubt || !shift.has_whole() {
            return helper;
        }
        let (next, round) = work_once(rt, alloc, hall, helper, shift);
        helper = next;
        match round {
            Round::Taken(piece) | Round::Void(piece) | Round::Strange(piece)
                if shift.seems_whole(piece) => {
                is_in_doubt = stretch.is_in_doubt(piece) && !is_first;
            }
            _ => shift.found_none_whole(),
        }
    }
    unreachable!()
}
