//! Windows that go out under tickets while edits go on, and what comes back.

use crate::bench::{Answer, Step, wrong};
use crate::texts::{FIRST_GET, MISALIGNED_GET, SECOND_GET, THIRD_GET};
use std::test::Fail;
use tl_desk::Piece;

#[test]
fn a_recalled_ticket_is_void_and_its_window_goes_out_again(rt: HostRuntime) -> Result<(), Fail> {
    let steps = [
        (Step::Recall(1), Answer::None),
        (Step::Add(FIRST_GET), Answer::Edit(1)),
        (Step::Publish, Answer::Refused(31)),
        (Step::Take, Answer::Out(1, Piece::Manager(0, 0))),
        (Step::Take, Answer::None),
        (Step::Recall(1), Answer::Recalled),
        (Step::Recall(1), Answer::None),
        (Step::Recall(2), Answer::None),
        (Step::Take, Answer::Out(2, Piece::Manager(0, 0))),
        (Step::Work(0), Answer::Worked),
        (Step::Work(1), Answer::Worked),
        (Step::HandIn(0), Answer::Void),
        (Step::Settled, Answer::Settled(false)),
        (Step::HandIn(1), Answer::Taken),
        (Step::Settled, Answer::Settled(true)),
        (Step::HandIn(1), Answer::None),
        (Step::Take, Answer::None),
    ];
    assert_eq!(rt; wrong(rt.alloc(), &steps)?, None);
    Ok(())
}

#[test]
fn the_oldest_ticket_is_the_lowest_that_is_live(rt: HostRuntime) -> Result<(), Fail> {
    let steps = [
        (Step::Oldest, Answer::None),
        (Step::Add(FIRST_GET), Answer::Edit(1)),
        (Step::Add(SECOND_GET), Answer::Edit(2)),
        (Step::Add(THIRD_GET), Answer::Edit(3)),
        (Step::Oldest, Answer::None),
        (Step::Take, Answer::Out(1, Piece::Manager(0, 0))),
        (Step::Take, Answer::Out(2, Piece::Manager(0, 1))),
        (Step::Take, Answer::Out(3, Piece::Manager(0, 2))),
        (Step::Oldest, Answer::Oldest(1)),
        (Step::Replace(MISALIGNED_GET), Answer::Edit(4)),
        (Step::Oldest, Answer::Oldest(2)),
        (Step::Recall(2), Answer::Recalled),
        (Step::Oldest, Answer::Oldest(3)),
        (Step::Work(2), Answer::Worked),
        (Step::HandIn(2), Answer::Taken),
        (Step::Oldest, Answer::None),
        (Step::Take, Answer::Out(4, Piece::Manager(0, 0))),
        (Step::Oldest, Answer::Oldest(4)),
        (Step::Abandon(3), Answer::Abandoned),
        (Step::Oldest, Answer::None),
    ];
    assert_eq!(rt; wrong(rt.alloc(), &steps)?, None);
    Ok(())
}

#[test]
fn what_another_desk_gave_out_is_a_stranger(rt: HostRuntime) -> Result<(), Fail> {
    let steps = [
        (Step::Add(FIRST_GET), Answer::Edit(1)),
        (Step::Stray, Answer::Back),
        (Step::HandIn(0), Answer::Stranger),
        (Step::Settled, Answer::Settled(false)),
        (Step::Back(0), Answer::Back),
        (Step::Abandon(0), Answer::Stranger),
        (Step::Take, Answer::Out(1, Piece::Manager(0, 0))),
    ];
    assert_eq!(rt; wrong(rt.alloc(), &steps)?, None);
    Ok(())
}
