//! Monitors that go out with a job, while edits go on, and come back or end.

use crate::bench::{Answer, Step, wrong};
use crate::texts::{FIRST_GET, ONE_GET, SECOND_GET};
use std::test::Fail;
use tl_beats::Row;
use tl_desk::Piece;
use tl_tables::{Chan, Rule};

#[test]
fn a_tally_goes_from_job_to_job(rt: HostRuntime) -> Result<(), Fail> {
    // The monitor goes to one job at a time, sees each beat once, and flags the second Get.
    let flagged = Row {
        link: 2,
        cycle: 5000,
        chan: Chan::A,
        rule: Rule::X1,
        monitor: Some(6),
        fragment: 2,
        line: 2,
    };
    let steps = [
        (Step::Add(FIRST_GET), Answer::Edit(1)),
        (Step::Add(SECOND_GET), Answer::Edit(2)),
        (Step::Attach(6, 1), Answer::Edit(3)),
        (Step::Take, Answer::Out(1, Piece::Manager(0, 0))),
        (Step::Work(0), Answer::Worked),
        (Step::HandIn(0), Answer::Taken),
        (Step::Take, Answer::Out(2, Piece::Manager(0, 1))),
        (Step::Work(1), Answer::Worked),
        (Step::HandIn(1), Answer::Taken),
        (Step::Take, Answer::Out(3, Piece::Monitor(6, 0))),
        (Step::Take, Answer::None),
        (Step::Work(2), Answer::Worked),
        (Step::HandIn(2), Answer::Taken),
        (Step::Take, Answer::Out(4, Piece::Monitor(6, 1))),
        (Step::Work(3), Answer::Worked),
        (Step::HandIn(3), Answer::Taken),
        (Step::Take, Answer::None),
        (Step::Publish, Answer::Version(1)),
        (Step::Latest, Answer::Report(1, 3, 1, Some(flagged))),
        (Step::Calls, Answer::Calls(4, 0)),
    ];
    assert_eq!(rt; wrong(rt.alloc(), &steps)?, None);
    Ok(())
}

#[test]
fn a_check_waits_for_a_monitor_until_its_detach(rt: HostRuntime) -> Result<(), Fail> {
    let steps = [
        (Step::Add(ONE_GET), Answer::Edit(1)),
        (Step::Attach(5, 0), Answer::Edit(2)),
        (Step::Take, Answer::Out(1, Piece::Manager(0, 0))),
        (Step::Take, Answer::Out(2, Piece::Monitor(5, 0))),
        (Step::Recheck, Answer::BoxOut(5)),
        (Step::Detach(5), Answer::Edit(3)),
        (Step::Ended, Answer::Ended(0, None)),
        (Step::Calls, Answer::Calls(0, 0)),
        (Step::Work(1), Answer::Worked),
        (Step::HandIn(1), Answer::Void),
        (Step::Ended, Answer::Ended(1, Some((5, 0, 3)))),
        (Step::Calls, Answer::Calls(2, 1)),
    ];
    assert_eq!(rt; wrong(rt.alloc(), &steps)?, None);
    Ok(())
}

#[test]
fn a_monitor_that_is_detached_with_no_window_left_ends_as_it_is_abandoned(
    rt: HostRuntime,
) -> Result<(), Fail> {
    let steps = [
        (Step::Add(ONE_GET), Answer::Edit(1)),
        (Step::Attach(5, 0), Answer::Edit(2)),
        (Step::Take, Answer::Out(1, Piece::Manager(0, 0))),
        (Step::Take, Answer::Out(2, Piece::Monitor(5, 0))),
        (Step::Withdraw, Answer::Edit(3)),
        (Step::Recheck, Answer::Checked(0)),
        (Step::Detach(5), Answer::Edit(4)),
        (Step::Publish, Answer::Version(1)),
        (Step::Latest, Answer::Report(1, 4, 0, None)),
        (Step::Ended, Answer::Ended(0, None)),
        (Step::Abandon(0), Answer::Abandoned),
        (Step::Abandon(1), Answer::Abandoned),
        (Step::Ended, Answer::Ended(1, Some((5, 0, 4)))),
        (Step::Calls, Answer::Calls(0, 1)),
    ];
    assert_eq!(rt; wrong(rt.alloc(), &steps)?, None);
    Ok(())
}
