//! How many beats a monitor is given.

use crate::bench::{Answer, Step, wrong};
use crate::texts::{FIRST_GET, OTHER_GET, SECOND_GET, THIRD_GET, TWO_GETS};
use std::test::Fail;

#[test]
fn a_monitor_is_given_a_later_window_again_where_its_tally_changes(
    rt: HostRuntime,
) -> Result<(), Fail> {
    // Each window has two beats. One Get for another: its window of the manager and of the monitor. One more: the later window of the
    // monitor too.
    let steps = [
        (Step::Add(FIRST_GET), Answer::Edit(1)),
        (Step::Add(SECOND_GET), Answer::Edit(2)),
        (Step::Add(THIRD_GET), Answer::Edit(3)),
        (Step::Attach(5, 9), Answer::Edit(4)),
        (Step::Calls, Answer::Calls(0, 0)),
        (Step::Recheck, Answer::Checked(6)),
        (Step::Calls, Answer::Calls(6, 0)),
        (Step::Recheck, Answer::Checked(0)),
        (Step::Replace(OTHER_GET), Answer::Edit(5)),
        (Step::Recheck, Answer::Checked(2)),
        (Step::Calls, Answer::Calls(8, 0)),
        (Step::Replace(TWO_GETS), Answer::Edit(6)),
        (Step::Recheck, Answer::Checked(3)),
        (Step::Calls, Answer::Calls(14, 0)),
    ];
    assert_eq!(rt; wrong(rt.alloc(), &steps)?, None);
    Ok(())
}
