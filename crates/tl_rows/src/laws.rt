//! What the reasons of broken rules mean. These calls do nothing: each is there for what it promises.

ghost use Rattle.tl_rows.specs.Meanings.{BrokenRulesHaveTheirReason};
ghost use Rattle.tl_rows.specs.Telling.{BrokenRowsAreTold};

/// Each rule that a beat breaks has the reason that is meant: the opener that is open, the last message that set the bound, the
/// head of the burst; and none where there is none.
pub fn broken_rules_have_their_reason()
    ensures { BrokenRulesHaveTheirReason }
{}

/// Each row whose beat breaks its rule is told, with the reason of that beat.
pub fn broken_rows_are_told()
    ensures { BrokenRowsAreTold }
{}
