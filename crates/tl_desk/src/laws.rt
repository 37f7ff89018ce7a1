//! What follows for desks. Each is the contract of a function that does nothing.

ghost use Rattle.tl_desk.specs.Alike.{CallsKeepDesksAlike, PlaysKeepDesksAlike, RepliesFixTheDesk};
ghost use Rattle.tl_desk.specs.Laws.{OnlyEditsUnsettle, RecallsEndOne, MonitorsAreAccountedFor, BlankWindowsAreGiven};

use tl_monitor::Monitor;

/// Where all windows are settled, they are so after each call that is no edit: only an accepted edit makes a desk unsettled.
pub fn only_edits_unsettle()
    ensures { OnlyEditsUnsettle }
{}

/// A ticket that is called back is live no more, and every other is live exactly where it was.
pub fn recalls_end_one_ticket()
    ensures { RecallsEndOne }
{}

/// A monitor that some edit attached is attached now, or is out and the edit is known that detached it, or has ended: none is lost.
pub fn monitors_are_accounted_for()
    ensures { MonitorsAreAccountedFor }
{}

/// One call, with what it was given and what it answered, leads desks that have the same to desks that have the same.
pub fn calls_keep_desks_alike()
    ensures { CallsKeepDesksAlike }
{}

/// One list of steps with one list of replies leads desks that show the same to desks that show the same.
pub fn plays_keep_desks_alike<M: Monitor>()
    ensures { PlaysKeepDesksAlike M }
{}

/// Two runs of one list of steps from one desk that answer the same replies leave desks that show the same.
pub fn replies_fix_the_desk<M: Monitor>()
    ensures { RepliesFixTheDesk M }
{}

/// Where a desk has a window of a manager that has a beat and neither a result nor a live ticket, no None of a take is true, and no
/// `TookNone` of a list of steps.
pub fn blank_windows_are_given()
    ensures { BlankWindowsAreGiven }
{}
