//! What follows for histories.

ghost use Rattle.tl_hall.specs.Desks.{OneHistoryLeadsToOneDesk, FreeWindowsAreGiven, CheckedDesksAreReady, TouchedWindowsAreGiven, ReportsStayReady};
ghost use Rattle.tl_hall.specs.Telling.{HistoriesTell, EditsAreCounted, AttachesAreCounted, VersionsAreCounted};

/// The edits, the number of reports, and the version of the latest one with the number of edits that it speaks of, all of them of
/// the desk that a history leads to, are told by the history alone.
pub fn histories_tell()
    ensures { HistoriesTell }
{}

/// The number of an edit is how many edits there are in the history that ends with it.
pub fn edits_are_counted()
    ensures { EditsAreCounted }
{}

/// The same of an edit that attached a monitor.
pub fn attaches_are_counted()
    ensures { AttachesAreCounted }
{}

/// A version is how many reports were published in the history that ends with it.
pub fn versions_are_counted()
    ensures { VersionsAreCounted }
{}

/// One history leads to one desk: two desks that it leads to have the same log, reports and tickets, the same result and the same
/// live ticket of each window, and the same monitors here, out and ended.
pub fn one_history_leads_to_one_desk()
    ensures { OneHistoryLeadsToOneDesk }
{}

/// Where a history leads to a desk that has a window to take, no None of a take is true after it.
pub fn free_windows_are_given()
    ensures { FreeWindowsAreGiven }
{}

/// Where a history leads to a desk whose windows are all checked, no NotReady of a publish is true after it.
pub fn checked_desks_are_ready()
    ensures { CheckedDesksAreReady }
{}

/// Where a history ends with edits, of which the first touches a window of a manager that has a beat there in the end, no None of a
/// take is true after it.
pub fn touched_windows_are_given()
    ensures { TouchedWindowsAreGiven }
{}

/// Where no edit came after a report, no NotReady of a publish is true.
pub fn reports_stay_ready()
    ensures { ReportsStayReady }
{}
