//! Captures from the middle of a run, of which nobody recorded the past: which rows of such a capture are rows whatever came
//! before it. The definitions stand in `specs/`; the functions here run nothing, and carry the laws as their contracts.

ghost use Rattle.tl_definitions.specs.MidwayLaws.{LawfulPastsLeaveAtMost, KnownSnapshotsAllow, PrintedRowsAreCertain, AnyPastHasPrintedRows, PastsOfWholeMessagesHavePrintedRows, PrintedRowsAreOfThePlainReport, ToldRowsAreCertain, PrintedRulesRise, KnownKeysAreOfTheCapture};

/// A past without a row of its own leaves at most the largest message of a link unfinished, but for its first beat.
#[tactic(auto, using(crate::proofs::Lengths::lawful_pasts_leave_at_most))]
pub fn lawful_pasts_leave_at_most()
    ensures { LawfulPastsLeaveAtMost }
{}

/// What is known after a front of the capture allows what each lawful past followed by that front leaves.
#[tactic(auto, using(crate::proofs::MidwayLaws::known_snapshots_allow))]
pub fn known_snapshots_allow()
    ensures { KnownSnapshotsAllow }
{}

/// A printed row is a row of each lawful past followed by the capture, where the past leaves no more beats of a message
/// missing than the beginning has it.
pub fn printed_rows_are_certain()
    ensures { PrintedRowsAreCertain }
{}

/// So it is for any lawful past.
#[tactic(auto, using(crate::proofs::MidwayLaws::any_past_has_printed_rows))]
pub fn any_past_has_printed_rows()
    ensures { AnyPastHasPrintedRows }
{}

/// And, with more rows, for any lawful past that ends between messages on each channel.
#[tactic(auto, using(crate::proofs::MidwayLaws::pasts_of_whole_messages_have_printed_rows))]
pub fn pasts_of_whole_messages_have_printed_rows()
    ensures { PastsOfWholeMessagesHavePrintedRows }
{}

/// Printed rows are among those of the capture judged as if nothing came before it.
pub fn printed_rows_are_of_the_plain_report()
    ensures { PrintedRowsAreOfThePlainReport }
{}

/// Where bursts are told by their fields: for any lawful past, a beat of a lead-in differs from its head, or each printed row
/// is a row of the past followed by the capture.
pub fn told_rows_are_certain()
    ensures { ToldRowsAreCertain }
{}

/// The printed rules of a beat stand in the order of reports, each once.
#[tactic(auto, using(crate::proofs::PrintedRising::printed_rules_rise))]
pub fn printed_rules_rise()
    ensures { PrintedRulesRise }
{}

/// A key that is known to be open was opened by a beat of the capture.
pub fn known_keys_are_of_the_capture()
    ensures { KnownKeysAreOfTheCapture }
{}
