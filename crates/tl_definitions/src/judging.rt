//! Judging by snapshots, window by window.

ghost use Rattle.tl_definitions.specs.Judging.{JudgingIsExact, ChainsAreWhole, SortedRowsAreAPass, FirstPassesAreReports};

/// Judging a beat by the snapshot of any beats gives the rules that it breaks after them, and the snapshot of them all.
pub fn judging_is_exact()
    ensures { JudgingIsExact }
{}

/// Results of windows that join from the beginning on have the rows of all their beats.
pub fn chains_are_whole()
    ensures { ChainsAreWhole }
{}

/// What judging beats in strict order finds, put in strict order, is a pass.
#[tactic(auto, using(crate::proofs::PassLaws::sorted_rows_are_a_pass))]
pub fn sorted_rows_are_a_pass()
    ensures { SortedRowsAreAPass }
{}

/// A pass from the beginning has the report of its beats.
#[tactic(auto, using(crate::proofs::PassLaws::first_passes_are_reports))]
pub fn first_passes_are_reports()
    ensures { FirstPassesAreReports }
{}
