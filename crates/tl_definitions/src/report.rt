//! The report has one answer.

ghost use Rattle.tl_definitions.specs.Report.{RulesRise, RowsAreBreaks, OneReport, SortedRowsAreTheReport, ReportsAreComputed, RisingBeatsHaveOnePlace};

/// The rules of one beat stand in the order of reports, each once.
#[tactic(auto, using(crate::proofs::RuleLaws::rules_rise))]
pub fn rules_rise()
    ensures { RulesRise }
{}

/// A row is among those of a capture if and only if its beat breaks its rule.
pub fn rows_are_breaks()
    ensures { RowsAreBreaks }
{}

/// There is at most one report of given captures.
pub fn one_report()
    ensures { OneReport }
{}

/// All rows of captures, in strict order, are the report, where the beats of one link, cycle and channel have one place.
pub fn sorted_rows_are_the_report()
    ensures { SortedRowsAreTheReport }
{}

/// So there is a report, and it can be computed.
pub fn reports_are_computed()
    ensures { ReportsAreComputed }
{}

/// Beats that rise strictly stand at one place each, in one capture and in several that share no link.
pub fn rising_beats_have_one_place()
    ensures { RisingBeatsHaveOnePlace }
{}
