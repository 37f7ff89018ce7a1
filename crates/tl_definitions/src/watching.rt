//! Watches: judging by tallies, and what is flagged in captures that are written out.

ghost use Rattle.tl_definitions.specs.Tallies.{TalliesAreExact, TalliesAreKept, WatchedChainsAreWhole};
ghost use Rattle.tl_definitions.specs.Watching.{RowsAreFlags};
ghost use Rattle.tl_definitions.specs.WatchedRows.{WatchRows};

/// Judging a beat by the tally of any beats of its link flags what the watch flags after them, and gives the tally of them all.
#[tactic(auto, using(crate::proofs::WatchLaws::tallies_are_exact))]
pub fn tallies_are_exact()
    ensures { TalliesAreExact }
{}

/// A monitor that is given the tally of its link's beats keeps that.
#[tactic(auto, using(crate::proofs::WatchLaws::tallies_are_kept))]
pub fn tallies_are_kept()
    ensures { TalliesAreKept }
{}

/// A row is among those of a watch if and only if the watch flags its beat.
pub fn rows_are_flags()
    ensures { RowsAreFlags }
{}

/// Results of windows that join from a tally of 0 on flag what the watch flags in all their beats.
pub fn watched_chains_are_whole()
    ensures { WatchedChainsAreWhole }
{}

/// Beats that a Budget and an After flag, and ones that they don't.
#[tactic(auto, using(crate::proofs::RowLaws::watch_rows))]
pub fn watch_rows()
    ensures { WatchRows }
{}
