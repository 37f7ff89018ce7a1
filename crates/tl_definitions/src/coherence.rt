//! One writer or many readers.

ghost use Rattle.tl_definitions.specs.Coherence.{GuardedCapturesAreCoherent, ReportedCapturesAreCoherent};

/// In a capture of one manager in which nothing beyond a bound is claimed (P1, P2) or granted (M1), at every position and
/// for every block, while one client may hold it to write, no other client may hold it at all.
#[tactic(auto, using(crate::proofs::CoherenceLaws::guarded_captures_are_coherent))]
pub fn guarded_captures_are_coherent()
    ensures { GuardedCapturesAreCoherent }
{}

/// So it is for each capture of a report without a row of these rules, and so wherever the report is clean.
pub fn reported_captures_are_coherent()
    ensures { ReportedCapturesAreCoherent }
{}
