//! What a report means.

ghost use Rattle.tl_check.specs.Clean.{GuardedReportsAreCoherent};

/// Where a report has no row of P1, P2 and M1, at every position of each manager's beats and for every block, while one client
/// may hold the block to write, no other client of the manager may hold it at all, whatever the regions are and whatever is
/// watched.
pub fn guarded_reports_are_coherent()
    ensures { GuardedReportsAreCoherent }
{}
