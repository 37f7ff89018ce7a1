//! What the texts of topologies keep among themselves.

ghost use Rattle.tl_topology.specs.Laws.{OneTextOneTopology, NoTextBeginsAnother, OneFirstFault, FaultOrTopology, VersionTwoAddsStrictLinks};

/// Two documents with one text are equal, in version and declarations, and so are their topologies.
#[tactic(auto, using(crate::proofs::TextLaws::one_text_one_topology))]
pub fn one_text_one_topology()
    ensures { OneTextOneTopology }
{}

/// No topology's text is a proper front of another's.
#[tactic(auto, using(crate::proofs::TextLaws::no_text_begins_another))]
pub fn no_text_begins_another()
    ensures { NoTextBeginsAnother }
{}

/// A text has at most one first fault.
pub fn one_first_fault()
    ensures { OneFirstFault }
{}

/// A text has a first fault exactly where it begins with no topology.
pub fn fault_or_topology()
    ensures { FaultOrTopology }
{}

/// Declarations are lawful in version 1 exactly where they are lawful in version 2 and make no strict link.
#[tactic(auto, using(crate::proofs::TextLaws::version_two_adds_strict_links))]
pub fn version_two_adds_strict_links()
    ensures { VersionTwoAddsStrictLinks }
{}
