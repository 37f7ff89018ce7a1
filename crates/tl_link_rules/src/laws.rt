//! What the definitions of open requests mean, and how the messages of a link follow from its beats.

ghost use Rattle.tl_link_rules.specs.Laws.{OpenedStaysOpen, RepliesCloseTheirSource, RepliesLeaveNoRequest, HeadsAreMessages, LaterBeatsAreNoMessages, LinksAreApart, FlowNeedsItsLinkAlone, HeadsAreStoodFor, LaterBeatsAreStoodFor, FoundRulesAreBroken};

/// Where a key was opened and no newer message closed it, some opener of that key is open: a request, a Release, a Grant.
#[tactic(auto, using(crate::proofs::OpenLaws::opened_stays_open))]
pub fn opened_stays_open()
    ensures { OpenedStaysOpen }
{}

/// A reply that answers a request closes its source, whatever rules it breaks.
#[tactic(auto, using(crate::proofs::OpenLaws::replies_close_their_source))]
pub fn replies_close_their_source()
    ensures { RepliesCloseTheirSource }
{}

/// After a reply no request is in flight on its source, whether it answered one or not.
#[tactic(auto, using(crate::proofs::OpenLaws::replies_leave_no_request))]
pub fn replies_leave_no_request()
    ensures { RepliesLeaveNoRequest }
{}

/// The messages of a link are its heads.
#[tactic(auto, using(crate::proofs::LinkLaws::heads_are_messages))]
pub fn heads_are_messages()
    ensures { HeadsAreMessages }
{}

/// A state that stands for the messages of a link still does after a later beat.
#[tactic(auto, using(crate::proofs::LinkLaws::later_beats_are_no_messages))]
pub fn later_beats_are_no_messages()
    ensures { LaterBeatsAreNoMessages }
{}

/// And after a beat of another link.
#[tactic(auto, using(crate::proofs::LinkLaws::links_are_apart))]
pub fn links_are_apart()
    ensures { LinksAreApart }
{}

/// The flow rules of a head need the messages of its own link and no others.
#[tactic(auto, using(crate::proofs::LinkLaws::flow_needs_its_link_alone))]
pub fn flow_needs_its_link_alone()
    ensures { FlowNeedsItsLinkAlone }
{}

/// A state that stands for the beats of a link before a head, and is stepped by it, stands for the beats with it.
pub fn heads_are_stood_for()
    ensures { HeadsAreStoodFor }
{}

/// A state that is not stepped by a later beat stands for the beats with it.
pub fn later_beats_are_stood_for()
    ensures { LaterBeatsAreStoodFor }
{}

/// The flow rules that such a state finds are those that the head breaks among all beats of its manager.
pub fn found_rules_are_broken()
    ensures { FoundRulesAreBroken }
{}
