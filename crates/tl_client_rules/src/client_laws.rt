//! What the definitions of bounds mean, and how a client's state stands for the beats of its link.

ghost use Rattle.tl_client_rules.specs.ClientLaws.{UnlawfulClaimsNothing, OtherBlocksStay, OnlyBlocksAreHeld, PermissionsNeedTheirLinkAlone, HeadsAreStoodFor, LaterBeatsAreStoodFor, FoundRulesAreBroken};

/// A message whose param is not lawful sets no bound, and claims nothing that a rule could forbid.
pub fn unlawful_claims_nothing()
    ensures { UnlawfulClaimsNothing }
{}

/// A message leaves the bounds of the blocks that it does not set.
pub fn other_blocks_stay()
    ensures { OtherBlocksStay }
{}

/// Where no block begins, nothing is held, and no Probe or Grant is open.
pub fn only_blocks_are_held()
    ensures { OnlyBlocksAreHeld }
{}

/// The permission rules of a head need the messages of its own link and no others.
pub fn permissions_need_their_link_alone()
    ensures { PermissionsNeedTheirLinkAlone }
{}

/// A state that stands for the beats of a link before a head, and is stepped by it, stands for the beats with it.
pub fn heads_are_stood_for()
    ensures { HeadsAreStoodFor }
{}

/// A state that is not stepped by a later beat stands for the beats with it.
pub fn later_beats_are_stood_for()
    ensures { LaterBeatsAreStoodFor }
{}

/// The flow and permission rules that such states find are those that the head breaks among all beats of its manager.
pub fn found_rules_are_broken()
    ensures { FoundRulesAreBroken }
{}
