//! What the definitions of heads, open tables, requests and bounds mean.

ghost use Rattle.tl_definitions.specs.Laws.{HeadsAreByBursts, LaterBeatsHaveAHead, OneBeatIsAll, OneBeatMessagesAreHeads, MessagesOwnTheirBeats, UnfinishedIsTheRest, EntriesAreOpen, OneEntry, CountsAreOfOpen, BlockCountsAreOfOpen, RequestsAreOpen, FittingRepliesAreSound, NoMessageBreaksF1Alone, FormatNeedsNoPast, BlocksHoldTheirAddresses, BoundsAreLastSet, DeniedGivesNothing, ReleaseLeaves, StrictClaimsAreTheBound, OnlyGrantsRaise};

/// A beat is a head exactly where it is the first of its channel, or a head's beats end right before it.
#[tactic(auto, using(crate::proofs::HeadLaws::heads_by_bursts))]
pub fn heads_are_by_bursts()
    ensures { HeadsAreByBursts }
{}

/// A later beat has a head, the greatest below it.
#[tactic(auto, using(crate::proofs::HeadLaws::later_beats_have_a_head))]
pub fn later_beats_have_a_head()
    ensures { LaterBeatsHaveAHead }
{}

/// A head of one beat is followed by a head.
#[tactic(auto, using(crate::proofs::HeadLaws::one_beat_is_all))]
pub fn one_beat_is_all()
    ensures { OneBeatIsAll }
{}

/// Where each message has one beat, each beat is a head.
#[tactic(auto, using(crate::proofs::HeadLaws::one_beat_messages_are_heads))]
pub fn one_beat_messages_are_heads()
    ensures { OneBeatMessagesAreHeads }
{}

/// A head of n beats owns exactly the n - 1 beats that follow it on its channel.
pub fn messages_own_their_beats()
    ensures { MessagesOwnTheirBeats }
{}

/// What a past leaves unfinished is the last head, with the number of its beats that have not come.
pub fn unfinished_is_the_rest()
    ensures { UnfinishedIsTheRest }
{}

/// What a table finds under a key is the opener that is open on it.
pub fn entries_are_open()
    ensures { EntriesAreOpen }
{}

/// A key has at most one open entry.
pub fn one_entry()
    ensures { OneEntry }
{}

/// A count of open entries is above 0 exactly where one of them is of the kind that it counts.
pub fn counts_are_of_open()
    ensures { CountsAreOfOpen }
{}

/// So are the counts of Acquires, Releases and Grants that are open on a block.
pub fn block_counts_are_of_open()
    ensures { BlockCountsAreOfOpen }
{}

/// The request that a head on D answers is the one that is open on its source.
pub fn requests_are_open()
    ensures { RequestsAreOpen }
{}

/// A head whose opcode is no message breaks F1 alone.
#[tactic(auto, using(crate::proofs::SanityLaws::no_message_breaks_f1_alone))]
pub fn no_message_breaks_f1_alone()
    ensures { NoMessageBreaksF1Alone }
{}

/// The format rules that a head breaks need no beats before it.
pub fn format_needs_no_past()
    ensures { FormatNeedsNoPast }
{}

/// A reply of the right kind and size to an open request breaks none of S2, S3 and S4.
#[tactic(auto, using(crate::proofs::SanityLaws::fitting_replies_are_sound))]
pub fn fitting_replies_are_sound()
    ensures { FittingRepliesAreSound }
{}

/// An address lies in its block.
#[tactic(auto, using(crate::proofs::SanityLaws::blocks_hold_their_addresses))]
pub fn blocks_hold_their_addresses()
    ensures { BlocksHoldTheirAddresses }
{}

/// A bound is what the last message sets that sets it.
#[tactic(auto, using(crate::proofs::BoundLaws::bounds_are_last_set))]
pub fn bounds_are_last_set()
    ensures { BoundsAreLastSet }
{}

/// A denied Grant leaves all bounds, and so raises none.
#[tactic(auto, using(crate::proofs::BoundLaws::denied_gives_nothing))]
pub fn denied_gives_nothing()
    ensures { DeniedGivesNothing }
{}

/// A ProbeAck or Release with a lawful param leaves its client what it says, and so nothing above that.
#[tactic(auto, using(crate::proofs::BoundLaws::release_leaves))]
pub fn release_leaves()
    ensures { ReleaseLeaves }
{}

/// On a strict link a claim breaks neither P1 nor P2 exactly where it is the bound.
#[tactic(auto, using(crate::proofs::BoundLaws::strict_claims_are_the_bound))]
pub fn strict_claims_are_the_bound()
    ensures { StrictClaimsAreTheBound }
{}

/// Only Grants raise a bound, where no client claims more than it can hold.
#[tactic(auto, using(crate::proofs::BoundLaws::only_grants_raise))]
pub fn only_grants_raise()
    ensures { OnlyGrantsRaise }
{}
