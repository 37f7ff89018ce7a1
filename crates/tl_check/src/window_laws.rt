//! What follows for states and for results of windows.

ghost use Rattle.tl_check.specs.Laws.{SameStatesShowTheSame, SameStatesAreOfOneManager, StatesKnowNoRegions, SameStatesStandForTheSame, JoinedResultsAreWhole, CleanResultsAreCoherent};

/// Two states of one manager are the same exactly where they show the same.
pub fn same_states_show_the_same()
    ensures { SameStatesShowTheSame }
{}

/// A state that is the same as one of a manager is one of that manager.
pub fn same_states_are_of_one_manager()
    ensures { SameStatesAreOfOneManager }
{}

/// A state of a manager is one of the same manager with other regions.
pub fn states_know_no_regions()
    ensures { StatesKnowNoRegions }
{}

/// A state that is the same as one that stands for beats stands for them.
pub fn same_states_stand_for_the_same()
    ensures { SameStatesStandForTheSame }
{}

/// Results of which the first begins with the opening state, and each other where the one before it ended, have the rows of all
/// their beats.
pub fn joined_results_are_whole()
    ensures { JoinedResultsAreWhole }
{}

/// Where results joined so have no row of P1, P2 or M1, at every position of all their beats and for every block, while one
/// client may hold the block to write, no other client of the manager may hold it at all. [TileLink 1.8: coherence]
pub fn clean_results_are_coherent()
    ensures { CleanResultsAreCoherent }
{}
