//! Where beats stand, and the order of positions.

ghost use Rattle.tl_definitions.specs.Positions.{PositionsAreOrdered, LinesAreIndexes, RangesRise, BeatsAreOfFragments, BeatsAreInOrder};

/// Positions have a total order: by cycle, then channel, then link, and beats tie only where all three are the same.
pub fn positions_are_ordered()
    ensures { PositionsAreOrdered }
{}

/// A beat's line is its index in its fragment, from 0, plus 2.
pub fn lines_are_indexes()
    ensures { LinesAreIndexes }
{}

/// Fragments in the order of their ranges are the same fragments, and none begins before an earlier one.
pub fn ranges_rise()
    ensures { RangesRise }
{}

/// The beats of a link are those of its fragments.
pub fn beats_are_of_fragments()
    ensures { BeatsAreOfFragments }
{}

/// The beats of several links are those of their fragments, in the order of positions.
pub fn beats_are_in_order()
    ensures { BeatsAreInOrder }
{}
