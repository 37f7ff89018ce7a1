//! Managers apart, and together again. Each is the contract of a function that does nothing.

ghost use Rattle.tl_formats.specs.JsonParts.{JsonPartsMakeTheWhole};
ghost use Rattle.tl_formats.specs.Parts.{PartsAreApart, PartsMakeTheWhole};

/// The report of some managers, of the fragments of their links alone, with their regions and the monitors of their links, has exactly
/// the rows of the report of all that are of their links.
pub fn parts_are_apart()
    ensures { PartsAreApart }
{}

/// The report of all managers is the merge of the reports of shares of which each manager is in one, whatever the line of a row is.
pub fn parts_make_the_whole<T>()
    ensures { PartsMakeTheWhole T }
{}

/// What parts write as lines of JSON is merged to what all managers together write, byte for byte, whatever the line of a row is, if it is
/// one line and tells the row's link.
pub fn json_parts_make_the_whole()
    ensures { JsonPartsMakeTheWhole }
{}
