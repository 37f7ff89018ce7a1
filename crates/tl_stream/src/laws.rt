//! What follows for what streams tell. Each is the contract of a function that does nothing.

ghost use Rattle.tl_stream.specs.Laws.{TellingIsWhole, StreamsTellTheReport, StreamsTellWhatIsPrinted};

/// What a stream told of a manager, and after it what it tells at its end, are all rows of the manager, in the order of positions.
pub fn telling_is_whole()
    ensures { TellingIsWhole }
{}

/// The rows that a stream told by its end, in the order of reports, are the report of all fragments that it accepted.
pub fn streams_tell_the_report()
    ensures { StreamsTellTheReport }
{}

/// The rows that a stream told by its end, where nobody recorded the first beats, are those that are printed of all fragments that it
/// accepted.
pub fn streams_tell_what_is_printed()
    ensures { StreamsTellWhatIsPrinted }
{}
