//! What follows for streams of some managers each. Each law is the contract of a function that does nothing.

ghost use Rattle.tl_commands.specs.Streams.{StreamsAreApart};

/// What a stream of the fragments of some managers tells, in the order of reports, are exactly the rows of what a stream of all tells that
/// are of their links.
pub fn streams_are_apart()
    ensures { StreamsAreApart }
{}
