//! Captures without an end: fragments as they come, and the rows of what is complete.
#![tactic(auto)]

mod ahead;
mod course;
mod ending;
mod fault;
mod feed;
mod front;
mod inputs;
pub mod laws;
mod listener;
mod lookout;
mod parsers;
mod past;
mod share;
mod stream;
mod teller;

pub use ahead::Ahead;
pub use fault::StreamFault;
pub use feed::{Cut, Feed, Sieve};
pub use inputs::{Source, StreamStop, stream_end, stream_input, stream_sources};
pub use listener::Listener;
pub use lookout::Lookout;
pub use parsers::{Parsed, Parsers};
pub use share::{Passed, Share};
pub use stream::{Rest, Stream};
pub use teller::{StreamCount, TellFault, Teller, tell_line};
