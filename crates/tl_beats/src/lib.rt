//! Recorded beats, fragments of captures, and their text.
#![tactic(auto)]

mod beat_line;
mod exact;
mod fault;
mod fragment;
mod front_line;
mod front_number;
mod front_words;
mod laws;
mod places;
mod reading;
mod watch;
mod writing;

pub use fault::FragmentFault;
pub use fragment::Fragment;
pub use laws::{
    parts_have_one_answer, texts_end_by_themselves, texts_tell_fragments_apart,
    written_texts_are_read_back,
};
pub use reading::{parse_fragment, parse_whole_fragment, read_fragment};
use tl_tables::{Chan, Op, Rule};
pub use tl_text::{ByteIn, ByteOut};
pub use watch::{Class, Watch};
pub use writing::write_fragment;

/// One accepted beat, as it was recorded at the client's port. A field that its channel lacks is 0.
/// [TileLink 1.8: the signals of the five channels]
#[derive(Clone, Copy, Debug, PartialEq, Eq)]
pub struct Beat {
    /// The cycle of the manager's counter.
    pub cycle: u64,
    /// The channel that it was accepted on.
    pub chan: Chan,
    /// 0 to 7; 0 on E.
    pub opcode: u8,
    /// 0 to 7.
    pub param: u8,
    /// The exponent of the message's bytes, 0 to 15.
    pub size: u8,
    /// 0 to 65,535; on A to D.
    pub source: u16,
    /// 0 to 65,535; on D and E.
    pub sink: u16,
    /// In bytes; on A, B and C.
    pub address: u64,
    /// Bit i is byte lane i; on A and B.
    pub mask: u64,
    /// On D.
    pub denied: bool,
    /// On A to D.
    pub corrupt: bool,
}

/// A beat of a link, and where it is written.
#[derive(Clone, Copy, Debug, PartialEq, Eq)]
pub struct Placed {
    /// The number of the link.
    pub link: u16,
    /// The number of the fragment.
    pub fragment: u32,
    /// The line in the fragment's text; the header is line 1.
    pub line: u32,
    /// The beat.
    pub beat: Beat,
}

/// What a reply is compared with: the fields of the request that it answers.
#[derive(Clone, Copy, Debug, PartialEq, Eq)]
pub struct Request {
    /// The message of the request.
    pub op: Op,
    /// 0 to 7.
    pub param: u8,
    /// The exponent of the message's bytes, 0 to 15.
    pub size: u8,
    /// 0 to 65,535.
    pub source: u16,
    /// In bytes.
    pub address: u64,
}

/// A rule that a beat breaks. Rows stand in the order of link, cycle, channel, rule and monitor.
#[derive(Clone, Copy, Debug, PartialEq, Eq, PartialOrd, Ord)]
pub struct Row {
    /// The number of the link.
    pub link: u16,
    /// The cycle of the beat.
    pub cycle: u64,
    /// The channel of the beat.
    pub chan: Chan,
    /// The rule that the beat breaks.
    pub rule: Rule,
    /// The monitor of an X1.
    pub monitor: Option<u32>,
    /// The number of the fragment.
    pub fragment: u32,
    /// The line of the beat in its fragment's text; the header is line 1.
    pub line: u32,
}
