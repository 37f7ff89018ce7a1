//! Reads that give one byte, and that fail.

use crate::fragment_text::ALL_CHANNELS;
use crate::streams::Breaking;
use std::alloc::Global;
use tl_beats::{ByteIn, FragmentFault, read_fragment};
use tl_text::{CountedReader, TextFault, read_text};

fn reader(fails_at: usize) -> Breaking {
    Breaking {
        text: ALL_CHANNELS,
        at: 0,
        fails_at,
    }
}

/// The fault of a text of at most so many bytes, or None where all of it was read; and how many reads failed.
fn text_fault(alloc: Global, fails_at: usize, limit: u32) -> (Option<TextFault>, u64) {
    let mut input = CountedReader::new(reader(fails_at));
    let fault = match read_text(alloc, &mut input, u64::from(limit)) {
        Ok(text) if text.as_slice() == ALL_CHANNELS.as_bytes() => None,
        Ok(_) => Some(TextFault::Memory),
        Err(fault) => Some(fault),
    };
    (fault, input.failures())
}

/// The same of a fragment, and how many beats it has.
fn fragment_fault(alloc: Global, fails_at: usize) -> Result<usize, FragmentFault> {
    let mut input = CountedReader::new(reader(fails_at));
    match read_fragment(alloc, &mut input) {
        Ok(fragment) => Ok(fragment.beats().len()),
        Err(fault) => Err(fault),
    }
}

#[test]
fn each_read_that_fails_is_told(rt: HostRuntime) {
    for fails_at in 0..=ALL_CHANNELS.len() {
        let (fault, failures) = text_fault(rt.alloc(), fails_at, 999);
        assert!(rt;
            fault == Some(TextFault::ReadFault) && failures == 1,
            "{fails_at}"
        );
        let fault = fragment_fault(rt.alloc(), fails_at);
        assert!(rt; fault == Err(FragmentFault::ReadFault), "{fails_at}");
    }
}

/// The text has 214 bytes. With a limit of 213 all that came before the last byte is within it.
#[test]
fn one_byte_a_read_is_the_whole_text(rt: HostRuntime) {
    assert!(rt; ALL_CHANNELS.len() == 214);
    assert!(rt; text_fault(rt.alloc(), 999, 214) == (None, 0));
    assert!(rt; text_fault(rt.alloc(), 999, 213) == (Some(TextFault::TooLong), 0));
    assert!(rt; fragment_fault(rt.alloc(), 999) == Ok(6));
}
