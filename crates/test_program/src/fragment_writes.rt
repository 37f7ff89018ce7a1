//! Writes that take one byte, that fail, and that take nothing.

use crate::fragment_text::ALL_CHANNELS;
use crate::streams::{Full, writer_with};
use std::alloc::Global;
use std::test::Fail;
use tl_beats::{ByteOut, Fragment, FragmentFault, parse_whole_fragment, write_fragment};
use tl_text::CountedWriter;

/// What writing the fragment answers, how many writes failed, and whether just the first `room` bytes of its text were written.
fn written(
    alloc: Global,
    fragment: &Fragment,
    room: usize,
    full: Full,
) -> (Result<(), FragmentFault>, u64, bool) {
    let mut slow = writer_with(alloc, room, full);
    let mut out = CountedWriter::new(&mut slow);
    let answer = write_fragment(fragment, &mut out);
    let failures = out.failures();
    let is_front = Some(slow.bytes.as_slice()) == ALL_CHANNELS.as_bytes().get(..room);
    (answer, failures, is_front)
}

#[test]
fn each_write_of_a_fragment_that_fails_is_told(rt: HostRuntime) -> Result<(), Fail> {
    let fragment = parse_whole_fragment(rt.alloc(), ALL_CHANNELS.as_bytes())?;
    for room in 0..ALL_CHANNELS.len() {
        for full in [Full::Fails, Full::TakesNothing] {
            let (answer, failures, is_front) = written(rt.alloc(), &fragment, room, full);
            assert!(rt;
                answer == Err(FragmentFault::WriteFault) && failures == 1,
                "{room}"
            );
            assert!(rt; is_front, "{room}");
        }
    }
    let all = written(rt.alloc(), &fragment, ALL_CHANNELS.len(), Full::Fails);
    assert!(rt; all == (Ok(()), 0, true));
    Ok(())
}
