//! Calls on a fragment and a table that the program has no need of.

use std::test::Fail;
use tl_beats::{Beat, Fragment, parse_fragment};
use tl_tables::{Chan, Rule};

const TEXT: &str =
    "fragment dma0 4294967295 7 18446744073709551615\n7 A 1 2 3 65535 ffffffffffffffff 80 1\n8 D 6 3 15 4 5 1 0\nend\nmore";

const REQUEST: Beat = Beat {
    cycle: 7,
    chan: Chan::A,
    opcode: 1,
    param: 2,
    size: 3,
    source: 65535,
    sink: 0,
    address: u64::MAX,
    mask: 0x80,
    denied: false,
    corrupt: true,
};

const REPLY: Beat = Beat {
    cycle: 8,
    chan: Chan::D,
    opcode: 6,
    param: 3,
    size: 15,
    source: 4,
    sink: 5,
    address: 0,
    mask: 0,
    denied: true,
    corrupt: false,
};

/// Whether these are the parts of the fragment at the front of the text.
fn has_its_parts(fragment: &Fragment) -> bool {
    fragment.link().as_str() == "dma0"
        && fragment.number() == u32::MAX
        && fragment.first() == 7
        && fragment.last() == u64::MAX
        && fragment.beats() == [REQUEST, REPLY].as_slice()
}

#[test]
fn a_fragment_in_front_of_more_is_read_and_copied(rt: HostRuntime) -> Result<(), Fail> {
    let (fragment, used) = parse_fragment(rt.alloc(), TEXT.as_bytes())?;
    assert!(rt; used == TEXT.len() - 4 && has_its_parts(&fragment));
    assert!(rt; has_its_parts(&fragment.copy(rt.alloc())?));
    Ok(())
}

/// Lists of rules fill their unused places with it.
#[test]
fn the_default_rule_is_the_first(rt: HostRuntime) {
    assert!(rt; Rule::default() == Rule::F1);
}
