//! Faults in the words that a user of the libraries prints.

use crate::printed::are_printed;
use tl_beats::FragmentFault;
use tl_text::{ReadFailed, TextFault, WriteFault};
use tl_topology::{RegionFault, TopoFault};

const TOPOLOGY: [(TopoFault, &str); 10] = [
    (TopoFault::BadLine(1), "line 1 is no line of a topology"),
    (TopoFault::NameTwice(2), "line 2 declares a name again"),
    (
        TopoFault::BadWidth(3),
        "line 3 has a width that is no power of two from 1 to 64",
    ),
    (
        TopoFault::BadBlock(4),
        "line 4 has a block that is no power of two from 8 to 4096",
    ),
    (
        TopoFault::NoManager(5),
        "line 5 names a manager that no earlier line declares",
    ),
    (
        TopoFault::TooManyLinks(322),
        "line 322 declares the 257th link",
    ),
    (
        TopoFault::TooManyManagers(66),
        "line 66 declares the 65th manager",
    ),
    (
        TopoFault::BadSize(8),
        "line 8 has a largest size that doesn't fit the link",
    ),
    (
        TopoFault::StrictLevel(9),
        "line 9 has a strict link of a level without caching",
    ),
    (TopoFault::Memory, "out of memory"),
];

const FRAGMENT: [(FragmentFault, &str); 10] = [
    (
        FragmentFault::BadHeader,
        "the first line is no header of a fragment",
    ),
    (FragmentFault::BadField(2), "line 2 is no beat"),
    (
        FragmentFault::NotRising(3),
        "line 3 does not come after the line before",
    ),
    (
        FragmentFault::OutOfRange(4),
        "line 4 is outside the range of the fragment",
    ),
    (FragmentFault::Truncated(5), "the text ends in line 5"),
    (
        FragmentFault::TooManyBeats,
        "there are more than 65536 beats",
    ),
    (FragmentFault::ReadFault, "a read failed"),
    (
        FragmentFault::TooLong,
        "the text is longer than 8388608 bytes",
    ),
    (FragmentFault::WriteFault, "a write failed"),
    (FragmentFault::Memory, "out of memory"),
];

const REGION: [(RegionFault, &str); 3] = [
    (
        RegionFault::RegionOverlap(0),
        "the region overlaps region 0",
    ),
    (RegionFault::NoRegion, "there is no such region"),
    (RegionFault::Memory, "out of memory"),
];

const TEXT: [(TextFault, &str); 3] = [
    (TextFault::ReadFault, "a read failed"),
    (TextFault::TooLong, "the text is longer than its limit"),
    (TextFault::Memory, "out of memory"),
];

#[test]
fn faults_of_texts_are_printed(rt: HostRuntime) {
    assert!(rt; are_printed(rt.alloc(), &TOPOLOGY), "a topology");
    assert!(rt; are_printed(rt.alloc(), &FRAGMENT), "a fragment");
    assert!(rt; are_printed(rt.alloc(), &REGION), "a region");
    assert!(rt; are_printed(rt.alloc(), &TEXT), "a text");
    assert!(rt;
        are_printed(rt.alloc(), &[(ReadFailed, "a read failed")]),
        "a read"
    );
    assert!(rt;
        are_printed(rt.alloc(), &[(WriteFault, "a write failed")]),
        "a write"
    );
}
