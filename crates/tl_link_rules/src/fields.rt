//! Fields of a beat that are judged by the head of its message.

ghost use Rattle.std.specs.Prelude.{◌≡◌, ◌≤◌};
ghost use Rattle.tl_topology.specs.Topology.{IsSound};
ghost use Rattle.tl_beats.specs.Beats.{IsWellFormed};
ghost use Rattle.tl_definitions.specs.Rules.{active_lanes, is_mask_ok, breaks_mask, breaks_denied};

use tl_beats::Beat;
use tl_tables::{Chan, Op, carries_data};
use tl_topology::LinkDecl;

/// The lanes that a message of `2^size` bytes at the address uses on a link of this width, as a mask.
pub fn active_lanes(width: u8, size: u8, address: u64) -> u64
    requires some_lane { 1 ≤ width }
    requires lanes { width ≤ 64 }
    requires size { size ≤ 15 }
    ensures { result ≡ active_lanes width size address }
{
    let bytes: u64 = 1 << size;
    if bytes >= u64::from(width) {
        if width == 64 {
            u64::MAX
        } else {
            (1 << width) - 1
        }
    } else {
        ((1 << bytes) - 1) << (address % u64::from(width) / bytes * bytes)
    }
}

/// Whether a mask is lawful for a message with these active lanes.
fn is_mask_ok(op: Op, mask: u64, lanes: u64) -> bool
    ensures { result ≡ is_mask_ok op mask lanes }
{
    match op {
        Op::PutPartialData => mask & lanes == mask,
        _ => mask == lanes,
    }
}

/// Whether the mask of a beat is unlawful for its message, by the head of that.
pub(crate) fn is_off_lanes(link: &LinkDecl, op: Op, head: &Beat, beat: &Beat) -> bool
    requires link { IsSound link.now }
    requires head { IsWellFormed head.now }
    ensures { result ≡ breaks_mask link.now op head.now beat.now }
{
    let has_mask = matches!(head.chan, Chan::A | Chan::B);
    has_mask
        && !is_mask_ok(
            op,
            beat.mask,
            active_lanes(link.width, head.size, head.address),
        )
}

/// Whether a beat of a reply with data is denied and not corrupt.
pub(crate) fn is_denied_data(op: Op, head: &Beat, beat: &Beat) -> bool
    ensures { result ≡ breaks_denied op head.now beat.now }
{
    head.chan == Chan::D && carries_data(op) && beat.denied && !beat.corrupt
}
