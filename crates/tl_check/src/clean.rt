//! Heads that are seen to break no rule of their link's own.

ghost use Rattle.std.specs.Prelude.{◌≡◌, ◌==◌, ℕ, [], Some, true, false, filter, length};
ghost use Rattle.tl_tables.specs.Messages.{level_le};
ghost use Rattle.tl_tables.specs.declared.Level.TheVariants as level;
ghost use Rattle.tl_tables.specs.declared.Op.{Op as AnyOp};
ghost use Rattle.tl_topology.specs.Regions.{areas_of};
ghost use Rattle.tl_topology.specs.Topology.{IsSound};
ghost use Rattle.tl_beats.specs.Beats.{IsWellFormed};
ghost use Rattle.tl_definitions.specs.Rules.{breaks_format, format_order};
ghost use Rattle.tl_check.specs.CleanHeads.{is_placed, IsClean};
ghost use Rattle.tl_check.specs.Requests.{is_plain, breaks_open, open_order};

use tl_beats::{Beat, Request};
use tl_link_rules::active_lanes;
use tl_tables::{Chan, Op, op_of, param_ok, replies};
use tl_topology::{LinkDecl, RegionMap};

/// Whether the address of a request is a multiple of its size, and one region permits the request to all its bytes, or there are no
/// regions.
#[tactic(auto, using(tl_link_rules::proofs::Lanes::last_coded))]
#[inline(always)]
fn is_placed(regions: &RegionMap, op: Op, head: &Beat) -> bool
    requires { IsWellFormed head.now }
    ensures { result ≡ is_placed (areas_of regions.now) op head.now }
{
    let bytes: u64 = 1 << head.size;
    if head.address % bytes != 0 {
        return false;
    }
    if regions.is_empty() {
        return true;
    }
    let first = head.address / bytes * bytes;
    regions.permits(op, first, first + (bytes - 1))
}

/// Whether a head with this message is seen to break no format rule of a manager with these regions.
#[inline(always)]
fn keeps_format(decl: &LinkDecl, regions: &RegionMap, op: Op, head: &Beat) -> bool
    requires decl { IsSound decl.now }
    requires beat { IsWellFormed head.now }
    requires plain { is_plain op ≡ true }
    ensures { result ≡ true → (exponent : ℕ) → filter (breaks_format exponent (areas_of regions.now) decl.now op head.now) format_order ≡ [] }
{
    if head.corrupt || head.denied || !param_ok(op, head.param) {
        return false;
    }
    if head.size > decl.max_size || u32::from(head.source) >= decl.sources {
        return false;
    }
    match head.chan {
        Chan::A => {
            head.mask == active_lanes(decl.width, head.size, head.address)
                && is_placed(regions, op, head)
        }
        Chan::D => true,
        _ => false,
    }
}

/// Whether it breaks no flow rule, by the request that is in flight on its source.
fn keeps_flow(op: Op, head: &Beat, request: &Option<Request>) -> bool
    ensures { result ≡ true → filter (breaks_open request.now op head.now) open_order ≡ [] }
{
    match request {
        Some(request) => {
            head.chan != Chan::A && replies(request.op, op) && request.size == head.size
        }
        None => head.chan != Chan::D,
    }
}

/// The message of a head of a link below the level of caches that is seen to break no rule of its link's own. None says nothing.
#[inline(always)]
pub fn clean_message(
    decl: &LinkDecl,
    regions: &RegionMap,
    head: &Beat,
    request: &Option<Request>,
) -> Option<Op>
    requires decl { IsSound decl.now }
    requires plain { level_le level.C decl.now.level ≡ false }
    requires beat { IsWellFormed head.now }
    ensures { (op : AnyOp) → result ≡ Some op → IsClean decl.now (areas_of regions.now) head.now request.now op }
{
    let op = op_of(decl.level, head.chan, head.opcode)?;
    if keeps_format(decl, regions, op, head) && keeps_flow(op, head, request) {
        Some(op)
    } else {
        None
    }
}
