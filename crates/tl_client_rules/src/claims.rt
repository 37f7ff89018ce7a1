//! Blocks, and the bounds that heads set.

ghost use Rattle.std.specs.Prelude.{◌≡◌, ◌||◌, None, Some, if◌then◌else◌};
ghost use Rattle.std.specs.Option.{option_and_then};
ghost use Rattle.tl_tables.specs.Params.{from_of, to_of};
ghost use Rattle.tl_tables.specs.Kinds.{is_acquire, is_probe_ack, is_release};
ghost use Rattle.tl_definitions.specs.Messages.{round_down, claim};
ghost use Rattle.tl_client_rules.specs.Client.{acquired_block, head_with};

use tl_beats::{Beat, Request};
use tl_tables::{Op, Perm, cap_of, from_of, is_acquire, is_grant, is_probe_ack, is_release, to_of};

/// The address of the block that an address lies in, where blocks have 2 to the exponent bytes. [TileLink 1.8: transfer operations]
#[tactic(auto, using(crate::proofs::Blocks::one_block))]
pub fn block_of(exponent: u8, address: u64) -> u64
    ensures { result ≡ round_down exponent address }
{
    if exponent < 64 {
        let bytes: u64 = 1 << exponent;
        address / bytes * bytes
    } else {
        0
    }
}

/// The block that a request acquires, if it is an Acquire.
pub fn acquired_block(exponent: u8, op: Op, address: u64) -> Option<u64>
    ensures { result ≡ (if is_acquire op then Some (round_down exponent address) else None) }
{
    if is_acquire(op) {
        Some(block_of(exponent, address))
    } else {
        None
    }
}

/// The block of a Grant: that of the Acquire that it answers, if it answers one. [own profile]
pub fn granted_block(exponent: u8, request: Option<Request>) -> Option<u64>
    ensures { result ≡ option_and_then (acquired_block exponent) request }
{
    match request {
        Some(request) => acquired_block(exponent, request.op, request.address),
        None => None,
    }
}

/// The block and the bound that a head with this message sets, if it sets one. [TileLink 1.8: permission transitions]
pub fn claim(exponent: u8, op: Op, head: &Beat, request: Option<Request>) -> Option<(u64, Perm)>
    ensures { result ≡ claim exponent (head_with head.now request op) }
{
    if is_grant(op) {
        if head.denied {
            return None;
        }
        let block = granted_block(exponent, request)?;
        let cap = cap_of(op, head.param)?;
        return Some((block, cap));
    }
    let set = own_claim(op, head.param)?;
    Some((block_of(exponent, head.address), set))
}

/// What a client says in this message that it holds: an Acquire what it had, a ProbeAck or Release what it keeps.
fn own_claim(op: Op, param: u8) -> Option<Perm>
    ensures { result ≡ (if is_acquire op then from_of op param else (if is_probe_ack op || is_release op then to_of op param else None)) }
{
    if is_acquire(op) {
        from_of(op, param)
    } else if is_probe_ack(op) || is_release(op) {
        to_of(op, param)
    } else {
        None
    }
}
