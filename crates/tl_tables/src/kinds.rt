//! Kinds of messages: where rules say Acquire, Probe, ProbeAck, Release or Grant, they mean both opcodes, with data or
//! without.

ghost use Rattle.std.specs.Prelude.{◌≡◌};
ghost use Rattle.tl_tables.specs.Kinds.{is_acquire, is_probe, is_probe_ack, is_release, is_release_ack, is_grant, is_grant_ack, is_of_block};

use crate::Op;

/// AcquireBlock or AcquirePerm. [TileLink 1.8: transfer operations]
pub fn is_acquire(op: Op) -> bool
    ensures { result ≡ is_acquire op }
{
    matches!(op, Op::AcquireBlock | Op::AcquirePerm)
}

/// ProbeBlock or ProbePerm. [TileLink 1.8: transfer operations]
pub fn is_probe(op: Op) -> bool
    ensures { result ≡ is_probe op }
{
    matches!(op, Op::ProbeBlock | Op::ProbePerm)
}

/// ProbeAck, with data or without. [TileLink 1.8: transfer operations]
pub fn is_probe_ack(op: Op) -> bool
    ensures { result ≡ is_probe_ack op }
{
    matches!(op, Op::ProbeAck | Op::ProbeAckData)
}

/// Release, with data or without. [TileLink 1.8: transfer operations]
pub fn is_release(op: Op) -> bool
    ensures { result ≡ is_release op }
{
    matches!(op, Op::Release | Op::ReleaseData)
}

/// ReleaseAck. [TileLink 1.8: transfer operations]
pub fn is_release_ack(op: Op) -> bool
    ensures { result ≡ is_release_ack op }
{
    matches!(op, Op::ReleaseAck)
}

/// Grant, with data or without. [TileLink 1.8: transfer operations]
pub fn is_grant(op: Op) -> bool
    ensures { result ≡ is_grant op }
{
    matches!(op, Op::Grant | Op::GrantData)
}

/// GrantAck. [TileLink 1.8: transfer operations]
pub fn is_grant_ack(op: Op) -> bool
    ensures { result ≡ is_grant_ack op }
{
    matches!(op, Op::GrantAck)
}

/// Whether the message is always of one whole block. [TileLink 1.8: transfer operations, size]
pub fn is_of_block(op: Op) -> bool
    ensures { result ≡ is_of_block op }
{
    is_acquire(op)
        || is_probe(op)
        || is_probe_ack(op)
        || is_release(op)
        || is_grant(op)
        || is_release_ack(op)
}
