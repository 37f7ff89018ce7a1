//! The words of a beat, for a reader of a report.

ghost use Rattle.std.specs.Prelude.{◌≡◌, [], ◌∷◌, codes, option_map};
ghost use Rattle.std.specs.List.{slice_get};
ghost use Rattle.tl_rows.specs.Words.{chan_text_of, op_text_of, param_text_of};

use tl_tables::{Chan, Op};

/// The name of a channel.
pub fn chan_text(chan: Chan) -> &'static str
    ensures { result.now ≡ chan_text_of chan }
{
    match chan {
        Chan::A => "A",
        Chan::B => "B",
        Chan::C => "C",
        Chan::D => "D",
        Chan::E => "E",
    }
}

/// The name of a message. [TileLink 1.8: message opcodes]
pub fn op_text(op: Op) -> &'static str
    ensures { result.now ≡ op_text_of op }
{
    match op {
        Op::PutFullData => "PutFullData",
        Op::PutPartialData => "PutPartialData",
        Op::ArithmeticData => "ArithmeticData",
        Op::LogicalData => "LogicalData",
        Op::Get => "Get",
        Op::Intent => "Intent",
        Op::AcquireBlock => "AcquireBlock",
        Op::AcquirePerm => "AcquirePerm",
        Op::ProbeBlock => "ProbeBlock",
        Op::ProbePerm => "ProbePerm",
        Op::AccessAck => "AccessAck",
        Op::AccessAckData => "AccessAckData",
        Op::HintAck => "HintAck",
        Op::ProbeAck => "ProbeAck",
        Op::ProbeAckData => "ProbeAckData",
        Op::Release => "Release",
        Op::ReleaseData => "ReleaseData",
        Op::Grant => "Grant",
        Op::GrantData => "GrantData",
        Op::ReleaseAck => "ReleaseAck",
        Op::GrantAck => "GrantAck",
    }
}

/// Of an arithmetic message.
fn arithmetic_text(param: u8) -> Option<&'static str>
    ensures { option_map (λ text. text.now) result ≡ slice_get (codes "MIN" ∷ codes "MAX" ∷ codes "MINU" ∷ codes "MAXU" ∷ codes "ADD" ∷ []) param }
{
    match param {
        0 => Some("MIN"),
        1 => Some("MAX"),
        2 => Some("MINU"),
        3 => Some("MAXU"),
        4 => Some("ADD"),
        _ => None,
    }
}

/// Of a logical message.
fn logical_text(param: u8) -> Option<&'static str>
    ensures { option_map (λ text. text.now) result ≡ slice_get (codes "XOR" ∷ codes "OR" ∷ codes "AND" ∷ codes "SWAP" ∷ []) param }
{
    match param {
        0 => Some("XOR"),
        1 => Some("OR"),
        2 => Some("AND"),
        3 => Some("SWAP"),
        _ => None,
    }
}

/// Of an Intent.
fn intent_text(param: u8) -> Option<&'static str>
    ensures { option_map (λ text. text.now) result ≡ slice_get (codes "PrefetchRead" ∷ codes "PrefetchWrite" ∷ []) param }
{
    match param {
        0 => Some("PrefetchRead"),
        1 => Some("PrefetchWrite"),
        _ => None,
    }
}

/// Of an Acquire.
fn growth_text(param: u8) -> Option<&'static str>
    ensures { option_map (λ text. text.now) result ≡ slice_get (codes "NtoB" ∷ codes "NtoT" ∷ codes "BtoT" ∷ []) param }
{
    match param {
        0 => Some("NtoB"),
        1 => Some("NtoT"),
        2 => Some("BtoT"),
        _ => None,
    }
}

/// Of a Probe or Grant.
fn cap_text(param: u8) -> Option<&'static str>
    ensures { option_map (λ text. text.now) result ≡ slice_get (codes "toT" ∷ codes "toB" ∷ codes "toN" ∷ []) param }
{
    match param {
        0 => Some("toT"),
        1 => Some("toB"),
        2 => Some("toN"),
        _ => None,
    }
}

/// Of a ProbeAck or Release.
fn shrink_text(param: u8) -> Option<&'static str>
    ensures { option_map (λ text. text.now) result ≡ slice_get (codes "TtoB" ∷ codes "TtoN" ∷ codes "BtoN" ∷ codes "TtoT" ∷ codes "BtoB" ∷ codes "NtoN" ∷ []) param }
{
    match param {
        0 => Some("TtoB"),
        1 => Some("TtoN"),
        2 => Some("BtoN"),
        3 => Some("TtoT"),
        4 => Some("BtoB"),
        5 => Some("NtoN"),
        _ => None,
    }
}

/// The name of a param of a message; None where it has no name for it, as of a message without params. [TileLink 1.8: param
/// fields]
pub fn param_text(op: Op, param: u8) -> Option<&'static str>
    ensures { option_map (λ text. text.now) result ≡ param_text_of op param }
{
    match op {
        Op::ArithmeticData => arithmetic_text(param),
        Op::LogicalData => logical_text(param),
        Op::Intent => intent_text(param),
        Op::AcquireBlock | Op::AcquirePerm => growth_text(param),
        Op::ProbeBlock | Op::ProbePerm | Op::Grant | Op::GrantData => cap_text(param),
        Op::ProbeAck | Op::ProbeAckData | Op::Release | Op::ReleaseData => shrink_text(param),
        _ => None,
    }
}
