//! The tables of TileLink 1.8 as this product reads them: channels, levels, messages, params, permissions, and the
//! names of the rules. Each call is one table, over all its arguments.
#![tactic(auto)]

mod exact;
mod kinds;
mod order;

ghost use Rattle.std.specs.Prelude.{◌≡◌, ◌<◌};
ghost use Rattle.tl_tables.specs.Messages.{op_at, carries_data_of, least_level, level_le, replies_to, chan_number};
ghost use Rattle.tl_tables.specs.Params.{is_lawful, cap_of, from_of, to_of, is_above};
ghost use Rattle.tl_tables.specs.Rules.{rule_text_of, rule_line_of};

pub use kinds::{
    is_acquire, is_grant, is_grant_ack, is_of_block, is_probe, is_probe_ack, is_release,
    is_release_ack,
};
pub use order::rule_number;

/// A channel of a link. A, C and E run from client to manager, B and D from manager to client. Within one cycle the
/// beats of a link stand in the order A to E. [TileLink 1.8: the five channels; their order in a cycle: own profile]
#[derive(Clone, Copy, Debug, PartialEq, Eq)]
pub enum Chan {
    /// Requests of a client.
    A,
    /// Probes of a manager.
    B,
    /// ProbeAcks and Releases of a client.
    C,
    /// Replies of a manager, Grants among them.
    D,
    /// GrantAcks of a client.
    E,
}

/// How much of the protocol a link speaks. [TileLink 1.8: conformance levels]
#[derive(Clone, Copy, Debug, PartialEq, Eq)]
pub enum Level {
    /// TL-UL: single-beat accesses.
    Ul,
    /// TL-UH: bursts, atomics and hints.
    Uh,
    /// TL-C: cached blocks.
    C,
}

/// What a client may do with a block, from least to most. [TileLink 1.8: coherence, permissions]
#[derive(Clone, Copy, Debug, PartialEq, Eq)]
pub enum Perm {
    /// Neither read nor write (N).
    Nothing,
    /// Read (B).
    Branch,
    /// Read and write (T).
    Trunk,
}

/// A message. [TileLink 1.8: message opcodes]
#[derive(Clone, Copy, Debug, PartialEq, Eq)]
pub enum Op {
    /// A write of all bytes of its size.
    PutFullData,
    /// A write of the bytes in its mask.
    PutPartialData,
    /// An atomic read, arithmetic and write.
    ArithmeticData,
    /// An atomic read, logical operation and write.
    LogicalData,
    /// A read.
    Get,
    /// A hint of what the client will do.
    Intent,
    /// A client asks for a block, with its data.
    AcquireBlock,
    /// A client asks for permission on a block, without data.
    AcquirePerm,
    /// A manager takes permission on a block back and asks for its data.
    ProbeBlock,
    /// A manager takes permission on a block back.
    ProbePerm,
    /// The reply to a write.
    AccessAck,
    /// The reply to a read or an atomic, with data.
    AccessAckData,
    /// The reply to a hint.
    HintAck,
    /// The answer to a Probe.
    ProbeAck,
    /// The answer to a Probe, with the block's data.
    ProbeAckData,
    /// A client gives permission on a block back.
    Release,
    /// A client gives permission on a block back, with its data.
    ReleaseData,
    /// The reply to an Acquire: permission.
    Grant,
    /// The reply to an Acquire: permission and the block's data.
    GrantData,
    /// The reply to a Release.
    ReleaseAck,
    /// A client has taken a Grant.
    GrantAck,
}

/// A rule, in the order of reports.
#[derive(Clone, Copy, Debug, Default, PartialEq, Eq)]
pub enum Rule {
    #[default]
    /// The opcode is no message of its channel at the link's level. [TileLink 1.8: message opcodes; levels: own profile]
    F1,
    /// The param is not lawful for the message. [TileLink 1.8: param fields; which are lawful: own profile]
    F2,
    /// The address is not a multiple of the size. [TileLink 1.8: address alignment]
    F3,
    /// The size is above the link's largest. [TileLink 1.8: size field; the limit: own profile]
    F4,
    /// The mask is not that of the active lanes, or for PutPartialData not within it.
    /// [TileLink 1.8: byte lanes; rounding a misaligned address: own profile]
    F5,
    /// Corrupt is high on a message without data. [TileLink 1.8: corrupt field]
    F6,
    /// Data is denied and not corrupt. [TileLink 1.8: denied and corrupt fields]
    F7,
    /// A message of a whole block has another size. [TileLink 1.8: transfer operations; one block size: own profile]
    F8,
    /// The source is not below the link's number of sources. [TileLink 1.8: source field]
    F9,
    /// No region of the manager permits the access to all its bytes. [own profile]
    F10,
    /// A later beat of a burst differs from its head. [TileLink 1.8: serialization]
    U1,
    /// A request's source is already in flight. [TileLink 1.8: source identifiers]
    S1,
    /// A reply without an open request on its source. [TileLink 1.8: responses]
    S2,
    /// A reply of a kind that its request doesn't have. [TileLink 1.8: operations and their responses]
    S3,
    /// A reply of another size than its request. [TileLink 1.8: size of responses]
    S4,
    /// A ReleaseAck without an open Release on its source. [TileLink 1.8: Release]
    S5,
    /// A Release's source is already in flight. [TileLink 1.8: source identifiers]
    S6,
    /// A ReleaseAck of another size than its Release. [TileLink 1.8: size of responses]
    S7,
    /// A Grant's sink is already in use. [TileLink 1.8: sink identifiers]
    S8,
    /// A GrantAck without an open Grant on its sink. [TileLink 1.8: Grant and GrantAck]
    S9,
    /// An Acquire claims to hold more than its client can. [TileLink 1.8: permission transitions]
    P1,
    /// A ProbeAck or Release claims to hold more than its client can. [TileLink 1.8: permission transitions]
    P2,
    /// A ProbeAck without an open Probe on its block. [TileLink 1.8: Probe]
    P3,
    /// A ProbeAck keeps more than the open Probe allows. [TileLink 1.8: Probe, cap]
    P4,
    /// A Probe while one is open on its block at this client. [own profile, after the concurrency rules]
    P5,
    /// An Acquire while this client has one open on the block. [own profile, after the concurrency rules]
    P6,
    /// A Release while this client has an Acquire open on the block. [own profile, after the concurrency rules]
    P7,
    /// An Acquire, Release or ProbeAck while this client has a Release open on the block.
    /// [own profile, after the concurrency rules]
    P8,
    /// A Grant gives what another client's hold forbids.
    /// [TileLink 1.8: coherence; over all clients of a manager: own profile]
    M1,
    /// A Grant while a client has an open Probe on the block. [own profile, after the concurrency rules]
    M2,
    /// A Probe while a client has an open Grant on the block. [own profile, after the concurrency rules]
    M3,
    /// A monitor's watch flags the beat. [own profile]
    X1,
}

/// All rules, in the order of reports.
pub const RULES: [Rule; 32] = [
    Rule::F1,
    Rule::F2,
    Rule::F3,
    Rule::F4,
    Rule::F5,
    Rule::F6,
    Rule::F7,
    Rule::F8,
    Rule::F9,
    Rule::F10,
    Rule::U1,
    Rule::S1,
    Rule::S2,
    Rule::S3,
    Rule::S4,
    Rule::S5,
    Rule::S6,
    Rule::S7,
    Rule::S8,
    Rule::S9,
    Rule::P1,
    Rule::P2,
    Rule::P3,
    Rule::P4,
    Rule::P5,
    Rule::P6,
    Rule::P7,
    Rule::P8,
    Rule::M1,
    Rule::M2,
    Rule::M3,
    Rule::X1,
];

/// What is said of a rule: its name; its line; and the least level of a link that can break it, None where a script must
/// give regions or monitors first.
fn entry(rule: Rule) -> (&'static str, &'static str, Option<Level>)
    ensures name { result.0.now ≡ rule_text_of rule }
    ensures line { result.1.now ≡ rule_line_of rule }
{
    match rule {
        Rule::F1 => ("F1", "the opcode is no message here", Some(Level::Ul)),
        Rule::F2 => ("F2", "the param is not lawful", Some(Level::Ul)),
        Rule::F3 => ("F3", "the address is not aligned", Some(Level::Ul)),
        Rule::F4 => (
            "F4",
            "the size is above the link's largest",
            Some(Level::Ul),
        ),
        Rule::F5 => (
            "F5",
            "the mask is not that of the active lanes",
            Some(Level::Ul),
        ),
        Rule::F6 => ("F6", "corrupt on a message without data", Some(Level::Ul)),
        Rule::F7 => ("F7", "denied data that is not corrupt", Some(Level::Ul)),
        Rule::F8 => ("F8", "the size is not the block", Some(Level::C)),
        Rule::F9 => ("F9", "the source is not one of the link's", Some(Level::Ul)),
        Rule::F10 => ("F10", "no region permits the access", None),
        Rule::U1 => ("U1", "a later beat differs from its head", Some(Level::Uh)),
        Rule::S1 => ("S1", "the source is in flight", Some(Level::Ul)),
        Rule::S2 => ("S2", "a reply without a request", Some(Level::Ul)),
        Rule::S3 => ("S3", "a reply of another kind", Some(Level::Ul)),
        Rule::S4 => ("S4", "a reply of another size", Some(Level::Ul)),
        Rule::S5 => ("S5", "a ReleaseAck without a Release", Some(Level::C)),
        Rule::S6 => ("S6", "the source of a Release is in flight", Some(Level::C)),
        Rule::S7 => ("S7", "a ReleaseAck of another size", Some(Level::C)),
        Rule::S8 => ("S8", "the sink is in use", Some(Level::C)),
        Rule::S9 => ("S9", "a GrantAck without a Grant", Some(Level::C)),
        Rule::P1 => (
            "P1",
            "an Acquire grows from more than is held",
            Some(Level::C),
        ),
        Rule::P2 => (
            "P2",
            "a ProbeAck or Release of more than is held",
            Some(Level::C),
        ),
        Rule::P3 => ("P3", "a ProbeAck without a Probe", Some(Level::C)),
        Rule::P4 => ("P4", "a ProbeAck keeps more than the cap", Some(Level::C)),
        Rule::P5 => ("P5", "a second Probe of a block", Some(Level::C)),
        Rule::P6 => ("P6", "a second Acquire of a block", Some(Level::C)),
        Rule::P7 => (
            "P7",
            "a Release of a block that is being acquired",
            Some(Level::C),
        ),
        Rule::P8 => ("P8", "a Release of the block is open", Some(Level::C)),
        Rule::M1 => ("M1", "a Grant beside another holder", Some(Level::C)),
        Rule::M2 => ("M2", "a Grant while a Probe is open", Some(Level::C)),
        Rule::M3 => ("M3", "a Probe while a Grant is open", Some(Level::C)),
        Rule::X1 => ("X1", "a monitor flags the beat", None),
    }
}

/// What a report calls the rule.
pub fn rule_text(rule: Rule) -> &'static str
    ensures { result.now ≡ rule_text_of rule }
{
    entry(rule).0
}

/// A rule in one line: what is so where it is broken, as its entry in `docs/RULES.md` is headed.
pub fn rule_line(rule: Rule) -> &'static str
    ensures { result.now ≡ rule_line_of rule }
{
    entry(rule).1
}

/// The least level of a link that can break the rule whatever a script does; None for regions (F10) and monitors (X1),
/// which a script gives.
pub fn rule_level(rule: Rule) -> Option<Level> {
    entry(rule).2
}

/// The lowest level that has this message on this channel.
fn level_of(chan: Chan, op: Op) -> Level
    ensures { result ≡ least_level chan op }
{
    match (chan, op) {
        (Chan::A, Op::PutFullData | Op::PutPartialData | Op::Get) => Level::Ul,
        (Chan::D, Op::AccessAck | Op::AccessAckData) => Level::Ul,
        (Chan::A, Op::ArithmeticData | Op::LogicalData | Op::Intent) => Level::Uh,
        (Chan::D, Op::HintAck) => Level::Uh,
        _ => Level::C,
    }
}

/// Whether a link of the level has what needs at least the other level.
fn has_level(least: Level, level: Level) -> bool
    ensures { result ≡ level_le least level }
{
    match least {
        Level::Ul => true,
        Level::Uh => level != Level::Ul,
        Level::C => level == Level::C,
    }
}

/// The message of an opcode on a channel of a link of this level, or None where there is none. GrantAck, which has no
/// opcode on the wire, is code 0 of channel E. [TileLink 1.8: message opcodes]
#[tactic(auto, unfolding(crate::specs::Messages::op_at))]
pub fn op_of(level: Level, chan: Chan, code: u8) -> Option<Op>
    ensures { result ≡ op_at level chan code }
{
    let op = match (chan, code) {
        (Chan::A | Chan::B, 0) => Op::PutFullData,
        (Chan::A | Chan::B, 1) => Op::PutPartialData,
        (Chan::A | Chan::B, 2) => Op::ArithmeticData,
        (Chan::A | Chan::B, 3) => Op::LogicalData,
        (Chan::A | Chan::B, 4) => Op::Get,
        (Chan::A | Chan::B, 5) => Op::Intent,
        (Chan::A, 6) => Op::AcquireBlock,
        (Chan::A, 7) => Op::AcquirePerm,
        (Chan::B, 6) => Op::ProbeBlock,
        (Chan::B, 7) => Op::ProbePerm,
        (Chan::C | Chan::D, 0) => Op::AccessAck,
        (Chan::C | Chan::D, 1) => Op::AccessAckData,
        (Chan::C | Chan::D, 2) => Op::HintAck,
        (Chan::C, 4) => Op::ProbeAck,
        (Chan::C, 5) => Op::ProbeAckData,
        (Chan::C, 6) => Op::Release,
        (Chan::C, 7) => Op::ReleaseData,
        (Chan::D, 4) => Op::Grant,
        (Chan::D, 5) => Op::GrantData,
        (Chan::D, 6) => Op::ReleaseAck,
        (Chan::E, 0) => Op::GrantAck,
        _ => return None,
    };
    if has_level(level_of(chan, op), level) {
        Some(op)
    } else {
        None
    }
}

/// Whether a param is lawful for the message. Messages that have no param want 0. [TileLink 1.8: param fields]
pub fn param_ok(op: Op, param: u8) -> bool
    ensures { result ≡ is_lawful op param }
{
    let count = match op {
        Op::ArithmeticData => 5,
        Op::LogicalData => 4,
        Op::Intent => 2,
        Op::ProbeBlock | Op::ProbePerm | Op::Grant | Op::GrantData => 3,
        Op::AcquireBlock | Op::AcquirePerm => 3,
        Op::ProbeAck | Op::ProbeAckData | Op::Release | Op::ReleaseData => 6,
        _ => 1,
    };
    param < count
}

/// Whether the message carries data, and so may take several beats. [TileLink 1.8: serialization]
pub fn carries_data(op: Op) -> bool
    ensures { result ≡ carries_data_of op }
{
    matches!(
        op,
        Op::PutFullData
            | Op::PutPartialData
            | Op::ArithmeticData
            | Op::LogicalData
            | Op::AccessAckData
            | Op::ProbeAckData
            | Op::ReleaseData
            | Op::GrantData
    )
}

/// Whether the second message is a reply to the first. [TileLink 1.8: operations and their responses]
pub fn replies(request: Op, reply: Op) -> bool
    ensures { result ≡ replies_to request reply }
{
    match request {
        Op::PutFullData | Op::PutPartialData => reply == Op::AccessAck,
        Op::Get | Op::ArithmeticData | Op::LogicalData => reply == Op::AccessAckData,
        Op::Intent => reply == Op::HintAck,
        Op::AcquireBlock => reply == Op::Grant || reply == Op::GrantData,
        Op::AcquirePerm => reply == Op::Grant,
        Op::Release | Op::ReleaseData => reply == Op::ReleaseAck,
        Op::Grant | Op::GrantData => reply == Op::GrantAck,
        Op::ProbeBlock | Op::ProbePerm => reply == Op::ProbeAck || reply == Op::ProbeAckData,
        _ => false,
    }
}

/// The permission that a Probe or a Grant caps its client to; None for other messages and unlawful params.
/// [TileLink 1.8: permission transitions, Cap]
pub fn cap_of(op: Op, param: u8) -> Option<Perm>
    ensures { result ≡ cap_of op param }
{
    match (op, param) {
        (Op::ProbeBlock | Op::ProbePerm | Op::Grant | Op::GrantData, 0) => Some(Perm::Trunk),
        (Op::ProbeBlock | Op::ProbePerm | Op::Grant | Op::GrantData, 1) => Some(Perm::Branch),
        (Op::ProbeBlock | Op::ProbePerm | Op::Grant | Op::GrantData, 2) => Some(Perm::Nothing),
        _ => None,
    }
}

/// The permission that a client says it held before an Acquire, ProbeAck or Release; None for other messages and
/// unlawful params. [TileLink 1.8: permission transitions, Grow, Shrink and Report]
pub fn from_of(op: Op, param: u8) -> Option<Perm>
    ensures { result ≡ from_of op param }
{
    match (op, param) {
        (Op::AcquireBlock | Op::AcquirePerm, 0 | 1) => Some(Perm::Nothing),
        (Op::AcquireBlock | Op::AcquirePerm, 2) => Some(Perm::Branch),
        (Op::ProbeAck | Op::ProbeAckData | Op::Release | Op::ReleaseData, 0 | 1 | 3) => Some(
            Perm::Trunk,
        ),
        (Op::ProbeAck | Op::ProbeAckData | Op::Release | Op::ReleaseData, 2 | 4) => Some(
            Perm::Branch,
        ),
        (Op::ProbeAck | Op::ProbeAckData | Op::Release | Op::ReleaseData, 5) => Some(Perm::Nothing),
        _ => None,
    }
}

/// The permission that a client wants after an Acquire, or says it holds after a ProbeAck or Release; None for other
/// messages and unlawful params. [TileLink 1.8: permission transitions, Grow, Shrink and Report]
pub fn to_of(op: Op, param: u8) -> Option<Perm>
    ensures { result ≡ to_of op param }
{
    match (op, param) {
        (Op::AcquireBlock | Op::AcquirePerm, 0) => Some(Perm::Branch),
        (Op::AcquireBlock | Op::AcquirePerm, 1 | 2) => Some(Perm::Trunk),
        (Op::ProbeAck | Op::ProbeAckData | Op::Release | Op::ReleaseData, 3) => Some(Perm::Trunk),
        (Op::ProbeAck | Op::ProbeAckData | Op::Release | Op::ReleaseData, 0 | 4) => Some(
            Perm::Branch,
        ),
        (Op::ProbeAck | Op::ProbeAckData | Op::Release | Op::ReleaseData, 1 | 2 | 5) => Some(
            Perm::Nothing,
        ),
        _ => None,
    }
}

/// Whether the first permission allows more than the second: Trunk more than Branch, and Branch more than Nothing.
/// [TileLink 1.8: coherence, permissions]
pub fn is_above(perm: Perm, other: Perm) -> bool
    ensures { result ≡ is_above perm other }
{
    match perm {
        Perm::Nothing => false,
        Perm::Branch => other == Perm::Nothing,
        Perm::Trunk => other != Perm::Trunk,
    }
}

/// The channel's place in the order of one cycle, from 0 for A to 4 for E.
pub fn chan_index(chan: Chan) -> usize
    ensures value { result ≡ chan_number chan }
    ensures below { result < 5 }
{
    chan as usize
}
