//! What a rule expected of a beat.

ghost use Rattle.std.specs.Prelude.{◌≡◌, ◌<◌, ◌≤◌, IfOk, length, string_bytes};
ghost use Rattle.tl_beats.specs.Beats.{IsWellFormed};
ghost use Rattle.tl_topology.specs.Topology.{IsSound};
ghost use Rattle.tl_show.specs.Lines.{most_line_of, block_line_of, within_line_of, mask_line_of, source_line_of, head_of, is_partial, lanes_line_of, own_field_of, field_of, differs_line_of, block_at, expected_line_of, link_at, IsSoundTold};

use std::alloc::{AllocError, Global};
use tl_beats::Beat;
use tl_link_rules::active_lanes;
use tl_rows::{Reason, Told, bytes_text};
use tl_tables::{Chan, Op, Rule, op_of};
use tl_topology::{LinkDecl, Topo};

/// The greatest exponent of a size.
const MOST_SIZE: u8 = 15;

/// A size that is not above the link's.
#[tactic(auto, unfolding(crate::specs::Lines::most_line_of))]
fn most_line(alloc: Global, size: u8) -> Result<String, AllocError>
    requires { size ≤ 15 }
    ensures { IfOk result (λ text. string_bytes text ≡ most_line_of size) }
{
    let bytes = bytes_text(alloc, size)?;
    format!(in alloc; "  expected: at most {bytes}\n")
}

/// The size of the block.
#[tactic(auto, unfolding(crate::specs::Lines::block_line_of))]
fn block_line(alloc: Global, size: u8) -> Result<String, AllocError>
    requires { size ≤ 15 }
    ensures { IfOk result (λ text. string_bytes text ≡ block_line_of size) }
{
    let bytes = bytes_text(alloc, size)?;
    format!(in alloc; "  expected: {bytes}\n")
}

/// Lanes of which a mask may leave out some.
#[tactic(auto, unfolding(crate::specs::Lines::within_line_of))]
fn within_line(alloc: Global, lanes: u64) -> Result<String, AllocError>
    ensures { IfOk result (λ text. string_bytes text ≡ within_line_of lanes) }
{
    format!(in alloc; "  expected: a mask within {lanes:x}\n")
}

/// Lanes that are the mask.
#[tactic(auto, unfolding(crate::specs::Lines::mask_line_of))]
fn mask_line(alloc: Global, lanes: u64) -> Result<String, AllocError>
    ensures { IfOk result (λ text. string_bytes text ≡ mask_line_of lanes) }
{
    format!(in alloc; "  expected: mask {lanes:x}\n")
}

/// The sources of the link.
#[tactic(auto, unfolding(crate::specs::Lines::source_line_of))]
fn source_line(alloc: Global, sources: u32) -> Result<String, AllocError>
    ensures { IfOk result (λ text. string_bytes text ≡ source_line_of sources) }
{
    format!(in alloc; "  expected: a source below {sources}\n")
}

/// The beat that the message of a told beat begins with.
fn head_of(told: &Told) -> Beat
    ensures { result ≡ head_of told.now.place told.now.reason }
{
    match told.reason {
        Reason::Head(head) => head.beat,
        _ => told.place.beat,
    }
}

/// Whether a message that begins with this beat may leave out lanes.
fn is_partial(decl: &LinkDecl, head: &Beat) -> bool
    ensures { result ≡ is_partial decl.now head.now }
{
    matches!(
        op_of(decl.level, head.chan, head.opcode),
        Some(Op::PutPartialData)
    )
}

/// The mask of a message that begins with this beat.
#[tactic(auto, unfolding(crate::specs::Lines::lanes_line_of))]
fn lanes_line(alloc: Global, decl: &LinkDecl, head: &Beat) -> Result<String, AllocError>
    requires decl { IsSound decl.now }
    requires size { head.now.size ≤ 15 }
    ensures { IfOk result (λ text. string_bytes text ≡ lanes_line_of decl.now head.now) }
{
    let lanes = active_lanes(decl.width, head.size, head.address);
    if is_partial(decl, head) {
        within_line(alloc, lanes)
    } else {
        mask_line(alloc, lanes)
    }
}

/// The first field that only some channels have in which a later beat differs from its head.
fn own_field(head: &Beat, beat: &Beat) -> &'static str
    ensures { result.now ≡ own_field_of head.now beat.now }
{
    if head.chan != Chan::D {
        return "address";
    }
    if head.sink == beat.sink {
        "denied"
    } else {
        "sink"
    }
}

/// The first field in which a later beat differs from its head.
#[tactic(auto, unfolding(crate::specs::Lines::field_of))]
fn field(head: &Beat, beat: &Beat) -> &'static str
    ensures { result.now ≡ field_of head.now beat.now }
{
    if head.opcode != beat.opcode {
        return "opcode";
    }
    if head.param != beat.param {
        return "param";
    }
    if head.size != beat.size {
        return "size";
    }
    if head.source != beat.source {
        return "source";
    }
    own_field(head, beat)
}

/// That field in a line.
#[tactic(auto, unfolding(crate::specs::Lines::differs_line_of))]
fn differs_line(alloc: Global, head: &Beat, beat: &Beat) -> Result<String, AllocError>
    ensures { IfOk result (λ text. string_bytes text ≡ differs_line_of head.now beat.now) }
{
    let name = field(head, beat);
    format!(in alloc; "  differs from its head in: {name}\n")
}

/// The exponent of the block of a link's manager.
fn block_of(topo: &Topo, decl: &LinkDecl) -> u8
    ensures { result ≡ block_at topo.now decl.now }
{
    match topo.block(decl.manager) {
        Some(exponent) => exponent,
        None => 0,
    }
}

/// What the rule of a row expected of its beat, where that is a size, a mask, a block or a source, or the field in which a beat
/// differs from its head.
pub(crate) fn expected_line(alloc: Global, topo: &Topo, told: &Told) -> Result<String, AllocError>
    requires { IsSoundTold topo.now told.now }
    ensures { IfOk result (λ text. string_bytes text ≡ expected_line_of topo.now (link_at topo.now told.now.place.link) told.now.row.rule told.now.place told.now.reason) }
{
    let decl = topo.link(told.place.link).unwrap();
    let head = head_of(told);
    match told.row.rule {
        Rule::F4 => most_line(alloc, decl.max_size),
        Rule::F5 => lanes_line(alloc, decl, &head),
        Rule::F8 => {
            let block = block_of(topo, decl);
            if block > MOST_SIZE {
                return Ok(String::new(alloc));
            }
            block_line(alloc, block)
        }
        Rule::F9 => source_line(alloc, decl.sources),
        Rule::U1 => differs_line(alloc, &head, &told.place.beat),
        _ => Ok(String::new(alloc)),
    }
}
