//! The text of a topology.

ghost use Rattle.std.specs.Prelude.{◌≡◌, ◌≤◌, ◌<◌, ◌++◌, ℕ, List, true, false, length, option_map, IfSome, IfOk, IfErr, take, drop};
ghost use Rattle.tl_text.specs.Words.{lines_of, IsBehind};
ghost use Rattle.tl_text.specs.Names.{is_name};
ghost use Rattle.tl_text.specs.Readings.{Gives};
ghost use Rattle.tl_topology.specs.Faults.{is_memory};
ghost use Rattle.tl_topology.specs.Reading.{version_at, level_at, manager_at, sizes_at, mark_at, sources_at, link_at, declared, topology_in};
ghost use Rattle.tl_topology.specs.Text.{Document, topology_text};
ghost use Rattle.tl_topology.specs.Declarations.{IsDeclaredInOrder, topology_of, reading_of};
ghost use Rattle.tl_topology.specs.FirstFault.{IsFirstFault};

use crate::fault::TopoFault;
use crate::topo::Topo;
use std::alloc::Global;
use tl_tables::Level;
use tl_text::{Name, decimal, line, word};

const MOST_NUMBER: u64 = 65_536;

/// The version of its grammar that a topology's first line names.
#[derive(Clone, Copy, PartialEq, Eq)]
pub(crate) enum Version {
    One,
    /// Links may be strict.
    Two,
}

/// A line that declares a manager, as it is spelled.
#[derive(Drop)]
pub(crate) struct ManagerLine {
    pub(crate) name: Name,
    pub(crate) block: u32,
}

/// A line that declares a link, as it is spelled.
#[derive(Drop)]
pub(crate) struct LinkLine {
    pub(crate) name: Name,
    pub(crate) manager: Name,
    pub(crate) level: Level,
    pub(crate) width: u32,
    pub(crate) max_size: u32,
    pub(crate) sources: u32,
    pub(crate) strict: bool,
}

#[tactic(auto, unfolding(crate::specs::Reading::version_at))]
fn version_of(line: &[u8]) -> Option<Version>
    ensures { result ≡ version_at line.now }
{
    if line == b"topo 1".as_slice() {
        Some(Version::One)
    } else if line == b"topo 2".as_slice() {
        Some(Version::Two)
    } else {
        None
    }
}

#[tactic(auto, unfolding(crate::specs::Reading::level_at))]
fn level_of(word: &[u8]) -> Option<Level>
    ensures { result ≡ level_at word.now }
{
    if word == b"ul".as_slice() {
        Some(Level::Ul)
    } else if word == b"uh".as_slice() {
        Some(Level::Uh)
    } else if word == b"c".as_slice() {
        Some(Level::C)
    } else {
        None
    }
}

#[tactic(auto, unfolding(crate::specs::Reading::manager_at))]
fn manager_of(words: &[u8]) -> Option<ManagerLine>
    ensures { result ≡ manager_at words.now }
{
    let (name, block) = word(words)?;
    let name = Name::new(name)?;
    let block = decimal(block, MOST_NUMBER)? as u32;
    Some(ManagerLine { name, block })
}

/// Width and largest size, and the words after them.
#[tactic(auto, unfolding(crate::specs::Reading::sizes_at))]
fn sizes_of(words: &[u8]) -> Option<(u32, u32, &[u8])>
    ensures { option_map (λ x. (x.0, x.1, x.2.now)) result ≡ sizes_at words.now }
{
    let (width, words) = word(words)?;
    let width = decimal(width, MOST_NUMBER)? as u32;
    let (max_size, words) = word(words)?;
    let max_size = decimal(max_size, MOST_NUMBER)? as u32;
    Some((width, max_size, words))
}

/// The words without a last word `strict`, and whether it stands there. In version 1 it is no word of its own.
#[tactic(auto, unfolding(crate::specs::Reading::mark_at))]
fn mark_of(version: Version, words: &[u8]) -> (&[u8], bool)
    ensures { (result.0.now, result.1) ≡ mark_at version words.now }
{
    match (version, word(words)) {
        (Version::Two, Some((rest, last))) if last == b"strict".as_slice() => (rest, true),
        _ => (words, false),
    }
}

/// How many sources there are, and whether the link is strict.
#[tactic(auto, unfolding(crate::specs::Reading::sources_at))]
fn sources_of(version: Version, words: &[u8]) -> Option<(u32, bool)>
    ensures exact { result ≡ sources_at version words.now }
    ensures within { IfSome result (λ x. (1 ≤ x.0) × (x.0 ≤ 65536)) }
{
    let (number, strict) = mark_of(version, words);
    let sources = decimal(number, MOST_NUMBER)? as u32;
    if sources == 0 {
        None
    } else {
        Some((sources, strict))
    }
}

#[tactic(auto, unfolding(crate::specs::Reading::link_at))]
fn link_of(version: Version, words: &[u8]) -> Option<LinkLine>
    ensures exact { result ≡ link_at version words.now }
    ensures named { IfSome result (λ link. is_name link.name ≡ true) }
    ensures some_source { IfSome result (λ link. 1 ≤ link.sources) }
    ensures sources { IfSome result (λ link. link.sources ≤ 65536) }
{
    let (name, words) = word(words)?;
    let name = Name::new(name)?;
    let (manager, words) = word(words)?;
    let manager = Name::new(manager)?;
    let (level, words) = word(words)?;
    let level = level_of(level)?;
    let (width, max_size, words) = sizes_of(words)?;
    let (sources, strict) = sources_of(version, words)?;
    Some(LinkLine {
        name,
        manager,
        level,
        width,
        max_size,
        sources,
        strict,
    })
}

/// The topology with what one line declares.
#[tactic(auto, unfolding(crate::specs::Reading::declared))]
fn declared(version: Version, topo: Topo, line: &[u8], number: u64) -> Result<Topo, TopoFault>
    ensures { Gives is_memory (λ t. t) result (declared version topo line.now number) }
{
    let Some((kind, words)) = word(line) else {
        return Err(TopoFault::BadLine(number));
    };
    if kind == b"manager".as_slice() {
        let Some(manager) = manager_of(words) else {
            return Err(TopoFault::BadLine(number));
        };
        topo.with_manager(manager, number)
    } else if kind == b"link".as_slice() {
        let Some(link) = link_of(version, words) else {
            return Err(TopoFault::BadLine(number));
        };
        topo.with_link(link, number)
    } else {
        Err(TopoFault::BadLine(number))
    }
}

/// The topology whose lines stand at the front, and what follows its last line.
#[tactic(auto, unfolding(crate::specs::Reading::topology_in))]
fn topology_of(alloc: Global, bytes: &[u8]) -> Result<(Topo, &[u8]), TopoFault>
    ensures exact { Gives is_memory (λ x. (x.0, lines_of x.1.now)) result (topology_in (lines_of bytes.now)) }
    ensures behind { IfOk result (λ x. IsBehind bytes.now x.1.now) }
{
    let Some((first, mut rest)) = line(bytes) else {
        return Err(TopoFault::BadLine(1));
    };
    let Some(version) = version_of(first) else {
        return Err(TopoFault::BadLine(1));
    };
    let mut topo = Topo::new(alloc);
    let mut number = 2u64;
    loop {
        let Some((next, after)) = line(rest) else {
            return Err(TopoFault::BadLine(number));
        };
        rest = after;
        if next == b"end".as_slice() {
            return Ok((topo, rest));
        }
        topo = declared(version, topo, next, number)?;
        number += 1;
    }
}

/// The topology whose text, of version 1 or 2, stands at the front, and the number of its bytes. A refusal names the first
/// faulty line and, in that line, the first cause in the order of spelling, name, manager, width or block, size, level of a
/// strict link, number of links or managers, memory.
pub fn read_topo(alloc: Global, bytes: &[u8]) -> Result<(Topo, usize), TopoFault>
    // It is what reading the lines gives, and the bytes after those used are the lines that reading leaves.
    ensures exact { Gives is_memory (λ x. (x.0, lines_of (drop x.1 bytes.now))) result (topology_in (lines_of bytes.now)) }
    ensures used { IfOk result (λ x. x.1 ≤ length bytes.now) }
    // What is read is the text of lawful declarations at the front, as the topology that they make.
    ensures found { IfOk result (λ x. (document : Document) × (IsDeclaredInOrder document × (x.0 ≡ topology_of document.declarations) × (take x.1 bytes.now ≡ topology_text document))) }
    // Where the text of lawful declarations stands at the front, it is read, unless memory runs out.
    ensures only { (document : Document) (rest : List ℕ) → IsDeclaredInOrder document → bytes.now ≡ topology_text document ++ rest → Gives is_memory (λ x. x) result (Ok (reading_of document)) }
    // A refusal is the first fault, unless memory ran out.
    ensures first { IfErr result (λ fault. is_memory fault ≡ false → IsFirstFault (lines_of bytes.now) fault) }
{
    let (topo, rest) = topology_of(alloc, bytes)?;
    Ok((topo, bytes.len() - rest.len()))
}
