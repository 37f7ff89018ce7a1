//! Links and managers by name, in declared order.

ghost use Rattle.std.specs.Prelude.{◌≡◌, ◌↔◌, ◌<◌, ◌≤◌, [], true, IsSome, IfSome, IfOk, option_map, slice_get, length};
ghost use Rattle.std.specs.Option.{option_copied};
ghost use Rattle.tl_text.specs.Names.{is_name};
ghost use Rattle.tl_text.specs.Readings.{Gives};
ghost use Rattle.tl_topology.specs.Faults.{is_memory};
ghost use Rattle.tl_topology.specs.Topology.{number_of_name, is_named, exponent_of, is_size, is_width, may_be_strict, AreNamed, IsSound};
ghost use Rattle.tl_topology.specs.Reading.{with_manager, with_link, fitted, manager_named};

use crate::LinkDecl;
use crate::fault::TopoFault;
use crate::reading::{LinkLine, ManagerLine};
use indexmap::IndexMap;
use std::alloc::{AllocError, Global};
use std::marker::Model;
use tl_tables::Level;
use tl_text::Name;

const MOST_LINKS: usize = 256;

const MOST_MANAGERS: usize = 64;

const MOST_LANES: u32 = 64;

const MOST_SIZE: u32 = 15;

const LEAST_BLOCK: u8 = 3;

/// The links and managers of a design, each kind numbered from 0 in declared order. Links and managers share one space
/// of names. At most 256 links and 64 managers.
#[derive(Drop)]
pub struct Topo {
    managers: IndexMap<Name, u8>,
    links: IndexMap<Name, LinkDecl>,
}

impl Model for Topo {
    ghost use Rattle.tl_topology.specs.Topology.{Topology, IsTopology};

    ghost Value = { Topology };

    ghost view = { λ t. record { managers = t.managers.entries; links = t.links.entries } };

    ghost invariant = { λ t. IsTopology (record { managers = t.managers.entries; links = t.links.entries }) };
}

/// The exponent of a power of two up to 4,096.
#[tactic(auto, unfolding(crate::specs::Topology::exponent_of))]
fn exponent_of(bytes: u32) -> Option<u8>
    ensures exact { result ≡ exponent_of bytes }
    ensures low { IfSome result (λ exponent. exponent ≤ 12) }
    ensures some { IsSome result → 1 ≤ bytes }
{
    match bytes {
        1 => Some(0),
        2 => Some(1),
        4 => Some(2),
        8 => Some(3),
        16 => Some(4),
        32 => Some(5),
        64 => Some(6),
        128 => Some(7),
        256 => Some(8),
        512 => Some(9),
        1024 => Some(10),
        2048 => Some(11),
        4096 => Some(12),
        _ => None,
    }
}

/// Whether messages of up to `2^size` bytes fit the link: one beat on TL-UL, at least a block on TL-C.
fn is_size(level: Level, width: u32, exponent: u8, size: u32) -> bool
    ensures { result ≡ is_size level width exponent size }
{
    size <= MOST_SIZE
        && match level {
            Level::Ul => 1u32 << size <= width,
            Level::Uh => true,
            Level::C => u32::from(exponent) <= size,
        }
}

/// Whether a link of the level may be strict: on TL-C alone is there something to drop.
fn may_be_strict(level: Level, strict: bool) -> bool
    ensures { result ≡ may_be_strict level strict }
{
    match level {
        Level::C => true,
        Level::Ul | Level::Uh => !strict,
    }
}

/// The declaration that a line spells, where its limits fit.
#[tactic(auto, unfolding(crate::specs::Reading::fitted))]
fn fitted(link: &LinkLine, manager: u16, exponent: u8, line: u64) -> Result<LinkDecl, TopoFault>
    requires some_source { 1 ≤ link.now.sources }
    requires sources { link.now.sources ≤ 65536 }
    ensures exact { result ≡ fitted link.now manager exponent line }
    ensures sound { IfOk result IsSound }
    ensures managed { IfOk result (λ decl. decl.manager ≡ manager) }
    ensures named { IfOk result (λ decl. decl.name ≡ link.now.name) }
{
    if exponent_of(link.width).is_none() || link.width > MOST_LANES {
        return Err(TopoFault::BadWidth(line));
    }
    if !is_size(link.level, link.width, exponent, link.max_size) {
        return Err(TopoFault::BadSize(line));
    }
    if !may_be_strict(link.level, link.strict) {
        return Err(TopoFault::StrictLevel(line));
    }
    Ok(LinkDecl {
        name: link.name,
        manager,
        level: link.level,
        width: link.width as u8,
        max_size: link.max_size as u8,
        sources: link.sources,
        strict: link.strict,
    })
}

impl Topo {
    /// A topology that declares nothing.
    pub fn new(alloc: Global) -> Topo
        ensures { result ≡ record { managers = []; links = [] } }
    {
        Topo {
            managers: IndexMap::new(alloc),
            links: IndexMap::new(alloc),
        }
    }

    /// The number of a link, or None where no link has the name.
    pub fn link_of(&self, name: &Name) -> Option<u16>
        ensures exact { result ≡ number_of_name self.now.links name.now }
        ensures within { IfSome result (λ number. number < length self.now.links) }
    {
        self.links.get_index_of(name).map(|number| number as u16)
    }

    /// The number of a manager, or None where no manager has the name.
    pub fn manager_of(&self, name: &Name) -> Option<u16>
        ensures exact { result ≡ number_of_name self.now.managers name.now }
        ensures within { IfSome result (λ number. number < length self.now.managers) }
    {
        self.managers.get_index_of(name).map(|number| number as u16)
    }

    /// The link of a number, or None past the last.
    pub fn link(&self, number: u16) -> Option<&LinkDecl>
        ensures exact { option_copied result ≡ option_map (λ p. p.1) (slice_get self.now.links number) }
        ensures found { IsSome result ↔ (number < length self.now.links) }
        ensures sound { IfSome result (λ link. IsSound link.now) }
        ensures managed { IfSome result (λ link. link.now.manager < length self.now.managers) }
    {
        self.links.get_index(number as usize).map(|(_, link)| link)
    }

    /// How many links there are, at most 256, each with a name.
    pub fn link_count(&self) -> usize
        ensures count { result ≡ length self.now.links }
        ensures limit { result ≤ 256 }
        ensures named { AreNamed self.now }
    {
        self.links.len()
    }

    /// How many managers there are, at most 64.
    pub fn manager_count(&self) -> usize
        ensures count { result ≡ length self.now.managers }
        ensures limit { result ≤ 64 }
    {
        self.managers.len()
    }

    /// The exponent of a manager's block, 3 to 12, or None past the last manager.
    pub fn block(&self, manager: u16) -> Option<u8>
        ensures { result ≡ option_map (λ p. p.1) (slice_get self.now.managers manager) }
    {
        self.managers
            .get_index(manager as usize)
            .map(|(_, exponent)| *exponent)
    }

    fn is_named(&self, name: &Name) -> bool
        ensures { result ≡ is_named self.now name.now }
    {
        self.manager_of(name).is_some() || self.link_of(name).is_some()
    }

    /// The number of a manager and the exponent of its block.
    #[tactic(auto, unfolding(crate::specs::Reading::manager_named))]
    fn manager_named(&self, name: &Name) -> Option<(u16, u8)>
        ensures exact { result ≡ manager_named self.now name.now }
        ensures within { IfSome result (λ x. x.0 < length self.now.managers) }
    {
        let number = self.manager_of(name)?;
        let exponent = self.block(number)?;
        Some((number, exponent))
    }

    /// The topology with one manager more, that of a line.
    #[tactic(auto, unfolding(crate::specs::Reading::with_manager))]
    pub(crate) fn with_manager(mut self, manager: ManagerLine, line: u64) -> Result<Topo, TopoFault>
        ensures { Gives is_memory (λ t. t) result (with_manager self manager line) }
    {
        if self.is_named(&manager.name) {
            return Err(TopoFault::NameTwice(line));
        }
        let Some(exponent) = exponent_of(manager.block) else {
            return Err(TopoFault::BadBlock(line));
        };
        if exponent < LEAST_BLOCK {
            return Err(TopoFault::BadBlock(line));
        }
        if self.managers.len() >= MOST_MANAGERS {
            return Err(TopoFault::TooManyManagers(line));
        }
        self.managers.insert(manager.name, exponent)?;
        Ok(self)
    }

    /// The topology with one link more, that of a line.
    #[tactic(auto, unfolding(crate::specs::Reading::with_link))]
    pub(crate) fn with_link(mut self, link: LinkLine, line: u64) -> Result<Topo, TopoFault>
        requires named { is_name link.name ≡ true }
        requires some_source { 1 ≤ link.sources }
        requires sources { link.sources ≤ 65536 }
        ensures { Gives is_memory (λ t. t) result (with_link self link line) }
    {
        if self.is_named(&link.name) {
            return Err(TopoFault::NameTwice(line));
        }
        let Some((manager, exponent)) = self.manager_named(&link.manager) else {
            return Err(TopoFault::NoManager(line));
        };
        let decl = fitted(&link, manager, exponent, line)?;
        if self.links.len() >= MOST_LINKS {
            return Err(TopoFault::TooManyLinks(line));
        }
        self.links.insert(link.name, decl)?;
        Ok(self)
    }

    /// A copy of it. AllocError where memory is refused.
    pub fn copy(&self, alloc: Global) -> Result<Topo, AllocError>
        ensures { IfOk result (λ copy. copy ≡ self.now) }
    {
        let managers = copied(alloc, &self.managers)?;
        let links = copied(alloc, &self.links)?;
        Ok(Topo { managers, links })
    }
}

/// The same names and values in the same order.
fn copied<V: Copy + Drop>(
    alloc: Global,
    named: &IndexMap<Name, V>,
) -> Result<IndexMap<Name, V>, AllocError>
    ensures { IfOk result (λ copy. copy.entries ≡ named.now.entries) }
{
    let mut copy = IndexMap::new(alloc);
    for number in 0..named.len() {
        if let Some((name, value)) = named.get_index(number) {
            copy.insert(*name, *value)?;
        }
    }
    Ok(copy)
}
