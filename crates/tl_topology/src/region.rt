//! Regions of a manager's addresses, and the kinds of access that they permit.

ghost use Rattle.std.specs.Prelude.{◌≡◌, ◌↔◌, ◌≤◌, ◌==◌, ℕ, Bool, false, Some, None, Ok, IfErr, OnOk, OnErr, IfOk, is_some, nat_le, if◌then◌else◌, [], length};
ghost use Rattle.std.specs.Result.{IsErrOf};
ghost use Rattle.tl_topology.specs.Regions.{permits_kind, permits_in, is_permitted, overlaps, overlapping, area_at, areas_of, put_area, without_area, AreRegions};
ghost use Rattle.std.specs.Option.{ok_or, option_copied};
ghost use Rattle.tl_topology.specs.Faults.{region_code_of, region_number_of};
ghost use Rattle.tl_topology.specs.declared.region.RegionFault.TheVariants.{Memory};

use std::alloc::{AllocError, AllocFailed, Global};
use std::collections::BTreeMap;
use std::marker::Model;
use thiserror::Error;
use tl_tables::Op;

/// The kinds of access that a region permits.
#[derive(Clone, Copy, Debug, PartialEq, Eq)]
pub struct Permits {
    /// Get.
    pub get: bool,
    /// PutFullData and PutPartialData.
    pub put: bool,
    /// ArithmeticData and LogicalData.
    pub atomic: bool,
    /// Intent.
    pub hint: bool,
    /// AcquireBlock and AcquirePerm.
    pub cache: bool,
}

impl Permits {
    /// Whether the kind of access of a request on channel A is among them; no other message is.
    pub fn permits(&self, op: Op) -> bool
        ensures { result ≡ permits_kind self.now op }
    {
        match op {
            Op::Get => self.get,
            Op::PutFullData | Op::PutPartialData => self.put,
            Op::ArithmeticData | Op::LogicalData => self.atomic,
            Op::Intent => self.hint,
            Op::AcquireBlock | Op::AcquirePerm => self.cache,
            _ => false,
        }
    }
}

/// The bytes of a manager from a first to a last address, with the kinds of access that they permit. The first is never
/// above the last.
#[derive(Clone, Copy, Debug, PartialEq, Eq)]
pub struct Region {
    first: u64,
    last: u64,
    permits: Permits,
}

impl Model for Region {
    ghost use Rattle.std.specs.Prelude.{◌≤◌};
    ghost use Rattle.tl_topology.specs.Regions.{Area};

    ghost Value = { Area };

    ghost view = { λ r. record { first = r.first; last = r.last; permits = r.permits } };

    ghost invariant = { λ r. r.first ≤ r.last };

    ghost inverse = { λ area. record { first = area.first; last = area.last; permits = area.permits } };
}

impl Region {
    /// The region from a first to a last address, both of which it has. None where the first is above the last.
    pub fn new(first: u64, last: u64, permits: Permits) -> Option<Region>
        ensures { result ≡ (if nat_le first last then Some (record { first = first; last = last; permits = permits }) else None) }
    {
        if first <= last {
            Some(Region {
                first,
                last,
                permits,
            })
        } else {
            None
        }
    }

    /// Its first address.
    pub fn first(&self) -> u64
        ensures exact { result ≡ self.now.first }
        ensures order { result ≤ self.now.last }
    {
        self.first
    }

    /// Its last address.
    pub fn last(&self) -> u64
        ensures exact { result ≡ self.now.last }
        ensures order { self.now.first ≤ result }
    {
        self.last
    }

    /// The kinds of access that it permits.
    pub fn permits(&self) -> Permits
        ensures { result ≡ self.now.permits }
    {
        self.permits
    }

    /// Whether it permits the kind of access to all bytes from the low address to the high one.
    fn permits_in(&self, op: Op, low: u64, high: u64) -> bool
        ensures { result ≡ permits_in op low high self.now }
    {
        low >= self.first && high <= self.last && self.permits.permits(op)
    }

    /// Whether both have an address.
    fn overlaps(&self, other: &Region) -> bool
        ensures { result ≡ overlaps self.now other.now }
    {
        other.last >= self.first && other.first <= self.last
    }
}

/// Why a change of a region is refused.
#[derive(Clone, Copy, Debug, Drop, Error, PartialEq, Eq)]
pub enum RegionFault {
    /// The region shares an address with another, the lowest of which has this number.
    #[error("the region overlaps region {0}")]
    RegionOverlap(u8),
    /// No region has the number.
    #[error("there is no such region")]
    NoRegion,
    /// A growth was refused.
    #[error("out of memory")]
    Memory,
}

impl RegionFault {
    /// The number of the refusal.
    pub fn code(&self) -> u8
        ensures { result ≡ region_code_of self.now }
    {
        match self {
            RegionFault::RegionOverlap(_) => 7,
            RegionFault::NoRegion => 8,
            RegionFault::Memory => 20,
        }
    }

    /// The region that is printed with it, where the refusal names one.
    pub fn number(&self) -> Option<u8>
        ensures { result ≡ region_number_of self.now }
    {
        match self {
            RegionFault::RegionOverlap(region) => Some(*region),
            _ => None,
        }
    }
}

impl<T: Drop> From<AllocFailed<T>> for RegionFault {
    ghost from_gives = { λ _ e. e ≡ Memory };

    fn from(_error: AllocFailed<T>) -> RegionFault {
        RegionFault::Memory
    }
}

/// The regions of a manager by number, 0 to 255. No two of them share an address.
#[derive(Drop)]
pub struct RegionMap {
    regions: BTreeMap<u8, Region>,
}

impl Model for RegionMap {
    ghost use Rattle.std.specs.Prelude.{ℕ, List};
    ghost use Rattle.tl_topology.specs.Regions.{Area, AreRegions};

    ghost Value = { List (ℕ × Area) };

    ghost view = { λ m. m.regions.entries };

    ghost invariant = { λ m. AreRegions m.regions.entries };
}

impl RegionMap {
    /// A map without regions.
    pub fn new(alloc: Global) -> RegionMap
        ensures { result ≡ [] }
    {
        RegionMap {
            regions: BTreeMap::new(alloc),
        }
    }

    /// Whether there is no region.
    pub fn is_empty(&self) -> bool
        ensures exact { result ≡ (length self.now == 0) }
        // The regions stand in the order of their numbers, and no two share an address.
        ensures kept { AreRegions self.now }
    {
        self.regions.is_empty()
    }

    /// The region of a number, if one is there.
    pub fn get(&self, number: u8) -> Option<&Region>
        ensures { option_copied result ≡ area_at number self.now }
    {
        self.regions.get(&number)
    }

    /// The lowest number of another region that shares an address with this one. The one of the same number, which this one
    /// would replace, isn't asked.
    pub fn overlapping(&self, number: u8, region: &Region) -> Option<u8>
        ensures { result ≡ overlapping number region.now self.now }
    {
        for (other, present) in self.regions.iter() {
            if *other != number && present.overlaps(region) {
                return Some(*other);
            }
        }
        None
    }

    /// Puts a region under its number, in place of the one that was there. RegionOverlap, with the lowest such number,
    /// where it shares an address with a region of another number. Nothing has changed at a refusal.
    #[tactic(auto, using(crate::proofs::RegionLaws::apart_put, crate::proofs::RegionLaws::other_key))]
    pub fn set(&mut self, number: u8, region: Region) -> Result<(), RegionFault>
        ensures exact { OnOk result (self.new ≡ put_area number region self.old) }
        ensures put { OnOk result (area_at number self.new ≡ Some region) }
        ensures others { (other : ℕ) → (other == number) ≡ false → area_at other self.new ≡ area_at other self.old }
        ensures overlap { (n : ℕ) → IsErrOf result (RegionFault.RegionOverlap n) ↔ (overlapping number region self.old ≡ Some n) }
        ensures only { IfErr result (λ e. (e ≡ RegionFault.NoRegion) → ⊥) }
        ensures refused { OnErr result (self.new ≡ self.old) }
    {
        if let Some(other) = self.overlapping(number, &region) {
            return Err(RegionFault::RegionOverlap(other));
        }
        self.regions.insert(number, region)?;
        Ok(())
    }

    /// Takes out the region of a number. NoRegion where there is none; nothing has changed then.
    #[tactic(auto, using(crate::proofs::RegionLaws::apart_taken, crate::proofs::RegionLaws::other_key))]
    pub fn remove(&mut self, number: u8) -> Result<Region, RegionFault>
        ensures exact { result ≡ ok_or (area_at number self.old) RegionFault.NoRegion }
        ensures rest { self.new ≡ without_area number self.old }
        ensures taken { area_at number self.new ≡ None }
        ensures others { (other : ℕ) → (other == number) ≡ false → area_at other self.new ≡ area_at other self.old }
        ensures refused { OnErr result (self.new ≡ self.old) }
    {
        self.regions.remove(&number).ok_or(RegionFault::NoRegion)
    }

    /// Whether the kind of access is permitted to all bytes from the low address to the high one: where there are no
    /// regions, or where one region permits it and has all of them.
    pub fn permits(&self, op: Op, low: u64, high: u64) -> bool
        ensures { result ≡ is_permitted (areas_of self.now) op low high }
    {
        for region in self.regions.values() {
            if region.permits_in(op, low, high) {
                return true;
            }
        }
        self.is_empty()
    }

    /// A copy of it. AllocError where memory is refused.
    pub fn copy(&self) -> Result<RegionMap, AllocError>
        ensures { IfOk result (λ copy. copy ≡ self.now) }
    {
        Ok(RegionMap {
            regions: self.regions.clone()?,
        })
    }
}
