//! Fragments that a pass takes one after another, from wherever they come.

ghost use Rattle.std.specs.Prelude.{◌≡◌, ◌≤◌, ◌+◌, true, List, [], Option, length, IfOk};
ghost use Rattle.std.specs.List.{All};
ghost use Rattle.tl_beats.specs.Fragments.{Frag};
ghost use Rattle.tl_midway.specs.declared.midway.Midway.{Midway as AnyMidway};
ghost use Rattle.tl_pass.specs.Parts.{IsPart, IsWithin};
ghost use Rattle.tl_pass.specs.Reports.{standing, with_next, IsTaken};

use crate::link_pass::LinkPass;
use crate::manager_pass::{ManagerPass, have_caches};
use crate::part::{Links, Part};
use crate::pass::{Found, Hitch, Pass};
use std::alloc::Global;
use std::sync::Arc;
use tl_apart::Apart;
use tl_beats::Fragment;
use tl_midway::Midway;
use tl_topology::Topo;

/// Where fragments come from.
pub trait Supply {
    /// From what it was first to what it is now, it gave these fragments.
    ghost has_given: { Self → Self → List Frag → Type 0 };

    /// The next fragment; None where the next one is passed over, and after the last piece where they are those of one fragment.
    fn next(&mut self, alloc: Global) -> Result<Option<Arc<Fragment>>, Hitch>
        ensures { IfOk result (λ next. (first : Self) (before : List Frag) → has_given first self.old before → has_given first self.new (with_next before next)) };
}

/// What is found in so many fragments.
#[derive(Drop)]
pub struct Taken {
    /// How many they are.
    pub fragments: u64,
    /// What is found in them.
    pub found: Found,
}

/// Whether a fragment is of one of these links.
fn is_within(topo: &Topo, links: Links, fragment: &Fragment) -> bool
    ensures { result ≡ true → IsWithin topo.now links.first links.next fragment.now }
{
    match topo.link_of(&fragment.link()) {
        Some(link) => links.first <= link && link < links.next,
        None => false,
    }
}

/// Has a pass take the next fragment, where it isn't passed over, and answers how many that are. A hitch where it is of none of these
/// links.
fn take_next<P: Pass>(
    alloc: Global,
    topo: &Topo,
    links: Links,
    pass: &mut P,
    next: Option<Arc<Fragment>>,
) -> Result<u64, Hitch>
    ensures few { IfOk result (λ count. count ≤ 1) }
    ensures counted { (fs : List Frag) → IfOk result (λ count. length (with_next fs next) ≡ length fs + count) }
    ensures came { (midway : Option AnyMidway) (fs : List Frag) → P.has_come midway topo.now (standing topo.now fs) pass.old
        → IfOk result (λ _. P.has_come midway topo.now (standing topo.now (with_next fs next)) pass.new) }
    ensures within { (fs : List Frag) → All (IsWithin topo.now links.first links.next) fs
        → IfOk result (λ _. All (IsWithin topo.now links.first links.next) (with_next fs next)) }
{
    match next {
        Some(fragment) => {
            if !is_within(topo, links, &fragment) {
                return Err(Hitch::Fault);
            }
            pass.accept(alloc, fragment)?;
            Ok(1)
        }
        None => Ok(0),
    }
}

/// What is found in the fragments that a pass takes of the next so many, whichever captures it is for.
fn all_taken<P: Pass + Drop, S: Supply>(
    alloc: Global,
    topo: &Topo,
    links: Links,
    count: usize,
    pass: P,
    supply: &mut S,
) -> Result<Part, Hitch>
    requires { S.has_given supply.old supply.old [] }
    ensures { IfOk result (λ part. (fs : List Frag) × S.has_given supply.old supply.new fs
        × ((midway : Option AnyMidway) → P.has_come midway topo.now [] pass → IsPart midway topo.now fs part)) }
{
    let mut pass = pass;
    let mut fragments = 0u64;
    for _ in 0..count {
        let next = supply.next(alloc)?;
        fragments += take_next(alloc, topo, links, &mut pass, next)?;
    }
    let found = pass.report(alloc)?;
    Ok(Part {
        links,
        fragments,
        found,
    })
}

impl Part {
    /// What is found in those of the next so many fragments that are not passed over, of a whole run or of a capture that begins so: link
    /// after link where no link of the topology has caches, else with rising numbers and ranges on each link. A hitch where memory is
    /// refused, a fragment is refused, can't be had or is of none of these links, and where the capture begins in the middle of a run and
    /// some links have caches and others none.
    pub fn of<S: Supply>(
        alloc: Global,
        topo: &Topo,
        midway: Option<Midway>,
        links: Links,
        count: usize,
        supply: &mut S,
    ) -> Result<Part, Hitch>
        requires { S.has_given supply.old supply.old [] }
        ensures { IfOk result (λ part. (fs : List Frag) × S.has_given supply.old supply.new fs × IsPart midway topo.now fs part) }
    {
        let own = Arc::new(alloc, topo.copy(alloc)?)?;
        if have_caches(topo) {
            let pass = ManagerPass::new(alloc, own, midway)?;
            return all_taken(alloc, topo, links, count, pass, supply);
        }
        if let Some(pass) = LinkPass::new(alloc, Arc::try_clone(&own)?, midway) {
            return all_taken(alloc, topo, links, count, pass, supply);
        }
        match midway {
            None => {
                let pass = Apart::new(alloc, own)?;
                all_taken(alloc, topo, links, count, pass, supply)
            }
            Some(_) => Err(Hitch::Fault),
        }
    }
}

/// What is found in those of the next so many fragments that are not passed over, as in a part with all links.
pub fn report_of<S: Supply>(
    alloc: Global,
    topo: &Topo,
    midway: Option<Midway>,
    count: usize,
    supply: &mut S,
) -> Result<Taken, Hitch>
    requires { S.has_given supply.old supply.old [] }
    ensures { IfOk result (λ taken. (fs : List Frag) × S.has_given supply.old supply.new fs × IsTaken midway topo.now fs taken) }
{
    let links = Links {
        first: 0,
        next: topo.link_count() as u16,
    };
    let part = Part::of(alloc, topo, midway, links, count, supply)?;
    Ok(Taken {
        fragments: part.fragments,
        found: part.found,
    })
}
