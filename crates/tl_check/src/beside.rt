//! Managers and links that several threads judge.

ghost use Rattle.std.specs.Prelude.{◌≡◌, ◌<◌, IfOk, length};
ghost use Rattle.std.specs.List.{All};
ghost use Rattle.tl_topology.specs.Regions.{areas_of};
ghost use Rattle.tl_definitions.specs.Managers.{manager_at};
ghost use Rattle.tl_definitions.specs.Report.{IsReport};
ghost use Rattle.tl_check.specs.Apart.{rows_of_links};
ghost use Rattle.tl_check.specs.Beside.{AreJoined};
ghost use Rattle.tl_check.specs.Captured.{captures_after, captures_with};
ghost use Rattle.tl_check.specs.Managers.{IsPlain, AreOfManager, AreOfManagers, HasManagers};

use crate::checking::with_watches;
use crate::managers::{links_rows, manager_numbers, plain_links_of, rows_of_managers, with_caches};
use crate::standing::scratch;
use std::alloc::{AllocError, Global};
use std::thread::{Threads, map_chunks};
use tl_beats::{Row, Watch};
use tl_capture::Present;
use tl_edits::Inputs;
use tl_topology::{RegionMap, Topo};

/// The thread that asks, and so many beside it.
#[derive(Drop)]
pub struct Judges<'a, R> {
    rt: &'a R,
    workers: u8,
}

/// The rows of the parts of a list, one part after the other. AllocError where memory was refused, or is.
fn joined(alloc: Global, parts: &[Result<Vec<Row>, AllocError>]) -> Result<Vec<Row>, AllocError>
    ensures { IfOk result (λ rows. AreJoined parts.now rows.items) }
{
    let mut rows = Vec::new(alloc);
    for part in parts {
        match part {
            Ok(own) => rows.extend_from_slice(own)?,
            Err(_) => return Err(AllocError),
        }
    }
    Ok(rows)
}

impl<'a, R: Threads + Sync + AllocGlobal> Judges<'a, R> {
    /// The thread that asks, and so many beside it.
    pub fn new(rt: &'a R, workers: u8) -> Judges<'a, R> {
        Judges { rt, workers }
    }

    /// How many of so many things each thread takes, 1 at least.
    fn share(&self, count: usize) -> usize
        ensures { 0 < result }
    {
        count.div_ceil(usize::from(self.workers) + 1).max(1)
    }

    /// The rows of links below the level of caches with the regions of their manager: each thread judges an equal share of the links.
    fn links_rows(
        &self,
        topo: &Topo,
        present: &Present,
        manager: u16,
        regions: &RegionMap,
        links: &[u16],
    ) -> Result<Vec<Row>, AllocError>
        requires manager { manager < length topo.now.managers }
        requires plain { All (IsPlain topo.now) links.now }
        requires within { All (λ link. link < length topo.now.links) links.now }
        ensures { IfOk result (λ rows. rows.items ≡ rows_of_links (manager_at topo.now manager (areas_of regions.now)) present.now links.now) }
    {
        let alloc = self.rt.alloc();
        let share = self.share(links.len());
        let parts = map_chunks(
            self.rt,
            alloc,
            links,
            share,
            &|_, part| links_rows(alloc, topo, present, manager, regions, part),
        )?;
        let rows = joined(alloc, &parts)?;
        Ok(rows)
    }

    /// The rows of a manager with its regions: its links without caches are judged by all threads, those with caches by this one.
    fn manager_rows(
        &self,
        topo: &Topo,
        present: &Present,
        manager: u16,
        regions: &RegionMap,
    ) -> Result<Vec<Row>, AllocError>
        requires { manager < length topo.now.managers }
        ensures { IfOk result (λ rows. AreOfManager topo.now manager (areas_of regions.now) present.now rows.items) }
    {
        let alloc = self.rt.alloc();
        let links = plain_links_of(alloc, topo, manager)?;
        let plain = self.links_rows(topo, present, manager, regions, &links)?;
        with_caches(alloc, topo, present, manager, regions, plain)
    }

    /// The rows of these managers with their regions: each thread judges an equal share of them.
    fn rows_of_managers(
        &self,
        topo: &Topo,
        present: &Present,
        regions: &[RegionMap],
        managers: &[u16],
    ) -> Result<Vec<Row>, AllocError>
        requires { All (λ manager. manager < length topo.now.managers) managers.now }
        ensures { IfOk result (λ rows. HasManagers topo.now regions.now present.now managers.now rows.items) }
    {
        let alloc = self.rt.alloc();
        let share = self.share(managers.len());
        let parts = map_chunks(
            self.rt,
            alloc,
            managers,
            share,
            &|_, part| rows_of_managers(alloc, topo, present, regions, part),
        )?;
        let rows = joined(alloc, &parts)?;
        Ok(rows)
    }

    /// The rows of all managers with their regions: of several by manager, of one by link.
    fn managers_rows(
        &self,
        topo: &Topo,
        present: &Present,
        regions: &[RegionMap],
    ) -> Result<Vec<Row>, AllocError>
        ensures { IfOk result (λ rows. AreOfManagers topo.now regions.now present.now rows.items) }
    {
        let alloc = self.rt.alloc();
        let managers = manager_numbers(alloc, topo)?;
        if managers.len() == 1 {
            let none = RegionMap::new(alloc);
            let own = regions.get(0).unwrap_or(&none);
            let found = self.manager_rows(topo, present, 0, own)?;
            return Ok(found);
        }
        let rows = self.rows_of_managers(topo, present, regions, &managers)?;
        Ok(rows)
    }

    /// What they allocate in.
    pub fn alloc(&self) -> Global {
        self.rt.alloc()
    }

    /// The report of what stands, as `check_all` makes it.
    fn check_all(
        &self,
        topo: &Topo,
        present: &Present,
        regions: &[RegionMap],
        watches: &[(u32, Watch)],
    ) -> Result<Vec<Row>, AllocError>
        ensures report { IfOk result (λ rows. IsReport (captures_with topo.now present.now regions.now watches.now) rows.items) }
        ensures links { IfOk result (λ rows. All (λ row. row.link < length topo.now.links) rows.items) }
    {
        let managers = self.managers_rows(topo, present, regions)?;
        let rows = with_watches(self.rt.alloc(), topo, present, watches, managers)?;
        Ok(rows)
    }

    /// The report of what stands, made from the beginning, as `scratch` makes it: it is the same for any number of threads. AllocError
    /// where memory is refused.
    pub fn scratch(&self, inputs: &Inputs) -> Result<Vec<Row>, AllocError>
        ensures report { IfOk result (λ rows. IsReport (captures_after inputs.now) rows.items) }
        ensures links { IfOk result (λ rows. All (λ row. row.link < length inputs.now.topo.links) rows.items) }
    {
        let alloc = self.rt.alloc();
        if self.workers == 0 {
            return scratch(alloc, inputs);
        }
        let watches = inputs.watches(alloc)?;
        self.check_all(inputs.topo(), inputs.present(), inputs.regions(), &watches)
    }
}
