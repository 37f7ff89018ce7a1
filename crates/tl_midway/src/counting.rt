//! The report of a capture that begins in the middle of a run, and what is counted of its beats: each is judged and counted at once.

ghost use Rattle.std.specs.Prelude.{◌≡◌, ℕ, ◌+◌, ◌<◌, [], Option, false, length, IfOk, OnOk};
ghost use Rattle.std.specs.Io.Iter.{u64_saturate};
ghost use Rattle.std.specs.List.{All, Contains};
ghost use Rattle.tl_tables.specs.declared.Rule.{Rule as AnyRule};
ghost use Rattle.tl_topology.specs.Regions.{areas_of};
ghost use Rattle.tl_beats.specs.Beats.{IsWellFormed};
ghost use Rattle.tl_definitions.specs.Managers.{declared_links, manager_at};
ghost use Rattle.tl_definitions.specs.Positions.{clients_of};
ghost use Rattle.tl_check.specs.Captured.{areas_at};
ghost use Rattle.tl_midway.specs.Counts.{managers_counted};
ghost use Rattle.tl_midway.specs.Counted.{HasCounts, AreCounts, asked_of};
ghost use Rattle.tl_midway.specs.Judged.{HasJudged, GoesOver, CountsOn, AreRowsOf, AddsManager};
ghost use Rattle.tl_midway.specs.Report.{ArePrinted, IsMidwayReport};
ghost use Rattle.tl_midway.specs.LeadIns.{leads_in};
ghost use Rattle.tl_midway.specs.State.{IsOf};

use crate::counts::Counts;
use crate::judged::Judged;
use crate::midway::Midway;
use crate::plain_links::{judges_as_whole, named_links};
use crate::walked::{Walked, midway_rows};
use std::alloc::{AllocError, Global};
use tl_beats::Row;
use tl_capture::{Merged, Present};
use tl_check::{are_plain, sort_rows, watches_rows};
use tl_client_rules::clients_of;
use tl_edits::Inputs;
use tl_topology::{RegionMap, Topo};

/// A report, and what is counted of the beats that it is of.
#[derive(Drop)]
pub struct CountedReport {
    /// Its rows, in the order of reports.
    pub rows: Vec<Row>,
    /// How many beats are in lead-ins, and how many each rule leaves unjudged.
    pub counts: Counts,
}

/// Judges the beats of a manager with these regions that a walk gives, after those that were judged, and counts them.
/// AllocError where memory is refused: then what was judged and counted is for nothing more.
fn counted_walk<'a>(
    alloc: Global,
    topo: &Topo,
    regions: &RegionMap,
    walk: Merged<'a>,
    judged: &mut Judged,
    counts: &mut Counts,
) -> Result<(), AllocError>
    requires formed { All (λ p. IsWellFormed p.beat) walk }
    requires linked { All (λ p. Contains (clients_of judged.old.manager (declared_links topo.now)) p.link) walk }
    requires judged { IsOf (manager_at topo.now judged.old.manager (areas_of regions.now)) judged.old.state }
    ensures judged { OnOk result (GoesOver topo.now (areas_of regions.now) walk.entry judged.old judged.new) }
    ensures counts { OnOk result (CountsOn topo.now (areas_of regions.now) walk.entry judged.old counts.old counts.new) }
    ensures manager { judged.new.manager ≡ judged.old.manager }
    ensures law { counts.new.law ≡ counts.old.law }
    ensures by_rule { counts.new.by_rule ≡ counts.old.by_rule }
{
    for at in walk {
        let link = topo.link(at.link).unwrap();
        counts.add(alloc, link, regions, &at, &judged.state);
        judged
            .state
            .step(alloc, link, regions, &at, &mut judged.rows)?;
    }
    Ok(())
}

/// The same of all beats of a manager, none of which was judged. Where none of its links has caches, one link follows the other, since no
/// rule looks across links: that takes no merge of their beats.
fn counted_beats(
    alloc: Global,
    topo: &Topo,
    present: &Present,
    regions: &RegionMap,
    judged: &mut Judged,
    counts: &mut Counts,
) -> Result<(), AllocError>
    requires { HasJudged (manager_at topo.now judged.old.manager (areas_of regions.now)) counts.old.law [] judged.old }
    ensures rows { OnOk result (AreRowsOf counts.old.law topo.now (areas_of regions.now) present.now judged.old.manager judged.new.rows.items) }
    ensures counts { OnOk result (AddsManager topo.now (areas_of regions.now) present.now judged.old.manager counts.old counts.new) }
    ensures law { OnOk result (counts.new.law ≡ counts.old.law) }
    ensures by_rule { OnOk result (counts.new.by_rule ≡ counts.old.by_rule) }
{
    // No two fragments of a link share a number or a cycle.
    let _ = present.is_empty();
    let links = clients_of(alloc, topo, judged.manager)?;
    if !are_plain(topo, &links) {
        let walk = present.walk(alloc, &links)?;
        return counted_walk(alloc, topo, regions, walk, judged, counts);
    }
    for link in &links {
        let own = present.walk(alloc, &[*link])?;
        counted_walk(alloc, topo, regions, own, judged, counts)?;
    }
    Ok(())
}

/// The rows that are printed of a manager, in the order of positions; of its beats those in lead-ins are counted, and none by rule.
/// AllocError where memory is refused.
fn walked_manager(
    alloc: Global,
    topo: &Topo,
    present: &Present,
    manager: u16,
    regions: &RegionMap,
    counts: &mut Counts,
) -> Result<Vec<Row>, AllocError>
    requires { counts.old.by_rule ≡ false }
    ensures rows { IfOk result (λ rows. AreRowsOf counts.old.law topo.now (areas_of regions.now) present.now manager rows.items) }
    ensures counts { OnOk result (AddsManager topo.now (areas_of regions.now) present.now manager counts.old counts.new) }
    ensures law { OnOk result (counts.new.law ≡ counts.old.law) }
    ensures by_rule { OnOk result (counts.new.by_rule ≡ counts.old.by_rule) }
{
    let links = clients_of(alloc, topo, manager)?;
    let walk = present.walk(alloc, &links)?;
    let found = midway_rows(alloc, topo, manager, regions, counts.law, walk)?;
    counts.lead_ins = counts.lead_ins.saturating_add(found.lead_ins);
    Ok(found.rows)
}

/// The rows that are printed of a manager, in any order; its beats are counted. Where beats aren't counted by rule, and none of its links
/// has caches and all begin at heads, its links are judged as if nothing had come before.
fn counted_manager(
    alloc: Global,
    topo: &Topo,
    present: &Present,
    manager: u16,
    regions: &RegionMap,
    counts: &mut Counts,
) -> Result<Vec<Row>, AllocError>
    ensures rows { IfOk result (λ rows. AreRowsOf counts.old.law topo.now (areas_of regions.now) present.now manager rows.items) }
    ensures counts { OnOk result (AddsManager topo.now (areas_of regions.now) present.now manager counts.old counts.new) }
    ensures law { OnOk result (counts.new.law ≡ counts.old.law) }
    ensures by_rule { OnOk result (counts.new.by_rule ≡ counts.old.by_rule) }
{
    // No two fragments of a link share a number or a cycle.
    let _ = present.is_empty();
    let links = clients_of(alloc, topo, manager)?;
    if !counts.by_rule && judges_as_whole(counts.law, topo, &links) {
        return named_links(alloc, topo, present, manager, regions, &links);
    }
    if !counts.by_rule && !are_plain(topo, &links) {
        return walked_manager(alloc, topo, present, manager, regions, counts);
    }
    let mut judged = Judged::new(alloc, topo, manager, counts.law)?;
    counted_beats(alloc, topo, present, regions, &mut judged, counts)?;
    Ok(judged.rows)
}

/// The rows that are printed of all managers with their regions, one after the other.
fn counted_managers(
    alloc: Global,
    topo: &Topo,
    present: &Present,
    regions: &[RegionMap],
    counts: &mut Counts,
) -> Result<Vec<Row>, AllocError>
    ensures rows { IfOk result (λ rows. ArePrinted counts.old.law topo.now (areas_at regions.now) present.now (length topo.now.managers) rows.items) }
    ensures counts { OnOk result ((n : Option AnyRule → ℕ) → HasCounts counts.old n
        → HasCounts counts.new (λ asked. n asked + managers_counted (asked_of asked) counts.old.law topo.now (areas_at regions.now) present.now (length topo.now.managers))) }
    ensures law { OnOk result (counts.new.law ≡ counts.old.law) }
    ensures by_rule { OnOk result (counts.new.by_rule ≡ counts.old.by_rule) }
{
    let none = RegionMap::new(alloc);
    let mut rows = Vec::new(alloc);
    for manager in 0..topo.manager_count() {
        let own = regions.get(manager).unwrap_or(&none);
        let found = counted_manager(alloc, topo, present, manager as u16, own, counts)?;
        rows.extend_from_slice(&found)?;
    }
    Ok(rows)
}

/// What is found in fragments of a capture that begins so, without regions: the rows that are printed of all managers, in any order, and how
/// many of their beats are in lead-ins. AllocError where memory is refused.
pub fn capture_rows(
    alloc: Global,
    topo: &Topo,
    present: &Present,
    law: Midway,
) -> Result<Walked, AllocError>
    ensures rows { IfOk result (λ found. ArePrinted law topo.now (areas_at []) present.now (length topo.now.managers) found.rows.items) }
    ensures lead_ins { IfOk result (λ found. found.lead_ins ≡ u64_saturate (managers_counted leads_in law topo.now (areas_at []) present.now (length topo.now.managers))) }
{
    let mut counts = Counts::new(alloc, law, false)?;
    let rows = counted_managers(alloc, topo, present, &[], &mut counts)?;
    Ok(Walked {
        rows,
        lead_ins: counts.lead_ins,
    })
}

/// The report of a capture that begins in the middle of a run, so as the law says, of what edits leave: the rows of `midway_report`, and
/// what is counted of all beats, by rule too or not. AllocError where memory is refused.
pub fn counted_report(
    alloc: Global,
    inputs: &Inputs,
    law: Midway,
    by_rule: bool,
) -> Result<CountedReport, AllocError>
    ensures report { IfOk result (λ found. IsMidwayReport law inputs.now found.rows.items) }
    ensures links { IfOk result (λ found. All (λ row. row.link < length inputs.now.topo.links) found.rows.items) }
    ensures counts { IfOk result (λ found. AreCounts inputs.now found.counts) }
    ensures law { IfOk result (λ found. found.counts.law ≡ law) }
    ensures by_rule { IfOk result (λ found. found.counts.by_rule ≡ by_rule) }
{
    let topo = inputs.topo();
    let present = inputs.present();
    // Fragments of a link share no number and no cycle.
    let _ = present.is_empty();
    let watches = inputs.watches(alloc)?;
    let mut counts = Counts::new(alloc, law, by_rule)?;
    let mut rows = counted_managers(alloc, topo, present, inputs.regions(), &mut counts)?;
    let flagged = watches_rows(alloc, topo, present, &watches)?;
    rows.extend_from_slice(&flagged)?;
    Ok(CountedReport {
        rows: sort_rows(rows),
        counts,
    })
}

/// The rows of that report. AllocError where memory is refused.
pub fn midway_report(alloc: Global, inputs: &Inputs, law: Midway) -> Result<Vec<Row>, AllocError>
    ensures report { IfOk result (λ rows. IsMidwayReport law inputs.now rows.items) }
    ensures links { IfOk result (λ rows. All (λ row. row.link < length inputs.now.topo.links) rows.items) }
{
    let found = counted_report(alloc, inputs, law, false)?;
    Ok(found.rows)
}
