//! A link without caches whose channels begin at heads, where nobody recorded what came before: it is judged as if nothing had come, and
//! what is asked of sources that no message named isn't printed.

ghost use Rattle.std.specs.Prelude.{◌≡◌, ◌++◌, ℕ, [], ◌∷◌, not, false, filter, map, is_some, ◌&&◌, ◌||◌, OnOk};
ghost use Rattle.std.specs.List.{All};
ghost use Rattle.tl_tables.specs.Messages.{level_le};
ghost use Rattle.tl_tables.specs.declared.Level.TheVariants as level;
ghost use Rattle.tl_topology.specs.Regions.{areas_of};
ghost use Rattle.tl_topology.specs.Topology.{IsSound};
ghost use Rattle.tl_beats.specs.Beats.{IsWellFormed};
ghost use Rattle.tl_definitions.specs.Breaks.{row_of};
ghost use Rattle.tl_definitions.specs.Heads.{message_of};
ghost use Rattle.tl_definitions.specs.Known.{Beginning};
ghost use Rattle.tl_definitions.specs.Printed.{printed_rules};
ghost use Rattle.tl_definitions.specs.Rules.{Manager};
ghost use Rattle.tl_state.specs.Slots.{slot_of};
ghost use Rattle.tl_check.specs.Apart.{AreFormed};
ghost use Rattle.tl_midway.specs.Named.{is_flow, named_by, seen_by, AddsPrinted, BeginsAtHeads, StandsFor, WhereServed};

use std::alloc::{AllocError, Global};
use tl_beats::{Beat, Placed, Row};
use tl_capture::Merged;
use tl_check::PlainLink;
use tl_state::Slots;
use tl_tables::{Chan, Rule, is_release_ack, op_of};
use tl_topology::{LinkDecl, RegionMap};

/// What the beats of such a link leave.
#[derive(Drop)]
pub(crate) struct NamedLink {
    /// What they leave if nothing came before.
    state: PlainLink,
    /// The sources that a message named.
    named: Slots<()>,
}

/// Whether it is a flow rule.
fn is_flow(rule: Rule) -> bool
    ensures { result ≡ is_flow rule }
{
    matches!(
        rule,
        Rule::S1
            | Rule::S2
            | Rule::S3
            | Rule::S4
            | Rule::S5
            | Rule::S6
            | Rule::S7
            | Rule::S8
            | Rule::S9
    )
}

/// Puts the rows of other rules than flow rules at the end.
fn add_others(rows: &mut Vec<Row>, found: &[Row]) -> Result<(), AllocError>
    ensures { OnOk result (rows.new.items ≡ rows.old.items ++ filter (λ row. not (is_flow row.rule)) found.now) }
{
    for row in found {
        if !is_flow(row.rule) {
            rows.push(*row)?;
        }
    }
    Ok(())
}

impl NamedLink {
    /// The state of a link before its first beat.
    fn new(alloc: Global) -> NamedLink
        ensures formed { AreFormed result.state }
        ensures stands { (m : Manager) (start : Beginning) (number : ℕ) → BeginsAtHeads start number → StandsFor m start number result [] }
    {
        NamedLink {
            state: PlainLink::new(alloc),
            named: Slots::new(alloc),
        }
    }

    /// Whether what is in flight on a source is known.
    fn is_named(&self, link: &LinkDecl, source: u16) -> bool
        ensures { result ≡ seen_by link.now self.now source }
    {
        u32::from(source) >= link.sources || self.named.get(source).is_some()
    }

    /// A beat names its source, if it is a head, and a request or replies to one.
    fn name(&mut self, begins: bool, link: &LinkDecl, beat: &Beat) -> Result<(), AllocError>
        ensures named { OnOk result ((key : ℕ) → is_some (slot_of self.new.named key)
            ≡ (begins && named_by beat.now (message_of link.now beat.now) key || is_some (slot_of self.old.named key))) }
        ensures state { self.new.state ≡ self.old.state }
    {
        if !begins {
            return Ok(());
        }
        let Some(op) = op_of(link.level, beat.chan, beat.opcode) else {
            return Ok(());
        };
        if beat.chan == Chan::A || (beat.chan == Chan::D && !is_release_ack(op)) {
            self.named.set(beat.source, Some(()))?;
        }
        Ok(())
    }

    /// The rows of the link's next beat where its source isn't known, and what is left with it.
    fn step_unnamed(
        &mut self,
        alloc: Global,
        link: &LinkDecl,
        exponent: u8,
        regions: &RegionMap,
        at: &Placed,
        rows: &mut Vec<Row>,
    ) -> Result<(), AllocError>
        requires link { IsSound link.now }
        requires plain { level_le level.C link.now.level ≡ false }
        requires beat { IsWellFormed at.now.beat }
        requires formed { AreFormed self.old.state }
        requires unnamed { seen_by link.now self.old at.now.beat.source ≡ false }
        ensures rows { WhereServed self.old at.now.link link.now exponent (areas_of regions.now) (λ m start before.
            OnOk result (rows.new.items ≡ rows.old.items ++ map (row_of at.now) (printed_rules m start before at.now))) }
        ensures next { WhereServed self.old at.now.link link.now exponent (areas_of regions.now) (λ m start before. OnOk result (StandsFor m start at.now.link self.new (at.now ∷ before))) }
        ensures formed { OnOk result (AreFormed self.new.state) }
    {
        let begins = self.state.begins(at.beat.chan);
        let mut found = Vec::new(alloc);
        self.state
            .step(alloc, link, exponent, regions, at, &mut found)?;
        add_others(rows, &found)?;
        self.name(begins, link, &at.beat)?;
        Ok(())
    }

    /// Judges the link's next beat: puts the rows at the end that it has whatever came before the capture, and the state then stands for
    /// the beats with it. AllocError where memory is refused: then state and rows may have part of the beat, and are for nothing more.
    fn step(
        &mut self,
        alloc: Global,
        link: &LinkDecl,
        exponent: u8,
        regions: &RegionMap,
        at: &Placed,
        rows: &mut Vec<Row>,
    ) -> Result<(), AllocError>
        requires link { IsSound link.now }
        requires plain { level_le level.C link.now.level ≡ false }
        requires beat { IsWellFormed at.now.beat }
        requires formed { AreFormed self.old.state }
        ensures rows { WhereServed self.old at.now.link link.now exponent (areas_of regions.now) (λ m start before.
            OnOk result (rows.new.items ≡ rows.old.items ++ map (row_of at.now) (printed_rules m start before at.now))) }
        ensures next { WhereServed self.old at.now.link link.now exponent (areas_of regions.now) (λ m start before. OnOk result (StandsFor m start at.now.link self.new (at.now ∷ before))) }
        ensures formed { OnOk result (AreFormed self.new.state) }
    {
        if self.is_named(link, at.beat.source) {
            self.state.step(alloc, link, exponent, regions, at, rows)
        } else {
            self.step_unnamed(alloc, link, exponent, regions, at, rows)
        }
    }
}

/// Puts the rows at the end that are printed of the beats of a link without caches, which a walk gives from the first on, where no message
/// of it can have begun before the capture. AllocError where memory is refused: then the rows are for nothing more.
pub(crate) fn named_walk<'a>(
    alloc: Global,
    link: &LinkDecl,
    exponent: u8,
    regions: &RegionMap,
    walk: Merged<'a>,
    rows: &mut Vec<Row>,
) -> Result<(), AllocError>
    requires link { IsSound link.now }
    requires plain { level_le level.C link.now.level ≡ false }
    requires formed { All (λ p. IsWellFormed p.beat) walk }
    ensures { OnOk result (AddsPrinted link.now exponent (areas_of regions.now) walk.entry rows.old.items rows.new.items) }
{
    let mut state = NamedLink::new(alloc);
    for at in walk {
        state.step(alloc, link, exponent, regions, &at, rows)?;
    }
    Ok(())
}
