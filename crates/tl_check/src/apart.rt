//! One link below the level of caches: its beats judged one after the other, from its first on.

ghost use Rattle.std.specs.Prelude.{◌≡◌, ◌++◌, None, false, is_none, map, OnOk};
ghost use Rattle.std.specs.List.{All};
ghost use Rattle.tl_tables.specs.Messages.{level_le};
ghost use Rattle.tl_tables.specs.declared.Level.TheVariants as level;
ghost use Rattle.tl_topology.specs.Regions.{areas_of};
ghost use Rattle.tl_topology.specs.Topology.{IsSound};
ghost use Rattle.tl_beats.specs.Beats.{IsWellFormed};
ghost use Rattle.tl_definitions.specs.Breaks.{row_of};
ghost use Rattle.tl_definitions.specs.LinkPasses.{LinkSnapshot, link_rules, link_next};
ghost use Rattle.tl_link_rules.specs.Bursts.{slot_at};
ghost use Rattle.tl_check.specs.Apart.{Shows, AreFormed, one_link, opening, judged_rows};

use crate::clean::clean_message;
use crate::requests::Requests;
use crate::rows::add_rows;
use std::alloc::{AllocError, Global};
use tl_beats::{Placed, Row};
use tl_capture::Merged;
use tl_link_rules::{BurstState, check_head, check_later};
use tl_tables::Chan;
use tl_topology::{LinkDecl, RegionMap};

/// What the beats of a link without caches leave for those that come: the bursts that miss beats, and the requests in flight.
#[derive(Drop)]
pub struct PlainLink {
    bursts: BurstState,
    requests: Requests,
}

impl PlainLink {
    ghost use Rattle.std.specs.Prelude.{ℕ};

    /// The state of a link without beats.
    pub fn new(alloc: Global) -> PlainLink
        ensures shows { (exponent : ℕ) → Shows result (opening exponent) }
        ensures formed { AreFormed result }
    {
        PlainLink {
            bursts: BurstState::new(),
            requests: Requests::new(alloc),
        }
    }

    /// Whether the next beat of a channel is a head.
    pub fn begins(&self, chan: Chan) -> bool
        ensures { (s : LinkSnapshot) → Shows self.now s → result ≡ is_none (s.burst chan) }
    {
        self.bursts.head(chan).is_none()
    }

    /// Judges the link's next beat by what the state shows: puts the rows of what it breaks at the end, and the state then shows what is
    /// left with it. AllocError where memory is refused: then state and rows may have part of the beat, and are for nothing more.
    #[inline(always)]
    pub fn step(
        &mut self,
        alloc: Global,
        decl: &LinkDecl,
        exponent: u8,
        regions: &RegionMap,
        at: &Placed,
        rows: &mut Vec<Row>,
    ) -> Result<(), AllocError>
        requires decl { IsSound decl.now }
        requires plain { level_le level.C decl.now.level ≡ false }
        requires beat { IsWellFormed at.now.beat }
        requires formed { AreFormed self.old }
        ensures rows { (s : LinkSnapshot) → Shows self.old s
            → OnOk result (rows.new.items ≡ rows.old.items ++ map (row_of at.now) (link_rules (one_link decl.now exponent (areas_of regions.now)) s at.now)) }
        ensures next { (s : LinkSnapshot) → Shows self.old s → OnOk result (Shows self.new (link_next (one_link decl.now exponent (areas_of regions.now)) s at.now)) }
        ensures formed { OnOk result (AreFormed self.new) }
    {
        match self.bursts.head(at.beat.chan) {
            Some(head) => {
                let later = check_later(alloc, decl, head, &at.beat);
                self.bursts.pass(decl, &at.beat);
                add_rows(rows, at, &later)
            }
            None => self.step_head(alloc, decl, exponent, regions, at, rows),
        }
    }

    /// The same where the beat is a head. Most heads are seen to break no rule, and then no list of rules is made.
    #[inline(always)]
    fn step_head(
        &mut self,
        alloc: Global,
        decl: &LinkDecl,
        exponent: u8,
        regions: &RegionMap,
        at: &Placed,
        rows: &mut Vec<Row>,
    ) -> Result<(), AllocError>
        requires decl { IsSound decl.now }
        requires plain { level_le level.C decl.now.level ≡ false }
        requires beat { IsWellFormed at.now.beat }
        requires formed { AreFormed self.old }
        requires head { slot_at self.old.bursts at.now.beat.chan ≡ None }
        ensures rows { (s : LinkSnapshot) → Shows self.old s
            → OnOk result (rows.new.items ≡ rows.old.items ++ map (row_of at.now) (link_rules (one_link decl.now exponent (areas_of regions.now)) s at.now)) }
        ensures next { (s : LinkSnapshot) → Shows self.old s → OnOk result (Shows self.new (link_next (one_link decl.now exponent (areas_of regions.now)) s at.now)) }
        ensures formed { OnOk result (AreFormed self.new) }
    {
        let request = self.requests.get(at.beat.source);
        if let Some(op) = clean_message(decl, regions, &at.beat, &request) {
            self.bursts.begin(decl, op, &at.beat);
            return self.requests.change(op, &at.beat);
        }
        self.bursts.pass(decl, &at.beat);
        let format = check_head(alloc, decl, exponent, regions, &at.beat);
        let flows = self.requests.step(alloc, decl, &at.beat)?;
        add_rows(rows, at, &format)?;
        add_rows(rows, at, &flows)
    }
}

/// Judges the beats of a link below the level of caches, which a walk gives from the first on, with the block and the regions of its
/// manager; puts the rows of what they break at the end. AllocError where memory is refused: then the rows are for nothing more.
pub fn add_link<'a>(
    alloc: Global,
    decl: &LinkDecl,
    exponent: u8,
    regions: &RegionMap,
    walk: Merged<'a>,
    rows: &mut Vec<Row>,
) -> Result<(), AllocError>
    requires decl { IsSound decl.now }
    requires plain { level_le level.C decl.now.level ≡ false }
    requires formed { All (λ p. IsWellFormed p.beat) walk }
    ensures { OnOk result (rows.new.items ≡ rows.old.items ++ judged_rows (one_link decl.now exponent (areas_of regions.now)) walk.entry) }
{
    let mut state = PlainLink::new(alloc);
    for at in walk {
        state.step(alloc, decl, exponent, regions, &at, rows)?;
    }
    Ok(())
}
