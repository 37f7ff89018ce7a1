//! Counts of the beats of a capture from the middle of a run: how many came before the heads of their channel were known, and how
//! many each rule leaves unjudged.

ghost use Rattle.std.specs.Prelude.{◌≡◌, ℕ, ◌+◌, true, Option, map, IfOk};
ghost use Rattle.std.specs.Io.Iter.{u64_saturate};
ghost use Rattle.tl_tables.specs.declared.Rule.{Rule as AnyRule};
ghost use Rattle.tl_topology.specs.Regions.{areas_of};
ghost use Rattle.tl_topology.specs.Topology.{IsSound};
ghost use Rattle.tl_beats.specs.Beats.{IsWellFormed};
ghost use Rattle.tl_definitions.specs.OpenTables.{one_if};
ghost use Rattle.tl_midway.specs.Counted.{rule_counts, one_beat};
ghost use Rattle.tl_midway.specs.State.{WhereServed, HasLink, IsKnown};

use crate::midway::Midway;
use crate::state::MidwayState;
use std::alloc::{AllocError, Global};
use tl_beats::Placed;
use tl_tables::{RULES, Rule};
use tl_topology::{LinkDecl, RegionMap};

/// How many beats a rule leaves unjudged.
#[derive(Clone, Copy, Debug, PartialEq, Eq)]
pub struct RuleCount {
    /// The rule.
    pub rule: Rule,
    /// How many; 2^64 - 1 where there are more.
    pub beats: u64,
}

/// What is counted of the beats of a capture.
#[derive(Drop)]
pub struct Counts {
    /// How the capture begins.
    pub law: Midway,
    /// How many beats are in lead-ins: before them the heads of their channel aren't known yet. 2^64 - 1 where there are more.
    pub lead_ins: u64,
    /// Whether beats are counted by rule too, which takes longer than judging them.
    pub by_rule: bool,
    /// How many beats each rule leaves unjudged, in the order of reports; of no rule where beats aren't counted by rule.
    pub unjudged: Vec<RuleCount>,
}

/// One more, where it counts.
fn one_more(count: u64, counts: bool) -> u64
    ensures { result ≡ u64_saturate (count + one_if counts) }
{
    if counts {
        count.saturating_add(1)
    } else {
        count
    }
}

/// No beat of any rule.
fn no_beats(alloc: Global) -> Result<Vec<RuleCount>, AllocError>
    ensures { IfOk result (λ counts. counts.items ≡ rule_counts (λ asked. 0) true) }
{
    RULES
        .iter()
        .map(|rule| RuleCount {
            rule: *rule,
            beats: 0,
        })
        .collect(alloc)
}

/// No beat of any rule by which beats are counted.
fn no_counts(alloc: Global, by_rule: bool) -> Result<Vec<RuleCount>, AllocError>
    ensures { IfOk result (λ counts. counts.items ≡ rule_counts (λ asked. 0) by_rule) }
{
    if by_rule {
        no_beats(alloc)
    } else {
        Ok(Vec::new(alloc))
    }
}

/// Counts the next beat of the state's manager for each rule that leaves it unjudged.
fn count_unjudged(
    alloc: Global,
    link: &LinkDecl,
    regions: &RegionMap,
    at: &Placed,
    state: &MidwayState,
    counts: &mut Vec<RuleCount>,
)
    requires link { IsSound link.now }
    requires beat { IsWellFormed at.now.beat }
    requires own { HasLink state.now at.now.link }
    requires known { IsKnown state.now }
    ensures { WhereServed state.now at.now.link link.now (areas_of regions.now) (λ m start before.
        counts.new.items ≡ map (one_beat m start before at.now) counts.old.items) }
{
    for place in 0..counts.len() {
        let count = counts[place];
        let is_unjudged = state.is_unjudged(alloc, link, regions, at, count.rule);
        counts[place] = RuleCount {
            rule: count.rule,
            beats: one_more(count.beats, is_unjudged),
        };
    }
}

impl Counts {
    ghost use Rattle.tl_midway.specs.Counted.{HasCounts, asked_of};

    /// No beat was counted. AllocError where memory is refused.
    pub fn new(alloc: Global, law: Midway, by_rule: bool) -> Result<Counts, AllocError>
        ensures none { IfOk result (λ counts. HasCounts counts (λ asked. 0)) }
        ensures by_rule { IfOk result (λ counts. counts.by_rule ≡ by_rule) }
        ensures law { IfOk result (λ counts. counts.law ≡ law) }
    {
        Ok(Counts {
            law,
            lead_ins: 0,
            by_rule,
            unjudged: no_counts(alloc, by_rule)?,
        })
    }

    /// Counts the next beat of a manager, whose state this is before the beat.
    pub fn add(
        &mut self,
        alloc: Global,
        link: &LinkDecl,
        regions: &RegionMap,
        at: &Placed,
        state: &MidwayState,
    )
        requires link { IsSound link.now }
        requires beat { IsWellFormed at.now.beat }
        requires own { HasLink state.now at.now.link }
        requires known { IsKnown state.now }
        ensures counts { WhereServed state.now at.now.link link.now (areas_of regions.now) (λ m start before. (n : Option AnyRule → ℕ)
            → HasCounts self.old n → HasCounts self.new (λ asked. n asked + one_if (asked_of asked m start before at.now))) }
        ensures law { self.new.law ≡ self.old.law }
        ensures by_rule { self.new.by_rule ≡ self.old.by_rule }
    {
        self.lead_ins = one_more(self.lead_ins, state.in_lead_in(at));
        if !self.by_rule {
            return;
        }
        if !state.is_settled(link, at) {
            count_unjudged(alloc, link, regions, at, state, &mut self.unjudged);
        }
    }
}
