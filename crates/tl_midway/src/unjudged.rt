//! Beats that a rule leaves unjudged, as the capture hasn't told what it asks about.

ghost use Rattle.std.specs.Prelude.{◌≡◌, true, false, List};
ghost use Rattle.tl_topology.specs.Regions.{areas_of};
ghost use Rattle.tl_topology.specs.Topology.{IsSound};
ghost use Rattle.tl_beats.specs.Beats.{IsWellFormed};
ghost use Rattle.tl_tables.specs.declared.Rule.{Rule as AnyRule};
ghost use Rattle.tl_beats.specs.declared.Placed.{Placed as AnyPlaced};
ghost use Rattle.tl_definitions.specs.Heads.{message_of};
ghost use Rattle.tl_definitions.specs.Known.{Beginning};
ghost use Rattle.tl_definitions.specs.Rules.{Manager};
ghost use Rattle.tl_definitions.specs.Rules.{format_rules};
ghost use Rattle.tl_midway.specs.Asked.{is_among, is_of_later};
ghost use Rattle.tl_midway.specs.Unjudged.{is_unjudged};

use crate::state::MidwayState;
use std::alloc::Global;
use tl_beats::{Beat, Placed};
use tl_link_rules::check_head;
use tl_tables::{Rule, op_of, rule_number};
use tl_topology::{LinkDecl, RegionMap};

/// Whether later beats of a message can break the rule.
fn is_of_later(rule: Rule) -> bool
    ensures { result ≡ is_of_later rule }
{
    matches!(rule, Rule::F5 | Rule::F7 | Rule::U1)
}

/// Whether a rule is one of these.
fn is_among(rules: &[Rule], rule: Rule) -> bool
    ensures { result ≡ is_among rules.now rule }
{
    rules
        .iter()
        .any(|own| rule_number(*own) == rule_number(rule))
}

/// Whether the beat breaks the format rule as a head, of a manager whose blocks have 2 to the exponent bytes.
fn breaks_format(
    alloc: Global,
    link: &LinkDecl,
    exponent: u8,
    regions: &RegionMap,
    beat: &Beat,
    rule: Rule,
) -> bool
    requires link { IsSound link.now }
    requires beat { IsWellFormed beat.now }
    ensures { result ≡ is_among (format_rules exponent (areas_of regions.now) link.now beat.now (message_of link.now beat.now)) rule }
{
    let rules = check_head(alloc, link, exponent, regions, beat);
    is_among(rules.as_slice(), rule)
}

impl MidwayState {
    ghost use Rattle.tl_midway.specs.State.{WhereServed, HasLink, IsKnown, StandsFor};

    /// Whether the rule leaves the manager's next beat unjudged: by what is known, the beat may break it, and may not.
    pub fn is_unjudged(
        &self,
        alloc: Global,
        link: &LinkDecl,
        regions: &RegionMap,
        at: &Placed,
        rule: Rule,
    ) -> bool
        requires link { IsSound link.now }
        requires beat { IsWellFormed at.now.beat }
        requires own { HasLink self.now at.now.link }
        requires known { IsKnown self.now }
        ensures { WhereServed self.now at.now.link link.now (areas_of regions.now) (λ m start before. result ≡ is_unjudged rule m start before at.now) }
    {
        let readings = self.readings.channel(at);
        if is_of_later(rule) {
            return readings.leaves_open(link, &at.beat, rule);
        }
        if !readings.may_begin() {
            return false;
        }
        if readings.must_begin() {
            let op = op_of(link.level, at.beat.chan, at.beat.opcode);
            let past = self.pasts.past(at);
            return self.pasts.leaves_open(past, link.strict, op, at, rule);
        }
        self.pasts.may_break(link, at, rule)
            || breaks_format(alloc, link, self.pasts.exponent, regions, &at.beat, rule)
    }

    /// Whether it is seen at once that no rule leaves the manager's next beat unjudged: it surely belongs to a message that began with an
    /// earlier beat of the capture, or surely begins one about which nothing is asked that isn't known. False says nothing.
    pub(crate) fn is_settled(&self, link: &LinkDecl, at: &Placed) -> bool
        requires own { HasLink self.now at.now.link }
        requires known { IsKnown self.now }
        ensures { result ≡ true → (m : Manager) (start : Beginning) (before : List AnyPlaced) (r : AnyRule) → StandsFor m start self.now before
            → m.links at.now.link ≡ link.now → is_unjudged r m start before at.now ≡ false }
    {
        let readings = self.readings.channel(at);
        if readings.must_begin() {
            return self.pasts.asks_nothing(link, at);
        }
        readings.is_settled()
    }
}
