//! The orders of channels and of rules.

ghost use Rattle.std.specs.Prelude.{◌≡◌, refl};
ghost use Rattle.std.specs.Cmp.{on_total, nat_cmp_total, partial_order_from_agreeing_total};
ghost use Rattle.std.specs.Ordering.{nat_cmp, on, as_partial_cmp};
ghost use Rattle.tl_tables.specs.Messages.{chan_number};
ghost use Rattle.tl_tables.specs.Order.{rules_tie, chans_tie};
ghost use Rattle.tl_tables.specs.Rules.{rule_number};

use crate::{Chan, Rule, chan_index};
use std::cmp::Ordering;

/// The place of a rule among the rules, from 1: the order of the rows of one beat.
pub fn rule_number(rule: Rule) -> u8
    ensures { result ≡ rule_number rule }
{
    rule as u8 + 1
}

impl PartialOrd for Rule {
    ghost partial_cmp = { as_partial_cmp (on rule_number nat_cmp) };

    ghost laws = { partial_order_from_agreeing_total (on rule_number nat_cmp) (on_total rule_number nat_cmp_total) (λ x y. refl) rules_tie };

    fn partial_cmp(&self, other: &Rule) -> Option<Ordering> {
        Some(self.cmp(other))
    }
}

impl Ord for Rule {
    ghost cmp = { on rule_number nat_cmp };

    ghost total = { on_total rule_number nat_cmp_total };

    ghost matches_partial_cmp = { λ x y. refl };

    ghost matches_eq = { rules_tie };

    fn cmp(&self, other: &Rule) -> Ordering {
        rule_number(*self).cmp(&rule_number(*other))
    }
}

impl PartialOrd for Chan {
    ghost partial_cmp = { as_partial_cmp (on chan_number nat_cmp) };

    ghost laws = { partial_order_from_agreeing_total (on chan_number nat_cmp) (on_total chan_number nat_cmp_total) (λ x y. refl) chans_tie };

    fn partial_cmp(&self, other: &Chan) -> Option<Ordering> {
        Some(self.cmp(other))
    }
}

impl Ord for Chan {
    ghost cmp = { on chan_number nat_cmp };

    ghost total = { on_total chan_number nat_cmp_total };

    ghost matches_partial_cmp = { λ x y. refl };

    ghost matches_eq = { chans_tie };

    fn cmp(&self, other: &Chan) -> Ordering {
        chan_index(*self).cmp(&chan_index(*other))
    }
}
