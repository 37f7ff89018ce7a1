//! The rules by name.

ghost use Rattle.std.specs.Prelude.{◌≡◌};
ghost use Rattle.tl_rows.specs.Choice.{is_called, named_rule};

use tl_tables::{RULES, Rule, rule_text};

/// Whether a report calls the rule so, in any case of its letters.
fn is_called(rule: Rule, name: &[u8]) -> bool
    ensures { result ≡ is_called name.now rule }
{
    rule_text(rule).as_bytes().eq_ignore_ascii_case(name)
}

/// The rule that a report calls so, in any case of its letters; None where there is none.
#[tactic(auto, unfolding(crate::specs::Choice::named_rule))]
pub fn rule_named(name: &[u8]) -> Option<Rule>
    ensures { result ≡ named_rule name.now }
{
    RULES.iter().copied().find(|rule| is_called(*rule, name))
}
