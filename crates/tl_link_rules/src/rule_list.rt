//! The rules of one beat.

ghost use Rattle.std.specs.Prelude.{◌≡◌, ◌<◌, ◌≤◌, ◌+◌, [], ◌∷◌, ◌++◌, length, if◌then◌else◌};

use smallvec::SmallVec;
use std::alloc::Global;
use std::marker::Model;
use tl_tables::Rule;

/// Rules in the order of reports, each once; ten places lie in the value, so a list takes no memory.
#[derive(Drop)]
pub struct RuleList {
    rules: SmallVec<Rule, 10>,
}

impl Model for RuleList {
    ghost use Rattle.std.specs.Prelude.{◌≡◌, ◌≤◌, List, length};
    ghost use Rattle.tl_tables.specs.declared.Rule.{Rule as AnyRule};

    ghost Value = { List AnyRule };

    ghost view = { λ l. l.rules.items };

    ghost invariant = { λ l. (l.rules.capacity ≡ 10) × (length l.rules.items ≤ 10) };
}

impl RuleList {
    /// A list without rules.
    pub fn new(alloc: Global) -> RuleList
        ensures { result ≡ [] }
    {
        RuleList {
            rules: SmallVec::new(alloc),
        }
    }

    /// Puts a rule at the end, where there is room for it.
    pub fn push(&mut self, rule: Rule)
        requires { length self.old < 10 }
        ensures { self.new ≡ self.old ++ rule ∷ [] }
    {
        self.rules.push_reserved(rule);
    }

    /// Puts a rule at the end if it is broken, where there is room for it.
    pub fn push_if(&mut self, broken: bool, rule: Rule)
        requires { length self.old < 10 }
        ensures exact { self.new ≡ self.old ++ (if broken then rule ∷ [] else []) }
        ensures few { length self.new ≤ length self.old + 1 }
    {
        if broken {
            self.push(rule);
        }
    }

    /// The rules.
    pub fn as_slice(&self) -> &[Rule]
        ensures { result.now ≡ self.now }
    {
        self.rules.as_slice()
    }
}
