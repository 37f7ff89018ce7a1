//! Names of links and managers.

ghost use Rattle.std.specs.Prelude.{◌≡◌, IfSome, Some, true};
ghost use Rattle.std.specs.Cmp.Rules.{comparing, hashing};
ghost use Rattle.std.proofs.Common.{rules};
ghost use Rattle.std.specs.Hash as fed;
ghost use lib.Pointwise.{pointwise};
ghost use Rattle.std.specs.Prelude.{nat_eq};
ghost use Rattle.tl_text.specs.Names.{is_name};

use crate::names::is_name;
use std::fmt;
use std::hash::{Hash, Hasher};
use std::marker::Model;

/// A name of 1 to 16 bytes: a lower-case letter, then lower-case letters, digits or `_`. Contracts see its text.
#[derive(Clone, Copy, Debug)]
pub struct Name {
    bytes: [u8; 16],
    len: u8,
}

impl Model for Name {
    ghost use Rattle.std.specs.Prelude.{List, ℕ};

    ghost Value = { List ℕ };

    ghost use Rattle.tl_text.specs.Naming.{name_text, IsPadded, padded, padded_again};

    ghost view = { name_text };

    ghost invariant = { IsPadded };

    ghost inverse = { padded };

    ghost inverse_ok = { padded_again };
}

impl Name {
    ghost use Rattle.tl_text.specs.Naming.{name_at};

    /// The name that a word is, or None where it is none.
    #[tactic(auto, unfolding(crate::specs::Naming::name_at))]
    pub fn new(word: &[u8]) -> Option<Name>
        ensures exact { result ≡ name_at word.now }
        ensures named { IfSome result (λ name. is_name name ≡ true) }
    {
        if !is_name(word) {
            return None;
        }
        let mut bytes = [0u8; 16];
        bytes[..word.len()].copy_from_slice(word);
        Some(Name {
            bytes,
            len: word.len() as u8,
        })
    }

    /// The bytes of its text, all of them ASCII.
    pub fn as_bytes(&self) -> &[u8]
        ensures { result.now ≡ self.now }
    {
        &self.bytes[..self.len as usize]
    }

    /// Its text.
    pub fn as_str(&self) -> &str
        ensures { result.now ≡ self.now }
    {
        str::from_utf8(&self.bytes[..self.len as usize]).unwrap()
    }
}

impl fmt::Display for Name {
    ghost output = { λ name. Some name };

    fn fmt<W: fmt::Write>(&self, f: &mut fmt::Formatter<W>) -> fmt::Result {
        f.write_str(self.as_str())
    }
}

impl PartialEq for Name {
    ghost eq = { pointwise nat_eq };

    ghost laws = { Prim.search (comparing, rules) };

    fn eq(&self, other: &Name) -> bool {
        self.as_bytes() == other.as_bytes()
    }
}

impl Eq for Name {
    ghost laws = { Prim.search (comparing, rules) };
}

impl Hash for Name {
    ghost hash_input = { fed.slice fed.u8 };

    ghost respects_eq = { Prim.search (hashing, rules) };

    fn hash<H: Hasher>(&self, state: &mut H) {
        self.as_bytes().hash(state);
    }
}
