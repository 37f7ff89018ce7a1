//! The managers that are checked, where they are not all.

ghost use Rattle.std.specs.Prelude.{◌≡◌, ◌≤◌, ℕ, List, Ok, length, option_map, is_none, IfOk, IfSome};
ghost use Rattle.tl_text.specs.Words.{lines_of, first_line};
ghost use Rattle.tl_beats.specs.Fragments.{Frag};
ghost use Rattle.tl_beats.specs.Reading.{fragment_in};
ghost use Rattle.tl_stream.specs.Shares.{leaves, left_in, passed_over, without_beats, TellsOf};

use crate::ending::sought;
use std::alloc::{AllocError, Global};
use std::marker::Model;
use tl_beats::{FragmentFault, parse_fragment};
use tl_text::line;
use tl_topology::{Name, Topo};

/// The managers of which the links are checked.
#[derive(Drop)]
pub struct Share {
    // None are all.
    managers: Option<Vec<u16>>,
}

impl Model for Share {
    ghost use Rattle.std.specs.Prelude.{ℕ, List, Option, option_map};

    ghost Value = { Option (List ℕ) };

    ghost view = { λ share. option_map (λ managers. managers.items) share.managers };
}

/// A fragment of a known link that is not checked.
#[derive(Clone, Copy, Debug, PartialEq, Eq)]
pub struct Passed {
    /// The last cycle of its range.
    pub last: u64,
    /// How many lines its text has.
    pub lines: u64,
    /// How many bytes.
    pub bytes: usize,
}

/// The text of a fragment with the first line of this text and no beats, if that ends. AllocError where memory is refused.
fn header_alone(alloc: Global, text: &[u8]) -> Result<Option<Vec<u8>>, AllocError>
    ensures { IfOk result (λ found. option_map (λ alone. lines_of alone.items) found ≡ option_map (λ first. without_beats first.0) (first_line (lines_of text.now))) }
{
    let Some((header, _)) = line(text) else {
        return Ok(None);
    };
    let mut alone = Vec::from_slice(alloc, header)?;
    alone.extend_from_slice(b"\nend\n")?;
    Ok(Some(alone))
}

impl Share {
    /// All managers.
    pub fn all() -> Share
        ensures { result ≡ None }
    {
        Share { managers: None }
    }

    /// The managers with these numbers.
    pub fn of(managers: Vec<u16>) -> Share
        ensures { result ≡ Some managers.items }
    {
        Share {
            managers: Some(managers),
        }
    }

    /// Whether they are all.
    pub(crate) fn is_all(&self) -> bool
        ensures { result ≡ is_none self.now }
    {
        self.managers.is_none()
    }

    /// Whether a name is that of a link of another manager.
    fn leaves(&self, topo: &Topo, link: &Name) -> bool
        ensures { result ≡ leaves topo.now self.now link.now }
    {
        let Some(managers) = &self.managers else {
            return false;
        };
        match topo.link_of(link).and_then(|number| topo.link(number)) {
            Some(decl) => !managers.contains(&decl.manager),
            None => false,
        }
    }

    /// The last cycle of the range of the fragment at the front of a text, if it is one of a link of another manager. AllocError where
    /// memory is refused.
    fn left_out(&self, alloc: Global, topo: &Topo, text: &[u8]) -> Result<Option<u64>, AllocError>
        ensures { IfOk result (λ last. last ≡ left_in topo.now self.now (fragment_in (lines_of text.now))) }
    {
        match parse_fragment(alloc, text) {
            Ok((fragment, _)) if self.leaves(topo, &fragment.link()) => Ok(Some(fragment.last())),
            Ok(_) => Ok(None),
            Err(FragmentFault::Memory) => Err(AllocError),
            Err(_) => Ok(None),
        }
    }

    /// The fragment at the front of a text, if its first line is that of one of a link of another manager, and a line `end` follows:
    /// its beats are not looked at. AllocError where memory is refused.
    pub fn passed(
        &self,
        alloc: Global,
        topo: &Topo,
        text: &[u8],
    ) -> Result<Option<Passed>, AllocError>
        ensures within { IfOk result (λ found. IfSome found (λ passed. passed.bytes ≤ length text.now)) }
        ensures exact { IfOk result (λ found. found ≡ passed_over topo.now self.now (lines_of text.now)) }
        // Of a text with a fragment at its front the fragment's link decides.
        ensures fragments { (f : Frag) (rest : List (List ℕ)) → fragment_in (lines_of text.now) ≡ Ok (f, rest) → IfOk result (TellsOf topo.now self.now f) }
    {
        if self.is_all() {
            return Ok(None);
        }
        let Some(alone) = header_alone(alloc, text)? else {
            return Ok(None);
        };
        let Some(last) = self.left_out(alloc, topo, &alone)? else {
            return Ok(None);
        };
        let found = sought(text, 0);
        if !found.has_end {
            return Ok(None);
        }
        Ok(Some(Passed {
            last,
            lines: found.lines as u64,
            bytes: found.place,
        }))
    }
}
