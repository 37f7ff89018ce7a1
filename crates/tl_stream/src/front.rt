//! How far links have come.

ghost use Rattle.std.specs.Prelude.{◌≡◌, ◌<◌, ◌^◌, ℕ, None, IfSome, nat_lt};
ghost use Rattle.std.specs.List.{list_all};
ghost use Rattle.tl_stream.specs.Fronts.{front_at, has_reached, past};

/// The newest fragment of a link: its number, and the last cycle of its range.
#[derive(Clone, Copy, Debug, PartialEq, Eq)]
pub(crate) struct Front {
    pub(crate) number: u32,
    pub(crate) last: u64,
}

/// The front of a link by its number, if it has one.
pub(crate) fn front_of(fronts: &[Option<Front>], link: u16) -> Option<Front>
    ensures { result ≡ front_at fronts.now link }
{
    *fronts.get(usize::from(link))?
}

/// The last cycle that all these links have reached; None where one has not begun.
pub(crate) fn reached(fronts: &[Option<Front>], links: &[u16]) -> Option<u64>
    ensures { (cycle : ℕ) → cycle < 2 ^ 64 → list_all (has_reached fronts.now cycle) links.now ≡ nat_lt cycle (past result) }
{
    let mut least = u64::MAX;
    for link in links {
        let front = front_of(fronts, *link)?;
        least = least.min(front.last);
    }
    Some(least)
}

/// The first of these links that has no front, if there is one.
pub(crate) fn silent_of(fronts: &[Option<Front>], links: &[u16]) -> Option<u16>
    ensures { IfSome result (λ link. front_at fronts.now link ≡ None) }
{
    for link in links {
        if front_of(fronts, *link).is_none() {
            return Some(*link);
        }
    }
    None
}
