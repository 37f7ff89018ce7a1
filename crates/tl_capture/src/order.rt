//! Orders, in place.

ghost use Rattle.std.specs.Prelude.{◌≡◌, ◌↔◌, ℕ, IfOk};
ghost use Rattle.std.specs.List.{Contains};
ghost use Rattle.std.specs.Ordering.{nat_cmp};
ghost use Rattle.std.specs.List.Sorted.{IsPermutation, IsStrictlySortedBy};
ghost use Rattle.tl_definitions.specs.Positions.{position_order, AreInOrder};

use std::alloc::AllocError;
use std::cmp::Ordering;
use tl_beats::Placed;
use tl_tables::chan_index;

/// How a beat lies to another in the order of positions.
pub(crate) fn order(here: &Placed, there: &Placed) -> Ordering
    ensures { result ≡ position_order here.now there.now }
{
    let channel = chan_index(here.beat.chan).cmp(&chan_index(there.beat.chan));
    let cycle = here.beat.cycle.cmp(&there.beat.cycle);
    cycle.then(channel.then(here.link.cmp(&there.link)))
}

/// The same beats in the order of positions. Those of each link are in order already, and this sort merges such stretches.
/// AllocError where memory is refused.
pub(crate) fn in_order(beats: Vec<Placed>) -> Result<Vec<Placed>, AllocError>
    ensures permutation { IfOk result (λ sorted. IsPermutation beats.items sorted.items) }
    ensures order { IfOk result (λ sorted. AreInOrder sorted.items) }
{
    let mut sorted = beats;
    sorted.sort_by(|here, there| order(here, there))?;
    Ok(sorted)
}

/// The same numbers, rising, each once.
pub(crate) fn sort_once(numbers: Vec<u64>) -> Vec<u64>
    ensures rises { IsStrictlySortedBy nat_cmp result.items }
    ensures members { (number : ℕ) → Contains result.items number ↔ Contains numbers.items number }
{
    let mut sorted = numbers;
    sorted.sort_unstable();
    sorted.dedup();
    sorted
}
