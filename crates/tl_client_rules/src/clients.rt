//! The links of a manager, which are its clients.

ghost use Rattle.std.specs.Prelude.{◌≡◌, Some, true, IfOk};
ghost use Rattle.std.specs.Bool.{Decides};
ghost use Rattle.std.specs.List.Sorted.{IsStrictlySortedBy};
ghost use Rattle.std.specs.Ordering.{nat_cmp};
ghost use Rattle.tl_definitions.specs.Managers.{declared_links};
ghost use Rattle.tl_definitions.specs.Positions.{clients_of};
ghost use Rattle.tl_client_rules.specs.Clients.{place_of};

use std::alloc::{AllocError, Global};
use std::marker::Model;
use tl_topology::Topo;

/// The numbers of a manager's links, which are its clients, in rising order. AllocError where memory is refused.
pub fn clients_of(alloc: Global, topo: &Topo, manager: u16) -> Result<Vec<u16>, AllocError>
    ensures { IfOk result (λ clients. clients.items ≡ clients_of manager (declared_links topo.now)) }
{
    let mut clients = Vec::new(alloc);
    for number in 0..topo.link_count() {
        if let Some(link) = topo.link(number as u16) {
            if link.manager == manager {
                clients.push(number as u16)?;
            }
        }
    }
    Ok(clients)
}

/// The numbers of a manager's links, each once, rising.
#[derive(Drop)]
pub struct Clients {
    numbers: Vec<u16>,
}

impl Model for Clients {
    ghost use Rattle.std.specs.Prelude.{ℕ, List};
    ghost use Rattle.std.specs.List.Sorted.{IsStrictlySortedBy};
    ghost use Rattle.std.specs.Ordering.{nat_cmp};

    ghost Value = { List ℕ };

    ghost view = { λ c. c.numbers.items };

    ghost invariant = { λ c. IsStrictlySortedBy nat_cmp c.numbers.items };
}

impl Clients {
    /// Those of the manager with this number. AllocError where memory is refused.
    pub(crate) fn of(alloc: Global, topo: &Topo, manager: u16) -> Result<Clients, AllocError>
        ensures { IfOk result (λ clients. clients ≡ clients_of manager (declared_links topo.now)) }
    {
        Ok(Clients {
            numbers: clients_of(alloc, topo, manager)?,
        })
    }

    /// The numbers.
    pub(crate) fn numbers(&self) -> &[u16]
        ensures exact { result.now ≡ self.now }
        ensures rises { IsStrictlySortedBy nat_cmp self.now }
    {
        &self.numbers
    }

    /// The place of a link among them, if it is the manager's. Numbers mostly lie in a row, so one place is looked at first.
    #[inline(always)]
    pub(crate) fn place(&self, link: u16) -> Option<usize>
        ensures { result ≡ place_of link self.now }
    {
        let numbers = self.numbers();
        let first = numbers.first().copied().unwrap_or(0);
        let near = usize::from(link.wrapping_sub(first));
        if is_at(numbers, near, link) {
            return Some(near);
        }
        place_in(numbers, link)
    }

    /// The same numbers. AllocError where memory is refused.
    pub(crate) fn copy(&self, alloc: Global) -> Result<Clients, AllocError>
        ensures { IfOk result (λ copy. copy ≡ self.now) }
    {
        Ok(Clients {
            numbers: Vec::from_slice(alloc, &self.numbers)?,
        })
    }

    /// Whether both have the same numbers.
    pub(crate) fn is_same(&self, other: &Clients) -> bool
        ensures { Decides result (self.now ≡ other.now) }
    {
        same_numbers(&self.numbers, &other.numbers)
    }
}

/// Whether a link has this place among numbers that rise.
#[inline(always)]
fn is_at(numbers: &[u16], place: usize, link: u16) -> bool
    requires { IsStrictlySortedBy nat_cmp numbers.now }
    ensures { result ≡ true → place_of link numbers.now ≡ Some place }
{
    match numbers.get(place) {
        Some(number) => *number == link,
        None => false,
    }
}

/// The place of a link among numbers, if it is one of them.
#[inline(never)]
fn place_in(numbers: &[u16], link: u16) -> Option<usize>
    ensures { result ≡ place_of link numbers.now }
{
    numbers.iter().position(|number| *number == link)
}

/// Whether both are the same numbers in the same order.
fn same_numbers(here: &[u16], there: &[u16]) -> bool
    ensures { Decides result (here.now ≡ there.now) }
{
    here == there
}
