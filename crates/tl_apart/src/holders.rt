//! What a manager knows of its links from the events that they told, and its rules over that.

ghost use Rattle.std.specs.Prelude.{◌≡◌, ℕ, ◌==◌, ◌&&◌, ◌++◌, ◌∷◌, [], not, true, Some, nat_lt, map, filter, IfOk, OnOk, if◌then◌else◌};
ghost use Rattle.std.specs.List.{list_any, position};
ghost use Rattle.std.specs.List.Sorted.{IsStrictlySortedBy};
ghost use Rattle.std.specs.Ordering.{nat_cmp};
ghost use Rattle.tl_tables.specs.Kinds.{conflicts};
ghost use Rattle.tl_definitions.specs.Breaks.{row_of};
ghost use Rattle.tl_definitions.specs.Events.{event_rules, event_next, all_shown};
ghost use Rattle.tl_definitions.specs.Judging.{snapshot};
ghost use Rattle.tl_definitions.specs.Rules.{Manager, manager_order};
ghost use Rattle.tl_apart.specs.Events.{said};
ghost use Rattle.tl_apart.specs.Holder.{shown};
ghost use Rattle.tl_apart.specs.Holders.{IsPlace, breaks_known};

use crate::event::Event;
use crate::holder::Holder;
use std::alloc::{AllocError, Global};
use tl_beats::{Placed, Row};
use tl_client_rules::conflicts;
use tl_tables::{Perm, Rule, is_grant, is_probe};

/// What a manager knows of its links from what they told: what each can hold, and what is open on it. [TileLink 1.8: coherence]
#[derive(Drop)]
pub struct Holders {
    /// One for each of the links, in the order of their numbers.
    holders: Vec<Holder>,
}

/// Whether a link has this place.
#[inline(always)]
fn is_at(holders: &[Holder], place: usize, link: u16) -> bool
    ensures { result ≡ true → IsPlace link holders.now (Some place) }
{
    match holders.get(place) {
        Some(holder) => holder.link == link,
        None => false,
    }
}

/// The first place of a link, if it has one.
#[inline(never)]
fn place_in(holders: &[Holder], link: u16) -> Option<usize>
    ensures { result ≡ position (λ holder. holder.link == link) holders.now }
{
    holders.iter().position(|holder| holder.link == link)
}

/// The place of a link, if it has one. Numbers mostly lie in a row, so one place is looked at first.
#[inline(always)]
fn place_of(holders: &[Holder], link: u16) -> Option<usize>
    ensures { IsPlace link holders.now result }
{
    let first = match holders.first() {
        Some(holder) => holder.link,
        None => 0,
    };
    let near = usize::from(link.wrapping_sub(first));
    if is_at(holders, near, link) {
        return Some(near);
    }
    place_in(holders, link)
}

/// Puts a row at the end.
#[cold]
#[inline(never)]
fn add_row(rows: &mut Vec<Row>, at: &Placed, rule: Rule) -> Result<(), AllocError>
    ensures { OnOk result (rows.new.items ≡ rows.old.items ++ row_of at.now rule ∷ []) }
{
    rows.push(Row {
        link: at.link,
        cycle: at.beat.cycle,
        chan: at.beat.chan,
        rule,
        monitor: None,
        fragment: at.fragment,
        line: at.line,
    })?;
    Ok(())
}

/// Puts a row at the end if the rule is broken. AllocError where memory is refused.
#[inline(always)]
fn add_row_if(broken: bool, rows: &mut Vec<Row>, at: &Placed, rule: Rule) -> Result<(), AllocError>
    ensures { OnOk result (rows.new.items ≡ rows.old.items ++ map (row_of at.now) (if broken then rule ∷ [] else [])) }
{
    if broken {
        return add_row(rows, at, rule);
    }
    Ok(())
}

impl Holders {
    ghost use Rattle.tl_apart.specs.Holders.{clients_of, Shows, ForShown};

    /// Nothing is known of what these links of a manager hold or have open. AllocError where memory is refused.
    pub fn new(alloc: Global, clients: &[u16]) -> Result<Holders, AllocError>
        requires rises { IsStrictlySortedBy nat_cmp clients.now }
        ensures clients { IfOk result (λ holders. clients_of holders ≡ clients.now) }
        ensures opening { (m : Manager) → IfOk result (λ holders. Shows holders (all_shown (snapshot m []))) }
    {
        let mut holders = Vec::new(alloc);
        holders.reserve_exact(clients.len())?;
        for client in clients {
            holders.push(Holder::new(alloc, *client))?;
        }
        Ok(Holders { holders })
    }

    /// Whether the bound of a link other than this forbids what is set on the block.
    fn is_forbidden(&self, link: u16, block: u64, set: Perm) -> bool
        ensures { result ≡ list_any (λ holder. not (holder.link == link) && conflicts set ((shown holder).bound block)) self.now.holders.items }
    {
        self.holders.iter().any(|holder| holder.link != link && conflicts(set, holder.bound(block)))
    }

    /// Whether a Probe of the block is open on any link.
    fn any_probed(&self, block: u64) -> bool
        ensures { result ≡ list_any (λ holder. (shown holder).probed block) self.now.holders.items }
    {
        self.holders.iter().any(|holder| holder.is_probed(block))
    }

    /// Whether a Grant of the block is open on any link.
    fn any_granted(&self, block: u64) -> bool
        ensures { result ≡ list_any (λ holder. nat_lt 0 ((shown holder).grants block)) self.now.holders.items }
    {
        self.holders.iter().any(|holder| holder.is_granted(block))
    }

    /// Whether an event breaks a manager rule.
    #[inline(always)]
    fn breaks(&self, event: &Event, rule: Rule) -> bool
        ensures { result ≡ breaks_known self.now.holders.items event.now rule }
    {
        match (rule, event.sets, event.block) {
            (Rule::M1, Some((block, set)), _) => {
                is_grant(event.op) && self.is_forbidden(event.place.link, block, set)
            }
            (Rule::M2, _, Some(block)) => is_grant(event.op) && self.any_probed(block),
            (Rule::M3, _, Some(block)) => is_probe(event.op) && self.any_granted(block),
            _ => false,
        }
    }

    /// Puts a row of each manager rule that an event breaks at the end. AllocError where memory is refused.
    fn judge(&self, event: &Event, rows: &mut Vec<Row>) -> Result<(), AllocError>
        ensures { OnOk result (rows.new.items
            ≡ rows.old.items ++ map (row_of event.now.place) (filter (breaks_known self.now.holders.items event.now) manager_order)) }
    {
        add_row_if(self.breaks(event, Rule::M1), rows, &event.place, Rule::M1)?;
        add_row_if(self.breaks(event, Rule::M2), rows, &event.place, Rule::M2)?;
        add_row_if(self.breaks(event, Rule::M3), rows, &event.place, Rule::M3)
    }

    /// Knows what an event told of its link. AllocError where memory is refused.
    fn learn(&mut self, event: &Event) -> Result<(), AllocError>
        ensures next { ForShown self.old (λ known. OnOk result (Shows self.new (event_next known (said event.now)))) }
        ensures clients { clients_of self.new ≡ clients_of self.old }
    {
        match place_of(&self.holders, event.place.link) {
            Some(place) => self.holders[place].learn(event),
            None => Ok(()),
        }
    }

    /// Judges the next event by what is known: puts a row of each manager rule that it breaks at the end, in the order of the rules;
    /// then knows what the event told. Of a link that isn't the manager's nothing is kept. AllocError where memory is refused: then
    /// it is for nothing more.
    pub fn step(&mut self, event: &Event, rows: &mut Vec<Row>) -> Result<(), AllocError>
        ensures rows { ForShown self.old (λ known. OnOk result (rows.new.items
            ≡ rows.old.items ++ map (row_of event.now.place) (event_rules (clients_of self.old) known (said event.now)))) }
        ensures next { ForShown self.old (λ known. OnOk result (Shows self.new (event_next known (said event.now)))) }
        ensures clients { clients_of self.new ≡ clients_of self.old }
    {
        self.judge(event, rows)?;
        self.learn(event)
    }
}
