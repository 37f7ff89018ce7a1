//! The manager rules of a certain head, and all rows of one, where nobody recorded the first messages of the manager's links.

ghost use Rattle.std.specs.Prelude.{◌≡◌, ◌==◌, ◌&&◌, ◌++◌, [], not, true, filter, map, is_some, OnOk};
ghost use Rattle.std.specs.List.{list_any};
ghost use Rattle.tl_tables.specs.Kinds.{conflicts};
ghost use Rattle.tl_topology.specs.Regions.{areas_of};
ghost use Rattle.tl_topology.specs.Topology.{IsSound};
ghost use Rattle.tl_beats.specs.Beats.{IsWellFormed};
ghost use Rattle.tl_definitions.specs.Breaks.{row_of};
ghost use Rattle.tl_definitions.specs.Rules.{manager_order};
ghost use Rattle.tl_midway.specs.KnownPasts.{format_broken};
ghost use Rattle.tl_definitions.specs.Known.{surely, bare};
ghost use Rattle.tl_definitions.specs.Printed.{every_bound, front, printed_rules};
ghost use Rattle.tl_midway.specs.Known.{known_of};
ghost use Rattle.tl_midway.specs.KnownLink.{shown, has_open_grant};
ghost use Rattle.tl_midway.specs.ManagerReadings.{HasPlace};
ghost use Rattle.tl_midway.specs.declared.known_pasts.LinkPast.{LinkPast as AnyLink};

use crate::known::Known;
use crate::known_pasts::{KnownPasts, LinkPast};
use std::alloc::{AllocError, Global};
use tl_beats::{Beat, Placed, Request, Row};
use tl_check::add_rows;
use tl_client_rules::{block_of, claim, granted_block};
use tl_link_rules::{RuleList, check_head, keeps_format};
use tl_tables::{Op, Perm, Rule, is_grant, is_probe, op_of};
use tl_topology::{LinkDecl, RegionMap};

/// Whether what is set on a block is forbidden by the bound of another client than that of the link, whatever it is of those that
/// it may be.
fn any_forbids(links: &[LinkPast], link: u16, block: u64, set: Perm) -> bool
    ensures { result ≡ list_any (λ (own : AnyLink). not (own.number == link) && every_bound (conflicts set) ((shown own.past).client.bound block)) links.now }
{
    links
        .iter()
        .any(|own| own.number != link && own.past.forbids(block, set))
}

/// Whether a Probe of the block is known to be open at any client.
fn any_probe_open(links: &[LinkPast], block: u64) -> bool
    ensures { result ≡ list_any (λ (own : AnyLink). surely is_some ((shown own.past).client.probe block)) links.now }
{
    links.iter().any(|own| own.past.probe_open(block))
}

/// Whether a Grant of the block is known to be open at any client.
fn any_grant_open(links: &[LinkPast], block: u64) -> bool
    ensures { result ≡ list_any (λ (own : AnyLink). has_open_grant own.past block) links.now }
{
    links.iter().any(|own| own.past.grant_open(block))
}

impl KnownPasts {
    ghost use Rattle.tl_midway.specs.KnownPasts.{StandsFor, AtHead, AfterBeats, numbers_of, conflicts_known, probe_known, breaks_shown_manager, message_broken, AfterMessages};

    /// Whether what a Grant sets is surely forbidden by another client's bound: its request is known, and so its block.
    fn surely_conflicts(
        &self,
        link: u16,
        op: Op,
        head: &Beat,
        request: Known<Option<Request>>,
    ) -> bool
        ensures { result ≡ conflicts_known self.now link (known_of request) (bare op head.now) }
    {
        match request {
            Known::Sure(request) => match claim(self.exponent, op, head, request) {
                Some((block, set)) => any_forbids(&self.links, link, block, set),
                None => false,
            },
            Known::Unknown => false,
        }
    }

    /// Whether a Probe of a Grant's block is surely open: its request is known, and so its block.
    fn surely_meets_probe(&self, request: Known<Option<Request>>) -> bool
        ensures { result ≡ probe_known self.now (known_of request) }
    {
        match request {
            Known::Sure(request) => match granted_block(self.exponent, request) {
                Some(block) => any_probe_open(&self.links, block),
                None => false,
            },
            Known::Unknown => false,
        }
    }

    /// Whether a head with this message surely breaks the manager rule; no rule of another kind.
    pub(crate) fn breaks(
        &self,
        link: u16,
        op: Op,
        head: &Beat,
        request: Known<Option<Request>>,
        rule: Rule,
    ) -> bool
        ensures { result ≡ breaks_shown_manager self.now link (known_of request) (bare op head.now) rule }
    {
        match rule {
            Rule::M1 => is_grant(op) && self.surely_conflicts(link, op, head, request),
            Rule::M2 => is_grant(op) && self.surely_meets_probe(request),
            Rule::M3 => is_probe(op)
                && any_grant_open(&self.links, block_of(self.exponent, head.address)),
            _ => false,
        }
    }

    /// Whether it is seen to break no manager rule for certain, as most are; false says nothing.
    fn keeps_managers(
        &self,
        link: u16,
        op: Op,
        head: &Beat,
        request: Known<Option<Request>>,
    ) -> bool
        ensures { result ≡ true → filter (breaks_shown_manager self.now link (known_of request) (bare op head.now)) manager_order ≡ [] }
    {
        !self.breaks(link, op, head, request, Rule::M1)
            && !self.breaks(link, op, head, request, Rule::M2)
            && !self.breaks(link, op, head, request, Rule::M3)
    }

    /// The manager rules that it surely breaks, in the order of reports.
    fn manager_rules(
        &self,
        alloc: Global,
        link: u16,
        op: Op,
        head: &Beat,
        request: Known<Option<Request>>,
    ) -> RuleList
        ensures { result ≡ filter (breaks_shown_manager self.now link (known_of request) (bare op head.now)) manager_order }
    {
        let mut rules = RuleList::new(alloc);
        rules.push_if(self.breaks(link, op, head, request, Rule::M1), Rule::M1);
        rules.push_if(self.breaks(link, op, head, request, Rule::M2), Rule::M2);
        rules.push_if(self.breaks(link, op, head, request, Rule::M3), Rule::M3);
        rules
    }

    /// Puts the rows of a certain head with this message at the end, but for those of format rules.
    fn add_message(
        &self,
        alloc: Global,
        strict: bool,
        op: Op,
        at: &Placed,
        rows: &mut Vec<Row>,
    ) -> Result<(), AllocError>
        requires { HasPlace (numbers_of self.now) at.now.link }
        ensures { AfterMessages self.now (λ m f. OnOk result (rows.new.items ≡ rows.old.items ++ map (row_of at.now) (message_broken strict m f at.now.link (bare op at.now.beat)))) }
    {
        let place = self.place(at.link).unwrap();
        let past = &self.links[place].past;
        let request = past.request(op, &at.beat);
        // Most heads end here, and no list is made.
        if past.keeps_flow(op, &at.beat, request)
            && past.keeps_permissions(strict, op, &at.beat)
            && self.keeps_managers(at.link, op, &at.beat, request)
        {
            return Ok(());
        }
        self.put_message(alloc, strict, op, at, rows)
    }

    /// The same, rule by rule.
    #[cold]
    #[inline(never)]
    fn put_message(
        &self,
        alloc: Global,
        strict: bool,
        op: Op,
        at: &Placed,
        rows: &mut Vec<Row>,
    ) -> Result<(), AllocError>
        requires { HasPlace (numbers_of self.now) at.now.link }
        ensures { AfterMessages self.now (λ m f. OnOk result (rows.new.items ≡ rows.old.items ++ map (row_of at.now) (message_broken strict m f at.now.link (bare op at.now.beat)))) }
    {
        let place = self.place(at.link).unwrap();
        let past = &self.links[place].past;
        let request = past.request(op, &at.beat);
        let flow = past.flow_rules(alloc, op, &at.beat);
        let permissions = past.permission_rules(alloc, strict, op, &at.beat);
        let across = self.manager_rules(alloc, at.link, op, &at.beat, request);
        add_rows(rows, at, &flow)?;
        add_rows(rows, at, &permissions)?;
        add_rows(rows, at, &across)
    }

    /// Puts the rows of the format rules that a head breaks at the end. Most break none. [TileLink 1.8: message fields, alignment, byte lanes, corrupt and
    /// denied, transfer operations]
    #[cold]
    #[inline(never)]
    fn add_format(
        &self,
        alloc: Global,
        link: &LinkDecl,
        regions: &RegionMap,
        at: &Placed,
        rows: &mut Vec<Row>,
    ) -> Result<(), AllocError>
        requires link { IsSound link.now }
        requires beat { IsWellFormed at.now.beat }
        ensures { OnOk result (rows.new.items ≡ rows.old.items ++ map (row_of at.now) (format_broken self.now.exponent (areas_of regions.now) link.now at.now.beat)) }
    {
        let format = check_head(alloc, link, self.exponent, regions, &at.beat);
        add_rows(rows, at, &format)
    }

    /// Puts the rows of the manager's next beat, which is a head for certain, at the end: those that it has whatever came before the
    /// capture. AllocError where memory is refused: the rows are then for nothing more. [TileLink 1.8: coherence, permission
    /// transitions; own profile, after the concurrency rules]
    pub fn add_head(
        &self,
        alloc: Global,
        link: &LinkDecl,
        regions: &RegionMap,
        at: &Placed,
        rows: &mut Vec<Row>,
    ) -> Result<(), AllocError>
        requires link { IsSound link.now }
        requires beat { IsWellFormed at.now.beat }
        requires own { HasPlace (numbers_of self.now) at.now.link }
        ensures { AtHead self.now at.now link.now (areas_of regions.now) (λ m start before.
            OnOk result (rows.new.items ≡ rows.old.items ++ map (row_of at.now) (printed_rules m start before at.now))) }
    {
        match op_of(link.level, at.beat.chan, at.beat.opcode) {
            Some(op) => {
                // Most heads end here.
                if !keeps_format(link, self.exponent, regions, op, &at.beat) {
                    self.add_format(alloc, link, regions, at, rows)?;
                }
                self.add_message(alloc, link.strict, op, at, rows)
            }
            None => self.add_format(alloc, link, regions, at, rows),
        }
    }
}
