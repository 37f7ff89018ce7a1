//! The judge of one link: what its beats break of the link's own rules, and what they tell its manager.

ghost use Rattle.std.specs.Prelude.{◌≡◌, ◌≤◌, ◌++◌, ℕ, [], Some, None, length, map, take, IfSome, OnOk};
ghost use Rattle.std.specs.Option.{option_map, option_and_then};
ghost use Rattle.tl_topology.specs.Topology.{IsSound};
ghost use Rattle.tl_beats.specs.Beats.{IsWellFormed};
ghost use Rattle.tl_definitions.specs.Breaks.{row_of};
ghost use Rattle.tl_definitions.specs.Events.{told_by, event_of, is_told, is_news, with_event, link_events};
ghost use Rattle.tl_definitions.specs.Heads.{message_of};
ghost use Rattle.tl_definitions.specs.Judging.{request_in};
ghost use Rattle.tl_definitions.specs.LinkPasses.{LinkSnapshot, link_rules, link_next, link_judging};
ghost use Rattle.tl_definitions.specs.OpenTables.{passes};
ghost use Rattle.tl_definitions.specs.Passes.{rows_judged, left_after};
ghost use Rattle.tl_definitions.specs.Positions.{placed_beats, placed_from};
ghost use Rattle.tl_definitions.specs.Rules.{Manager};
ghost use Rattle.tl_capture.specs.Present.{recorded};
ghost use Rattle.tl_link_rules.specs.Bursts.{slot_at};
ghost use Rattle.tl_link_rules.specs.Flow as flow_state;
ghost use Rattle.tl_client_rules.specs.Client as client_state;
ghost use Rattle.tl_state.specs.Slots.{slot_of};
ghost use Rattle.tl_apart.specs.Events.{said};
ghost use Rattle.tl_check.specs.Apart.{opening};
ghost use Rattle.tl_apart.specs.LinkJudge.{Shows, AreFormed, ForShown, HasRun, alone, is_message, message_rules, granted_after, told_block};

use crate::event::Event;
use std::alloc::{AllocError, Global};
use std::collections::VecDeque;
use tl_beats::{Beat, Fragment, Placed, Request, Row};
use tl_check::add_rows;
use tl_client_rules::{ClientState, block_of, claim, granted_block};
use tl_link_rules::{BurstState, FlowState, check_head, check_later, keeps_burst, keeps_format};
use tl_state::Slots;
use tl_tables::{
    Chan, Op, Perm, is_above, is_grant, is_grant_ack, is_of_block, is_probe, is_probe_ack, op_of,
};
use tl_topology::{LinkDecl, RegionMap};

/// What the beats of a link are judged by: its declaration, and the block and the regions of its manager. A block has 2 to the exponent
/// bytes.
#[derive(Clone, Copy)]
pub struct Terms<'a> {
    /// The link, as its topology declares it.
    pub decl: &'a LinkDecl,
    /// The exponent of the block.
    pub exponent: u8,
    /// The regions of the manager.
    pub regions: &'a RegionMap,
}

/// What beats of a link break and tell, each in the order of the beats.
#[derive(Drop)]
pub struct Findings {
    /// The rows of the link's own rules.
    pub rows: Vec<Row>,
    /// What its manager has not read yet.
    pub events: VecDeque<Event>,
}

/// What the beats of one link leave for those that come: what is unfinished and in flight, what its client can hold, and what is open
/// on it.
#[derive(Drop)]
pub struct LinkJudge {
    bursts: BurstState,
    flow: FlowState,
    client: ClientState,
    /// The block, if known, of the Grant that is open on a sink.
    granted: Slots<Option<u64>>,
}

/// The message of a head, and the request that it answers.
#[derive(Clone, Copy)]
struct Head {
    op: Op,
    request: Option<Request>,
}

/// Keeps the block of a Grant on its sink, and takes it at the GrantAck. AllocError where memory is refused: then nothing has changed.
fn keep_granted(
    granted: &mut Slots<Option<u64>>,
    exponent: u8,
    beat: &Beat,
    head: &Head,
) -> Result<(), AllocError>
    ensures { OnOk result ((sink : ℕ) → slot_of granted.new sink ≡ granted_after exponent (is_message beat.now head.now) (slot_of granted.old) sink) }
{
    if is_grant(head.op) {
        granted.set(beat.sink, Some(granted_block(exponent, head.request)))?;
    } else if is_grant_ack(head.op) {
        granted.take(beat.sink);
    }
    Ok(())
}

/// Whether a message is told whatever it sets.
fn is_told(op: Op) -> bool
    ensures { result ≡ is_told op }
{
    is_probe(op) || is_probe_ack(op) || is_grant(op) || is_grant_ack(op)
}

/// The block of a message, if it is known.
fn told_block(exponent: u8, beat: &Beat, head: &Head) -> Option<u64>
    ensures { result ≡ told_block exponent (is_message beat.now head.now) }
{
    if is_grant(head.op) {
        granted_block(exponent, head.request)
    } else {
        Some(block_of(exponent, beat.address))
    }
}

impl LinkJudge {
    /// The judge of a link without beats. A block of its manager has 2 to the exponent bytes.
    pub fn new(alloc: Global, exponent: u8) -> LinkJudge
        ensures shows { Shows exponent result (opening exponent) }
        ensures formed { AreFormed result }
    {
        LinkJudge {
            bursts: BurstState::new(),
            flow: FlowState::new(alloc),
            client: ClientState::new(alloc, exponent),
            granted: Slots::new(alloc),
        }
    }

    /// Judges the link's next beat by what the state shows: puts the rows of what it breaks of its link's own rules at the end, and the
    /// event that it tells its manager, if it tells one; the state then shows what is left with it. AllocError where memory is refused:
    /// then state and findings may have part of the beat, and are for nothing more.
    pub fn step(
        &mut self,
        alloc: Global,
        terms: &Terms<'_>,
        at: &Placed,
        found: &mut Findings,
    ) -> Result<(), AllocError>
        requires decl { IsSound terms.now.decl.now }
        requires beat { IsWellFormed at.now.beat }
        requires formed { AreFormed self.old }
        ensures rows { ForShown terms.now at.now.link self.old
            (λ m s. OnOk result (found.new.rows.items ≡ found.old.rows.items ++ map (row_of at.now) (link_rules m s at.now))) }
        ensures next { ForShown terms.now at.now.link self.old (λ m s. OnOk result (Shows terms.now.exponent self.new (link_next m s at.now))) }
        ensures events { ForShown terms.now at.now.link self.old
            (λ m s. OnOk result (map said found.new.events.items ≡ map said found.old.events.items ++ with_event (event_of m s at.now) [])) }
        ensures formed { AreFormed self.new }
    {
        match self.bursts.head(at.beat.chan) {
            Some(head) => {
                if keeps_burst(head, &at.beat) {
                    self.bursts.pass(terms.decl, &at.beat);
                    return Ok(());
                }
                let later = check_later(alloc, terms.decl, head, &at.beat);
                add_rows(&mut found.rows, at, &later)?;
                self.bursts.pass(terms.decl, &at.beat);
                Ok(())
            }
            None => self.step_head(alloc, terms, at, found),
        }
    }

    /// Goes on with the beats at the front of these, of its link, that belong to the burst which is unfinished on a channel, and are seen to
    /// break no rule; answers how many they are.
    fn run(&mut self, chan: Chan, beats: &[Beat]) -> usize
        requires { AreFormed self.old }
        ensures within { result ≤ length beats.now }
        ensures formed { AreFormed self.new }
        ensures run { (m : Manager) (s : LinkSnapshot) (exponent number fragment line : ℕ) → Shows exponent self.old s
            → HasRun m s exponent self.new (placed_from number fragment line (take result beats.now)) }
    {
        self.bursts.run(chan, beats)
    }

    /// The same as `step` where the beat is a head. Most heads are seen to break no rule, and then no list of rules is made.
    fn step_head(
        &mut self,
        alloc: Global,
        terms: &Terms<'_>,
        at: &Placed,
        found: &mut Findings,
    ) -> Result<(), AllocError>
        requires decl { IsSound terms.now.decl.now }
        requires beat { IsWellFormed at.now.beat }
        requires formed { AreFormed self.old }
        requires head { slot_at self.old.bursts at.now.beat.chan ≡ None }
        ensures rows { (s : LinkSnapshot) → Shows terms.now.exponent self.old s
            → OnOk result (found.new.rows.items ≡ found.old.rows.items ++ map (row_of at.now) (link_rules (alone terms.now) s at.now)) }
        ensures next { (s : LinkSnapshot) → Shows terms.now.exponent self.old s
            → OnOk result (Shows terms.now.exponent self.new (link_next (alone terms.now) s at.now)) }
        ensures events { (s : LinkSnapshot) → Shows terms.now.exponent self.old s
            → OnOk result (map said found.new.events.items ≡ map said found.old.events.items ++ with_event (event_of (alone terms.now) s at.now) []) }
        ensures formed { AreFormed self.new }
    {
        match self.clean_head(terms, at) {
            Some(head) => self.pass(terms, at, &head, &mut found.events),
            None => self.judge_head(alloc, terms, at, found),
        }
    }

    /// What a head is that is seen to break no rule. None says nothing.
    fn clean_head(&self, terms: &Terms<'_>, at: &Placed) -> Option<Head>
        requires decl { IsSound terms.now.decl.now }
        requires beat { IsWellFormed at.now.beat }
        requires head { slot_at self.now.bursts at.now.beat.chan ≡ None }
        ensures message { IfSome result (λ head. message_of terms.now.decl.now at.now.beat ≡ Some head.op) }
        ensures request { IfSome result (λ head. head.request ≡ request_in (flow_state.shown self.now.flow) head.op at.now.beat) }
        ensures rules { (s : LinkSnapshot) → Shows terms.now.exponent self.now s → IfSome result (λ _. link_rules (alone terms.now) s at.now ≡ []) }
    {
        let op = op_of(terms.decl.level, at.beat.chan, at.beat.opcode)?;
        if !keeps_format(terms.decl, terms.exponent, terms.regions, op, &at.beat) {
            return None;
        }
        let request = self.flow.request_of(op, &at.beat);
        if !self.flow.keeps_flow(op, &at.beat, &request) {
            return None;
        }
        if !self
            .client
            .keeps_permissions(terms.decl.strict, op, &at.beat)
        {
            return None;
        }
        Some(Head { op, request })
    }

    /// The state with a head of this message, which answers this request, and its event at the end, if it tells one. AllocError where
    /// memory is refused: then both may have part of the head, and are for nothing more.
    fn pass(
        &mut self,
        terms: &Terms<'_>,
        at: &Placed,
        head: &Head,
        events: &mut VecDeque<Event>,
    ) -> Result<(), AllocError>
        requires decl { IsSound terms.now.decl.now }
        requires beat { IsWellFormed at.now.beat }
        requires formed { AreFormed self.old }
        requires head { slot_at self.old.bursts at.now.beat.chan ≡ None }
        requires message { message_of terms.now.decl.now at.now.beat ≡ Some head.now.op }
        requires request { head.now.request ≡ request_in (flow_state.shown self.old.flow) head.now.op at.now.beat }
        ensures next { (s : LinkSnapshot) → Shows terms.now.exponent self.old s
            → OnOk result (Shows terms.now.exponent self.new (link_next (alone terms.now) s at.now)) }
        ensures events { (s : LinkSnapshot) → Shows terms.now.exponent self.old s
            → OnOk result (map said events.new.items ≡ map said events.old.items ++ with_event (event_of (alone terms.now) s at.now) []) }
        ensures formed { AreFormed self.new }
    {
        self.tell(terms.exponent, at, head, events)?;
        self.flow.pass(terms.decl, head.op, &at.beat)?;
        self.client
            .pass(terms.decl, head.op, &at.beat, head.request)?;
        keep_granted(&mut self.granted, terms.exponent, &at.beat, head)?;
        self.bursts.begin(terms.decl, head.op, &at.beat);
        Ok(())
    }

    /// Puts the event of a head at the end, if it tells one. AllocError where memory is refused: then nothing has changed.
    fn tell(
        &self,
        exponent: u8,
        at: &Placed,
        head: &Head,
        events: &mut VecDeque<Event>,
    ) -> Result<(), AllocError>
        ensures { (s : LinkSnapshot) → Shows exponent self.now s → OnOk result (map said events.new.items
            ≡ map said events.old.items ++ with_event (told_by exponent s.past at.now (is_message at.now.beat head.now)) []) }
    {
        if let Some(event) = self.event(exponent, at, head) {
            events.push_back(event)?;
        }
        Ok(())
    }

    /// The event of a head, if it tells one. Most messages tell nothing whatever they say.
    fn event(&self, exponent: u8, at: &Placed, head: &Head) -> Option<Event>
        ensures { (s : LinkSnapshot) → Shows exponent self.now s
            → option_map said result ≡ told_by exponent s.past at.now (is_message at.now.beat head.now) }
    {
        if !is_of_block(head.op) && !is_grant_ack(head.op) {
            return None;
        }
        let sets = claim(exponent, head.op, &at.beat, head.request);
        if !is_told(head.op) && !self.is_news(sets) {
            return None;
        }
        Some(Event {
            place: *at,
            op: head.op,
            block: told_block(exponent, &at.beat, head),
            sets,
            closes: self.open_block(at.beat.sink),
        })
    }

    /// Whether this sets a bound that differs from what stands.
    fn is_news(&self, sets: Option<(u64, Perm)>) -> bool
        ensures { result ≡ passes (is_news (client_state.shown self.now.client).past.bound) sets }
    {
        match sets {
            Some((block, set)) => {
                let bound = self.client.bound(block);
                is_above(set, bound) || is_above(bound, set)
            }
            None => false,
        }
    }

    /// The block of the Grant that is open on a sink, if one is open and its block is known.
    fn open_block(&self, sink: u16) -> Option<u64>
        ensures { result ≡ option_and_then (λ block. block) (slot_of self.now.granted sink) }
    {
        match self.granted.get(sink) {
            Some(block) => block,
            None => None,
        }
    }

    /// Judges a head as `step_head` does, with a list of the rules of each kind.
    #[cold]
    #[inline(never)]
    fn judge_head(
        &mut self,
        alloc: Global,
        terms: &Terms<'_>,
        at: &Placed,
        found: &mut Findings,
    ) -> Result<(), AllocError>
        requires decl { IsSound terms.now.decl.now }
        requires beat { IsWellFormed at.now.beat }
        requires formed { AreFormed self.old }
        requires head { slot_at self.old.bursts at.now.beat.chan ≡ None }
        ensures rows { (s : LinkSnapshot) → Shows terms.now.exponent self.old s
            → OnOk result (found.new.rows.items ≡ found.old.rows.items ++ map (row_of at.now) (link_rules (alone terms.now) s at.now)) }
        ensures next { (s : LinkSnapshot) → Shows terms.now.exponent self.old s
            → OnOk result (Shows terms.now.exponent self.new (link_next (alone terms.now) s at.now)) }
        ensures events { (s : LinkSnapshot) → Shows terms.now.exponent self.old s
            → OnOk result (map said found.new.events.items ≡ map said found.old.events.items ++ with_event (event_of (alone terms.now) s at.now) []) }
        ensures formed { AreFormed self.new }
    {
        let format = check_head(alloc, terms.decl, terms.exponent, terms.regions, &at.beat);
        add_rows(&mut found.rows, at, &format)?;
        match op_of(terms.decl.level, at.beat.chan, at.beat.opcode) {
            Some(op) => {
                let request = self.flow.request_of(op, &at.beat);
                self.judge_message(alloc, terms, at, &Head { op, request }, found)
            }
            None => {
                self.bursts.pass(terms.decl, &at.beat);
                Ok(())
            }
        }
    }

    /// Judges a head of this message, which answers this request, by all rules but those of its format.
    fn judge_message(
        &mut self,
        alloc: Global,
        terms: &Terms<'_>,
        at: &Placed,
        head: &Head,
        found: &mut Findings,
    ) -> Result<(), AllocError>
        requires decl { IsSound terms.now.decl.now }
        requires beat { IsWellFormed at.now.beat }
        requires formed { AreFormed self.old }
        requires head { slot_at self.old.bursts at.now.beat.chan ≡ None }
        requires message { message_of terms.now.decl.now at.now.beat ≡ Some head.now.op }
        requires request { head.now.request ≡ request_in (flow_state.shown self.old.flow) head.now.op at.now.beat }
        ensures rows { (s : LinkSnapshot) → Shows terms.now.exponent self.old s
            → OnOk result (found.new.rows.items ≡ found.old.rows.items ++ map (row_of at.now) (message_rules (alone terms.now) s at.now head.now.op)) }
        ensures next { (s : LinkSnapshot) → Shows terms.now.exponent self.old s
            → OnOk result (Shows terms.now.exponent self.new (link_next (alone terms.now) s at.now)) }
        ensures events { (s : LinkSnapshot) → Shows terms.now.exponent self.old s
            → OnOk result (map said found.new.events.items ≡ map said found.old.events.items ++ with_event (event_of (alone terms.now) s at.now) []) }
        ensures formed { AreFormed self.new }
    {
        self.tell(terms.exponent, at, head, &mut found.events)?;
        let flow = self.flow.step(alloc, terms.decl, &at.beat)?;
        let request = head.request.as_ref();
        let permissions = self.client.step(alloc, terms.decl, &at.beat, request)?;
        keep_granted(&mut self.granted, terms.exponent, &at.beat, head)?;
        add_rows(&mut found.rows, at, &flow.rules)?;
        add_rows(&mut found.rows, at, &permissions)?;
        self.bursts.pass(terms.decl, &at.beat);
        Ok(())
    }

    /// Judges the beats of the link's next fragment one after the other, each as `step` does. AllocError where memory is refused: then
    /// state and findings may have part of the fragment, and are for nothing more.
    pub fn judge(
        &mut self,
        alloc: Global,
        terms: &Terms<'_>,
        link: u16,
        fragment: &Fragment,
        found: &mut Findings,
    ) -> Result<(), AllocError>
        requires decl { IsSound terms.now.decl.now }
        requires formed { AreFormed self.old }
        ensures rows { ForShown terms.now link self.old (λ m s. OnOk result (found.new.rows.items
            ≡ found.old.rows.items ++ rows_judged (link_judging m) s (placed_beats (recorded link fragment.now)))) }
        ensures next { ForShown terms.now link self.old (λ m s. OnOk result
            (Shows terms.now.exponent self.new (left_after (link_judging m) s (placed_beats (recorded link fragment.now))))) }
        ensures events { ForShown terms.now link self.old (λ m s. OnOk result (map said found.new.events.items
            ≡ map said found.old.events.items ++ link_events m s (placed_beats (recorded link fragment.now)))) }
        ensures formed { AreFormed self.new }
    {
        let beats = fragment.beats();
        let mut place: usize = 0;
        while place < beats.len() {
            let at = Placed {
                link,
                fragment: fragment.number(),
                line: place as u32 + 2,
                beat: beats[place],
            };
            self.step(alloc, terms, &at, found)?;
            place += 1;
            place += self.run(at.beat.chan, &beats[place..]);
        }
        Ok(())
    }
}
