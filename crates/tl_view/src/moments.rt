//! The beats of a manager, each with what tells its message from others.

ghost use Rattle.std.specs.Prelude.{◌≡◌, ◌<◌, length, IfOk};
ghost use Rattle.tl_beats.specs.Beats.{IsWellFormed};
ghost use Rattle.tl_rows.specs.States.{links_in};

use std::alloc::{AllocError, Global};
use std::collections::BTreeMap;
use tl_beats::{Beat, Placed};
use tl_client_rules::block_of;
use tl_rows::{ManagerOrigins, Reason};
use tl_tables::{Chan, Level, Op, Rule, chan_index, is_grant, is_release, is_release_ack, op_of};
use tl_topology::Topo;

/// A beat, and what tells its message from others.
#[derive(Clone, Copy, Debug)]
pub(crate) struct Moment {
    /// The beat.
    pub(crate) place: Placed,
    /// Whether its message begins with it.
    pub(crate) is_head: bool,
    /// The source of a request, a Release or a reply.
    pub(crate) source: Option<u16>,
    /// The block that its message is of, if that is known.
    pub(crate) block: Option<u64>,
}

/// What is known of a link.
#[derive(Drop)]
struct Known {
    /// The newest head of each channel.
    heads: [Option<Moment>; 5],
    /// The block of the newest Grant of each sink.
    granted: BTreeMap<u16, u64>,
}

impl Known {
    /// What is known of a link without beats.
    fn new(alloc: Global) -> Known {
        Known {
            heads: [None; 5],
            granted: BTreeMap::new(alloc),
        }
    }

    /// The newest head of a channel.
    fn head(&self, chan: Chan) -> Option<Moment> {
        self.heads[chan_index(chan)]
    }

    /// The block of the newest Grant of a sink.
    fn granted_block(&self, sink: u16) -> Option<u64> {
        self.granted.get(&sink).copied()
    }

    /// Notes the block of a Grant.
    fn note_grant(&mut self, sink: u16, block: Option<u64>) -> Result<(), AllocError> {
        match block {
            Some(block) => {
                self.granted.insert(sink, block)?;
            }
            None => {
                self.granted.remove(&sink);
            }
        }
        Ok(())
    }

    /// Notes the next beat, of this message.
    fn note(&mut self, op: Option<Op>, moment: &Moment) -> Result<(), AllocError> {
        if !moment.is_head {
            return Ok(());
        }
        let head = &moment.place.beat;
        self.heads[chan_index(head.chan)] = Some(*moment);
        match op {
            Some(op) if is_grant(op) => self.note_grant(head.sink, moment.block),
            _ => Ok(()),
        }
    }
}

/// The source that tells a message from others of its link, if one does.
fn source_of(level: Level, head: &Beat) -> Option<u16> {
    match head.chan {
        Chan::A | Chan::D => Some(head.source),
        Chan::C => match op_of(level, Chan::C, head.opcode) {
            Some(op) if is_release(op) => Some(head.source),
            _ => None,
        },
        Chan::B | Chan::E => None,
    }
}

/// The rule that asks for what a reply answers.
fn asking_rule(level: Level, reply: &Beat) -> Rule {
    match op_of(level, Chan::D, reply.opcode) {
        Some(op) if is_release_ack(op) => Rule::S5,
        _ => Rule::S2,
    }
}

/// What is known of so many links without beats.
fn all_unknown(alloc: Global, count: usize) -> Result<Vec<Known>, AllocError> {
    let mut links = Vec::new(alloc);
    for _ in 0..count {
        links.push(Known::new(alloc))?;
    }
    Ok(links)
}

/// What the beats of a manager that were seen say of the next one's message.
#[derive(Drop)]
pub(crate) struct Context {
    /// A block has 2 to this power bytes.
    exponent: u8,
    /// What a reply can answer.
    pub(crate) origins: ManagerOrigins,
    /// One for each link of the topology, by number.
    links: Vec<Known>,
}

impl Context {
    /// That of a manager of which no beat was seen. AllocError where memory is refused.
    pub(crate) fn new(alloc: Global, topo: &Topo, exponent: u8) -> Result<Context, AllocError>
        ensures { IfOk result (λ context. links_in context.origins ≡ length topo.now.links) }
    {
        let links = all_unknown(alloc, topo.link_count())?;
        Ok(Context {
            exponent,
            origins: ManagerOrigins::new(alloc, topo, exponent)?,
            links,
        })
    }

    /// What is known of a link.
    fn known(&self, link: u16) -> Option<&Known> {
        self.links.get(usize::from(link))
    }

    /// The block of what a reply answers.
    fn asked_block(&self, topo: &Topo, clients: &[u16], level: Level, place: &Placed) -> Option<u64>
        requires beat { IsWellFormed place.now.beat }
        requires link { place.now.link < links_in self.now.origins }
        requires declared { place.now.link < length topo.now.links }
    {
        let rule = asking_rule(level, &place.beat);
        match self.origins.reason(topo, clients, place, rule) {
            Reason::Request(asking) | Reason::Release(asking) => {
                Some(block_of(self.exponent, asking.beat.address))
            }
            _ => None,
        }
    }

    /// The block of a message, by its head.
    fn block(&self, topo: &Topo, clients: &[u16], level: Level, place: &Placed) -> Option<u64>
        requires beat { IsWellFormed place.now.beat }
        requires link { place.now.link < links_in self.now.origins }
        requires declared { place.now.link < length topo.now.links }
    {
        match place.beat.chan {
            Chan::A | Chan::B | Chan::C => Some(block_of(self.exponent, place.beat.address)),
            Chan::D => self.asked_block(topo, clients, level, place),
            Chan::E => self.known(place.link)?.granted_block(place.beat.sink),
        }
    }

    /// The next beat, which is a head.
    fn head(&self, topo: &Topo, clients: &[u16], place: &Placed) -> Moment
        requires beat { IsWellFormed place.now.beat }
        requires link { place.now.link < links_in self.now.origins }
        requires declared { place.now.link < length topo.now.links }
        ensures { result.place ≡ place.now }
    {
        let level = topo.link(place.link).unwrap().level;
        Moment {
            place: *place,
            is_head: true,
            source: source_of(level, &place.beat),
            block: self.block(topo, clients, level, place),
        }
    }

    /// The next beat, which is a later one of the burst that began last on its channel.
    fn later(&self, place: &Placed) -> Moment
        ensures { result.place ≡ place.now }
    {
        let head = self
            .known(place.link)
            .and_then(|known| known.head(place.beat.chan));
        Moment {
            place: *place,
            is_head: false,
            source: head.and_then(|head| head.source),
            block: head.and_then(|head| head.block),
        }
    }

    /// The next beat of the manager, whose clients are these.
    pub(crate) fn moment(&self, topo: &Topo, clients: &[u16], place: &Placed) -> Moment
        requires beat { IsWellFormed place.now.beat }
        requires link { place.now.link < links_in self.now.origins }
        requires declared { place.now.link < length topo.now.links }
        ensures { result.place ≡ place.now }
    {
        match self.origins.reason(topo, clients, place, Rule::U1) {
            Reason::Head(_) => self.later(place),
            _ => self.head(topo, clients, place),
        }
    }

    /// Sees the next beat. AllocError where memory is refused: then the context is for nothing more.
    pub(crate) fn step(&mut self, topo: &Topo, moment: &Moment) -> Result<(), AllocError>
        requires beat { IsWellFormed moment.now.place.beat }
        requires link { moment.now.place.link < links_in self.old.origins }
        requires declared { moment.now.place.link < length topo.now.links }
        ensures { links_in self.new.origins ≡ links_in self.old.origins }
    {
        let place = &moment.place;
        let level = topo.link(place.link).unwrap().level;
        let op = op_of(level, place.beat.chan, place.beat.opcode);
        if let Some(known) = self.links.get_mut(usize::from(place.link)) {
            known.note(op, moment)?;
        }
        self.origins.step(topo, place)
    }
}
