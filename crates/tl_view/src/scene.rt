//! What is shown of a row.

ghost use Rattle.std.specs.Prelude.{◌≡◌, ◌<◌, length};
ghost use Rattle.std.specs.List.{All};
ghost use Rattle.tl_beats.specs.Beats.{IsWellFormed};
ghost use Rattle.tl_rows.specs.States.{links_in};
ghost use Rattle.tl_view.specs.Views.{is_same, has_source, is_of};

use crate::moments::{Context, Moment};
use std::alloc::{AllocError, Global};
use tl_beats::{Placed, Row};
use tl_capture::{Merged, Present};
use tl_client_rules::clients_of;
use tl_rows::{Reason, Told, beat_text};
use tl_show::{shown_row, survey_beats};
use tl_tables::{Level, op_of};
use tl_topology::{Name, Topo};

/// What the messages that are shown are of.
#[derive(Clone, Copy, Debug)]
pub(crate) struct Subject {
    /// The link of the row.
    pub(crate) link: u16,
    /// The source of the row's message there, if it has one.
    pub(crate) source: Option<u16>,
    /// The block of the row's message, if that is known.
    pub(crate) block: Option<u64>,
}

/// Whether both numbers are there, and the same.
fn is_same(one: Option<u64>, other: Option<u64>) -> bool
    ensures { result ≡ is_same one other }
{
    match (one, other) {
        (Some(one), Some(other)) => one == other,
        _ => false,
    }
}

/// Whether both sources are there, and the same.
fn has_source(one: Option<u16>, other: Option<u16>) -> bool
    ensures { result ≡ has_source one other }
{
    match (one, other) {
        (Some(one), Some(other)) => one == other,
        _ => false,
    }
}

impl Subject {
    /// That of the row of this beat.
    fn of(moment: &Moment) -> Subject {
        Subject {
            link: moment.place.link,
            source: moment.source,
            block: moment.block,
        }
    }

    /// Whether the message of a beat is of it: of its block, or on its link of its source.
    fn has(&self, moment: &Moment) -> bool
        ensures { result ≡ is_of self.now moment.now }
    {
        is_same(self.block, moment.block)
            || (self.link == moment.place.link && has_source(self.source, moment.source))
    }
}

/// What a beat is to the row.
#[derive(Clone, Copy, Debug, PartialEq, Eq)]
pub(crate) enum Part {
    /// It is the row's.
    Broken,
    /// It is the earlier one that makes the row so.
    Earlier,
    /// It is another one.
    Other,
}

/// A beat that is shown.
#[derive(Drop)]
pub(crate) struct Shown {
    /// The beat.
    pub(crate) place: Placed,
    /// What it is to the row.
    pub(crate) part: Part,
    /// Whether its message begins with it.
    pub(crate) is_head: bool,
    /// Its channel, message and param.
    pub(crate) label: String,
    /// Its other fields.
    pub(crate) fields: String,
}

impl Shown {
    /// Whether it is an arrow of a picture: a message, the row's beat, or the earlier one.
    pub(crate) fn is_arrow(&self) -> bool {
        self.is_head || self.part != Part::Other
    }

    /// Whether both are on one channel of a link.
    pub(crate) fn is_beside(&self, other: &Shown) -> bool {
        self.place.link == other.place.link && self.place.beat.chan == other.place.beat.chan
    }
}

/// A beat that is shown, with its words.
fn shown_as(alloc: Global, topo: &Topo, moment: &Moment, part: Part) -> Result<Shown, AllocError>
    requires declared { moment.now.place.link < length topo.now.links }
    requires beat { IsWellFormed moment.now.place.beat }
{
    let beat = &moment.place.beat;
    let level = topo.link(moment.place.link).unwrap().level;
    let words = beat_text(alloc, op_of(level, beat.chan, beat.opcode), beat)?;
    let (label, fields) = words.split_once(", ").unwrap_or((words.as_str(), ""));
    Ok(Shown {
        place: moment.place,
        part,
        is_head: moment.is_head,
        label: String::from_str(alloc, label)?,
        fields: String::from_str(alloc, fields)?,
    })
}

/// How far a pass over the beats has come.
#[derive(Clone, Copy, Debug, PartialEq, Eq)]
enum Stage {
    /// Before the first beat that can be shown.
    Before,
    /// Among those that can be.
    Within,
    /// After the row's.
    After,
}

/// A pass over the beats of a manager, up to the row's.
#[derive(Drop)]
struct Pass {
    context: Context,
    /// The row's beat.
    own: Placed,
    /// The earlier one that makes the row so, if there is one.
    earlier: Option<Placed>,
    stage: Stage,
    /// What is shown; before that is known, the pass looks for it.
    subject: Option<Subject>,
    /// What is shown, as the pass finds it.
    found: Option<Subject>,
    shown: Vec<Shown>,
}

/// Where a pass begins: where no beat makes a row so, with the first beat of all.
fn first_stage(reason: &Reason) -> Stage {
    match reason {
        Reason::NoneBefore => Stage::Within,
        _ => Stage::Before,
    }
}

impl Pass {
    /// One that has seen no beat.
    fn new(context: Context, alloc: Global, told: &Told, subject: Option<Subject>) -> Pass
        ensures { result.context ≡ context }
    {
        Pass {
            context,
            own: told.place,
            earlier: told.reason.place().copied(),
            stage: first_stage(&told.reason),
            subject,
            found: None,
            shown: Vec::new(alloc),
        }
    }

    /// What a beat is to the row.
    fn part(&self, place: &Placed) -> Part {
        if *place == self.own {
            Part::Broken
        } else if self.earlier == Some(*place) {
            Part::Earlier
        } else {
            Part::Other
        }
    }

    /// How far the pass has come with a beat.
    fn stage_at(&self, part: Part) -> Stage {
        match part {
            Part::Broken | Part::Earlier if self.stage == Stage::Before => Stage::Within,
            _ => self.stage,
        }
    }

    /// Whether the next beat is shown.
    fn shows(&self, moment: &Moment, part: Part) -> bool {
        match (self.stage, &self.subject) {
            (Stage::Within, Some(subject)) => part != Part::Other || subject.has(moment),
            _ => false,
        }
    }

    /// Takes the next beat.
    fn take(&mut self, alloc: Global, topo: &Topo, moment: &Moment) -> Result<(), AllocError>
        requires declared { moment.now.place.link < length topo.now.links }
        requires beat { IsWellFormed moment.now.place.beat }
        ensures { self.new.context ≡ self.old.context }
    {
        let part = self.part(&moment.place);
        self.stage = self.stage_at(part);
        if self.shows(moment, part) {
            self.shown.push(shown_as(alloc, topo, moment, part)?)?;
        }
        if part == Part::Broken {
            self.found = Some(Subject::of(moment));
            self.stage = Stage::After;
        }
        Ok(())
    }

    /// Sees the next beat of the manager, whose clients are these; those after the row's are passed over.
    fn see(
        &mut self,
        alloc: Global,
        topo: &Topo,
        clients: &[u16],
        place: &Placed,
    ) -> Result<(), AllocError>
        requires beat { IsWellFormed place.now.beat }
        requires link { place.now.link < links_in self.old.context.origins }
        requires declared { place.now.link < length topo.now.links }
        ensures { links_in self.new.context.origins ≡ links_in self.old.context.origins }
    {
        if self.stage == Stage::After {
            return Ok(());
        }
        let moment = self.context.moment(topo, clients, place);
        self.take(alloc, topo, &moment)?;
        self.context.step(topo, &moment)
    }
}

/// Sees the beats that a walk has left.
fn see_all<'a>(
    alloc: Global,
    topo: &Topo,
    clients: &[u16],
    walk: Merged<'a>,
    pass: &mut Pass,
) -> Result<(), AllocError>
    requires formed { All (λ p. IsWellFormed p.beat) walk }
    requires within { All (λ p. p.link < length topo.now.links) walk }
    requires count { links_in pass.old.context.origins ≡ length topo.now.links }
{
    for place in walk {
        pass.see(alloc, topo, clients, &place)?;
    }
    Ok(())
}

/// A pass over the beats of a manager.
fn passed(
    alloc: Global,
    topo: &Topo,
    present: &Present,
    manager: u16,
    told: &Told,
    subject: Option<Subject>,
) -> Result<Pass, AllocError> {
    // No two fragments of a link share a number or a cycle.
    let _ = present.is_empty();
    let exponent = topo.block(manager).unwrap_or(0);
    let clients = clients_of(alloc, topo, manager)?;
    let walk = present.walk(alloc, &clients)?;
    let context = Context::new(alloc, topo, exponent)?;
    let mut pass = Pass::new(context, alloc, told, subject);
    see_all(alloc, topo, &clients, walk, &mut pass)?;
    Ok(pass)
}

/// A client with a lane of its own.
#[derive(Clone, Copy, Debug)]
pub(crate) struct Lane {
    /// The number of its link.
    pub(crate) link: u16,
    /// What the link is called.
    pub(crate) name: Name,
    /// The level of the link.
    pub(crate) level: Level,
}

/// Puts the lane of a link after others.
fn push_lane(topo: &Topo, link: u16, lanes: &mut Vec<Lane>) -> Result<(), AllocError> {
    if let Some(decl) = topo.link(link) {
        lanes.push(Lane {
            link,
            name: decl.name,
            level: decl.level,
        })?;
    }
    Ok(())
}

/// The lanes of all links with a beat that is shown, that of the row first.
fn lanes_of(
    alloc: Global,
    topo: &Topo,
    own: u16,
    shown: &[Shown],
) -> Result<Vec<Lane>, AllocError> {
    let mut lanes = Vec::new(alloc);
    push_lane(topo, own, &mut lanes)?;
    for link in 0..topo.link_count() {
        let link = link as u16;
        if link != own && shown.iter().any(|each| each.place.link == link) {
            push_lane(topo, link, &mut lanes)?;
        }
    }
    Ok(lanes)
}

/// What is shown of a row: its beat, the earlier beat that makes it so, and the messages between them that are of its block or source.
#[derive(Drop)]
pub struct Scene {
    /// The row with its beat, and what makes it so.
    pub(crate) told: Told,
    /// What the messages are of.
    pub(crate) subject: Subject,
    /// The beats that are shown, in their order; the row's is the last.
    pub(crate) shown: Vec<Shown>,
    /// The clients, that of the row first.
    pub(crate) lanes: Vec<Lane>,
    /// What `--show` writes of the row.
    pub(crate) lines: String,
}

/// What is shown of a row that is told, beside its lines.
fn scene_with(
    alloc: Global,
    topo: &Topo,
    present: &Present,
    told: &Told,
    lines: String,
) -> Result<Option<Scene>, AllocError> {
    let Some(decl) = topo.link(told.place.link) else {
        return Ok(None);
    };
    let Some(subject) = passed(alloc, topo, present, decl.manager, told, None)?.found else {
        return Ok(None);
    };
    let shown = passed(alloc, topo, present, decl.manager, told, Some(subject))?.shown;
    let lanes = lanes_of(alloc, topo, told.place.link, &shown)?;
    Ok(Some(Scene {
        told: *told,
        subject,
        shown,
        lanes,
        lines,
    }))
}

/// What is shown of a row of the fragments that are present: the earlier beat that makes it so, its own beat, and the messages of its
/// manager between them that are of its block, or on its link of its source, as a request, a Release or a reply has one. Where no
/// earlier beat makes it so, because there is none, they begin with the first of all; where its beat breaks the rule by itself, it
/// stands alone. None for a row that the fragments do not have. AllocError where memory is refused.
pub fn scene_of(
    alloc: Global,
    topo: &Topo,
    present: &Present,
    row: &Row,
) -> Result<Option<Scene>, AllocError> {
    let Some(_) = topo.link(row.link) else {
        return Ok(None);
    };
    let survey = survey_beats(alloc, topo, present, &[*row])?;
    let Some(told) = survey.told.first() else {
        return Ok(None);
    };
    let lines = shown_row(alloc, topo, &survey.told, row)?;
    scene_with(alloc, topo, present, told, lines)
}
