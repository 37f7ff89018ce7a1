//! A capture that comes in fragments.

ghost use Rattle.std.specs.Prelude.{◌≡◌, ◌≤◌, ◌<◌, ◌⊎◌, ℕ, length, List, [], Option, Some, None, true, is_some, IfOk, IfSome, OnOk, slice_get};
ghost use Rattle.std.specs.Io.Iter.{u64_saturate};
ghost use Rattle.std.specs.Option.{option_copied};
ghost use Rattle.std.specs.Arc.{arc_value};
ghost use Rattle.std.specs.List.{All, Contains};
ghost use Rattle.std.specs.Result.{IsErrOf};
ghost use Rattle.tl_definitions.specs.Positions.{Recorded};
ghost use Rattle.tl_check.specs.Captured.{areas_at};
ghost use Rattle.tl_capture.specs.Present.{IsPresent};
ghost use Rattle.tl_midway.specs.Counts.{managers_counted};
ghost use Rattle.tl_midway.specs.LeadIns.{leads_in};
ghost use Rattle.tl_midway.specs.declared.midway.Midway.{Midway as AnyMidway};
ghost use Rattle.tl_stream.specs.declared.fault.StreamFault.{StreamFault};
ghost use Rattle.tl_stream.specs.Courses.{IsRunning, ForCome, HasEnded, Advances, AreNewRows, AreNewCourses, Loses};
ghost use Rattle.tl_stream.specs.Fronts.{refusal_of, IsFrontOf};
ghost use Rattle.tl_stream.specs.Streams.{HasAccepted, Accepts, Refuses, IsThrough, areas_in};
ghost use Rattle.tl_stream.specs.Told.{untold_of};

use crate::course::Course;
use crate::fault::StreamFault;
use crate::front::{Front, front_of, reached, silent_of};
use std::alloc::{AllocError, Global};
use std::marker::Model;
use std::sync::Arc;
use tl_beats::{Fragment, Row};
use tl_capture::Present;
use tl_midway::Midway;
use tl_topology::{RegionMap, Topo};

/// The fragments of a capture as they come, those of each link with rising numbers and ranges. It holds those of which a cycle is not
/// complete on all links of their manager, and of all others what they leave.
#[derive(Drop)]
pub struct Stream {
    topo: Arc<Topo>,
    regions: Vec<RegionMap>,
    // How the capture begins, where it begins in the middle of a run.
    midway: Option<Midway>,
    // The newest fragment of each link.
    fronts: Vec<Option<Front>>,
    waiting: Present,
    // One for each manager.
    courses: Vec<Course>,
}

impl Model for Stream {
    ghost use Rattle.std.specs.Coded.{codes};
    ghost use Rattle.tl_check.specs.contracts.state.SpanState as whole;
    ghost use Rattle.tl_midway.specs.contracts.state.MidwayState as middle;
    ghost use Rattle.std.specs.Arc.{arc_value};
    ghost use Rattle.std.specs.Prelude.{List};
    ghost use Rattle.tl_definitions.specs.Positions.{Recorded};
    ghost use Rattle.tl_stream.specs.Streams.{StreamData, HasAccepted};

    ghost Value = { StreamData };

    ghost coded = { Prim.hlevel (codes, whole.the_row.coded, middle.the_row.coded) };

    ghost view = { λ s. record { topo = arc_value s.topo; regions = s.regions.items; midway = s.midway; fronts = s.fronts.items; waiting = s.waiting; courses = s.courses.items } };

    ghost invariant = { λ s. (fs : List Recorded) × HasAccepted fs (record { topo = arc_value s.topo; regions = s.regions.items; midway = s.midway; fronts = s.fronts.items; waiting = s.waiting; courses = s.courses.items }) };
}

/// Why a fragment of a link with this front is refused, if it is.
fn refusal(front: Option<Front>, fragment: &Fragment) -> Option<StreamFault>
    ensures { result ≡ refusal_of front fragment.now }
{
    let front = front?;
    if fragment.number() <= front.number {
        return Some(StreamFault::NumberNotAbove);
    }
    if fragment.first() <= front.last {
        return Some(StreamFault::RangeNotAfter(front.number));
    }
    None
}

/// The courses of all managers.
fn new_courses(
    alloc: Global,
    topo: &Topo,
    midway: Option<Midway>,
) -> Result<Vec<Course>, AllocError>
    ensures { IfOk result (λ courses. AreNewCourses midway topo.now courses.items) }
{
    let mut courses = Vec::new(alloc);
    for manager in 0..topo.manager_count() {
        courses.push(Course::new(alloc, topo, manager as u16, midway)?)?;
    }
    Ok(courses)
}

/// The course of a manager.
fn course_of(courses: &[Course], manager: u16) -> Option<&Course>
    ensures { option_copied result ≡ slice_get courses.now manager }
{
    courses.get(usize::from(manager))
}

/// Takes the fragments of these links that end by a cycle out of those that wait.
fn drop_ended(waiting: &mut Present, links: &[u16], cycle: u64)
    ensures loses { Loses links.now waiting.old waiting.new }
    ensures ended { (f : Recorded) → Contains waiting.old f → Contains waiting.new f ⊎ (f.last ≤ cycle) }
    ensures present { IsPresent waiting.old → IsPresent waiting.new }
{
    for link in links {
        waiting.drop_ended(*link, cycle);
    }
}

/// Judges what is complete by the fronts of a manager's links, and answers its rows. AllocError where memory is refused.
fn advance(
    alloc: Global,
    topo: &Topo,
    regions: &[RegionMap],
    fronts: &[Option<Front>],
    waiting: &mut Present,
    course: &mut Course,
) -> Result<Vec<Row>, AllocError>
    requires { IsRunning topo.now (areas_at regions.now course.old.manager) course.old }
    ensures all { ForCome topo.now (areas_at regions.now course.old.manager) fronts.now waiting.old course.old
        (λ areas fs. Advances topo.now areas fs course.old waiting.old course.new waiting.new) }
    ensures ok { ForCome topo.now (areas_at regions.now course.old.manager) fronts.now waiting.old course.old
        (λ areas fs. IfOk result (λ rows. AreNewRows topo.now areas fs course.old rows.items)) }
    ensures run { OnOk result (is_some course.old.state ≡ true) }
{
    if course.is_lost() {
        return Err(AllocError);
    }
    let Some(to) = reached(fronts, &course.links) else {
        return Ok(Vec::new(alloc));
    };
    let none = RegionMap::new(alloc);
    let own = regions.get(usize::from(course.manager)).unwrap_or(&none);
    let rows = course.judge(alloc, topo, own, waiting, to)?;
    drop_ended(waiting, &course.links, to);
    Ok(rows)
}

/// What a stream has at its end.
#[derive(Drop)]
pub struct Rest {
    /// The rows of all beats that no fragment completed, one manager after the other, each in the order of positions.
    pub rows: Vec<Row>,
    /// How many of all beats are in lead-ins; 2^64 - 1 where there are more. Where they are all of a run, none is asked for.
    pub lead_ins: u64,
}

/// Judges all beats that wait, one manager after the other. AllocError where memory is refused, or was before.
fn ended(
    alloc: Global,
    topo: &Topo,
    regions: &[RegionMap],
    waiting: &Present,
    courses: &mut [Course],
) -> Result<Rest, AllocError>
    requires { (midway : Option AnyMidway) × (fs : List Recorded) × HasEnded midway topo.now (areas_at regions.now) fs waiting.now courses.old }
    ensures rows { (midway : Option AnyMidway) (fs : List Recorded) → HasEnded midway topo.now (areas_at regions.now) fs waiting.now courses.old
        → IfOk result (λ rest. rest.rows.items ≡ untold_of midway topo.now (areas_at regions.now) fs (length topo.now.managers)) }
    ensures lead_ins { (law : AnyMidway) (fs : List Recorded) → HasEnded (Some law) topo.now (areas_at regions.now) fs waiting.now courses.old
        → IfOk result (λ rest. rest.lead_ins ≡ u64_saturate (managers_counted leads_in law topo.now (areas_at regions.now) fs (length topo.now.managers))) }
{
    let none = RegionMap::new(alloc);
    let mut lead_ins = 0u64;
    let mut rows = Vec::new(alloc);
    for manager in 0..courses.len() {
        let own = regions.get(manager).unwrap_or(&none);
        let course = &mut courses[manager];
        if course.is_lost() {
            return Err(AllocError);
        }
        let found = course.judge(alloc, topo, own, waiting, u64::MAX)?;
        rows.extend_from_slice(&found)?;
        lead_ins = lead_ins.saturating_add(course.lead_ins());
    }
    Ok(Rest { rows, lead_ins })
}

impl Stream {
    /// A stream of which no fragment has come, of a topology with the regions of its managers by number; a manager without an entry
    /// has none; where the capture begins in the middle of a run, with the law by which its rows stand. AllocError where memory is
    /// refused.
    pub fn new(
        alloc: Global,
        topo: Arc<Topo>,
        regions: Vec<RegionMap>,
        midway: Option<Midway>,
    ) -> Result<Stream, AllocError>
        ensures none { IfOk result (HasAccepted []) }
        ensures topo { IfOk result (λ s. s.topo ≡ arc_value topo) }
        ensures regions { IfOk result (λ s. s.regions ≡ regions.items) }
        ensures midway { IfOk result (λ s. s.midway ≡ midway) }
    {
        let mut fronts = Vec::new(alloc);
        for _ in 0..topo.link_count() {
            fronts.push(None)?;
        }
        let courses = new_courses(alloc, &topo, midway)?;
        Ok(Stream {
            topo,
            regions,
            midway,
            fronts,
            waiting: Present::new(alloc),
            courses,
        })
    }

    /// The topology.
    pub fn topo(&self) -> &Topo
        ensures { result.now ≡ self.now.topo }
    {
        &self.topo
    }

    /// The topology, shared.
    pub fn shared_topo(&self) -> &Arc<Topo>
        ensures { arc_value result.now ≡ self.now.topo }
    {
        &self.topo
    }

    /// Takes in a fragment, which is shared.
    fn take_in(
        &mut self,
        alloc: Global,
        fragment: &Fragment,
        shared: Arc<Fragment>,
    ) -> Result<Vec<Row>, StreamFault>
        requires { arc_value shared ≡ fragment.now }
        ensures ok { (fs : List Recorded) → HasAccepted fs self.old → IfOk result (λ rows. Accepts fs self.old fragment.now self.new rows.items) }
        ensures links { IfOk result (λ rows. All (λ row. row.link < length self.new.topo.links) rows.items) }
        ensures err { (fs : List Recorded) (e : StreamFault) → HasAccepted fs self.old → IsErrOf result e → Refuses fs self.old fragment.now e self.new }
    {
        let Some(link) = self.topo.link_of(&fragment.link()) else {
            return Err(StreamFault::UnknownLink);
        };
        if let Some(fault) = refusal(front_of(&self.fronts, link), fragment) {
            return Err(fault);
        }
        let front = Front {
            number: fragment.number(),
            last: fragment.last(),
        };
        let manager = self.topo.link(link).unwrap().manager;
        self.waiting.put(link, shared)?;
        // What is there is a fragment's.
        let _ = self.waiting.is_empty();
        self.fronts[usize::from(link)] = Some(front);
        let course = &mut self.courses[usize::from(manager)];
        let rows = advance(
            alloc,
            &self.topo,
            &self.regions,
            &self.fronts,
            &mut self.waiting,
            course,
        )?;
        Ok(rows)
    }

    /// The next fragment of its link: answers the rows of the beats that are complete with it, in the order of positions. A refused
    /// fragment changes nothing: UnknownLink where the topology has no such link, NumberNotAbove where one of its number or a higher
    /// one came, RangeNotAfter where its range does not begin after those that came. Memory where memory is refused: then the rows of
    /// its manager are lost, and each further fragment of it is refused too.
    pub fn accept(
        &mut self,
        alloc: Global,
        fragment: Arc<Fragment>,
    ) -> Result<Vec<Row>, StreamFault>
        ensures ok { (fs : List Recorded) → HasAccepted fs self.old → IfOk result (λ rows. Accepts fs self.old (arc_value fragment) self.new rows.items) }
        ensures links { IfOk result (λ rows. All (λ row. row.link < length self.new.topo.links) rows.items) }
        ensures err { (fs : List Recorded) (e : StreamFault) → HasAccepted fs self.old → IsErrOf result e → Refuses fs self.old (arc_value fragment) e self.new }
    {
        let own = Arc::try_clone(&fragment)?;
        self.take_in(alloc, &own, fragment)
    }

    /// The last cycle that is complete on all links of the manager of a link, if there is one: each of them has a fragment that ends
    /// with it or after it.
    pub fn complete(&self, link: u16) -> Option<u64>
        ensures { (fs : List Recorded) → HasAccepted fs self.now → IsThrough self.now fs link result }
    {
        let manager = self.topo.link(link)?.manager;
        let course = course_of(&self.courses, manager)?;
        reached(&self.fronts, &course.links)
    }

    /// The first link of the manager of a link of which no fragment has come, if there is one.
    pub fn silent(&self, link: u16) -> Option<u16>
        ensures { (fs : List Recorded) → HasAccepted fs self.now → IfSome result (λ other. IsFrontOf other fs None) }
    {
        let manager = self.topo.link(link)?.manager;
        let course = course_of(&self.courses, manager)?;
        silent_of(&self.fronts, &course.links)
    }

    /// The rows of all beats that no fragment completed, and how many of all beats are in lead-ins. AllocError where memory is refused.
    pub fn end(mut self, alloc: Global) -> Result<Rest, AllocError>
        ensures rows { (fs : List Recorded) → HasAccepted fs self → IfOk result (λ rest. rest.rows.items ≡ untold_of self.midway self.topo (areas_in self) fs (length self.topo.managers)) }
        ensures lead_ins { (law : AnyMidway) (fs : List Recorded) → self.midway ≡ Some law → HasAccepted fs self
            → IfOk result (λ rest. rest.lead_ins ≡ u64_saturate (managers_counted leads_in law self.topo (areas_in self) fs (length self.topo.managers))) }
        ensures links { IfOk result (λ rest. All (λ row. row.link < length self.topo.links) rest.rows.items) }
    {
        ended(
            alloc,
            &self.topo,
            &self.regions,
            &self.waiting,
            &mut self.courses,
        )
    }
}
