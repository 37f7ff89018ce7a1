//! The places in which jobs stand that a list of steps has taken.

ghost use Rattle.std.specs.Prelude.{◌≡◌, IfSome, IfNone, Some, slice_get, vec_capacity, vec_len};
ghost use Rattle.tl_desk.specs.Core.{Core};
ghost use Rattle.tl_desk.specs.Plays.{AnswersWork, AreOut, with_place, job_of, HasNoJob, HasNoDone};
ghost use Rattle.tl_desk.specs.declared.places.Place.TheVariants as place;

use crate::play::Reply;
use crate::{Done, Job, work};
use std::alloc::Global;
use tl_monitor::Monitor;

/// A place of a list of steps: a job, one that was checked, or nothing any more. It must be spent, as the job.
pub(crate) enum Place<M: Monitor> {
    /// A job that was taken.
    Job(Job<M>),
    /// A job that was checked.
    Done(Done<M>),
    /// Nothing: the job that stood here was handed in or abandoned.
    Empty,
}

impl<M: Monitor> Place<M> {
    /// The job of the place, checked or not, if it has one. The result of a checked job is dropped.
    pub(crate) fn into_job(self) -> Option<Job<M>>
        ensures { result ≡ job_of self }
    {
        match self {
            Place::Job(job) => Some(job),
            Place::Done(done) => Some(done.back()),
            Place::Empty => None,
        }
    }
}

/// The job of a place, if that has one that wasn't checked. The place is empty then; else nothing has changed.
pub(crate) fn job_out<M: Monitor>(places: &mut Vec<Place<M>>, at: usize) -> Option<Job<M>>
    ensures some { IfSome result (λ job. (slice_get places.old.items at ≡ Some (place.Job job)) × (places.new.items ≡ with_place at place.Empty places.old.items)) }
    ensures none { IfNone result (HasNoJob at places.old.items × (places.new.items ≡ places.old.items)) }
    ensures room { (vec_capacity places.new ≡ vec_capacity places.old) × (vec_len places.new ≡ vec_len places.old) }
{
    if !matches!(places.get(at), Some(Place::Job(_))) {
        return None;
    }
    let place = std::mem::replace(&mut places[at], Place::Empty);
    let Place::Job(job) = place else {
        unreachable!()
    };
    Some(job)
}

/// The checked job of a place, if that has one. The place is empty then; else nothing has changed.
pub(crate) fn done_out<M: Monitor>(places: &mut Vec<Place<M>>, at: usize) -> Option<Done<M>>
    ensures some { IfSome result (λ done. (slice_get places.old.items at ≡ Some (place.Done done)) × (places.new.items ≡ with_place at place.Empty places.old.items)) }
    ensures none { IfNone result (HasNoDone at places.old.items × (places.new.items ≡ places.old.items)) }
    ensures room { (vec_capacity places.new ≡ vec_capacity places.old) × (vec_len places.new ≡ vec_len places.old) }
{
    if !matches!(places.get(at), Some(Place::Done(_))) {
        return None;
    }
    let place = std::mem::replace(&mut places[at], Place::Empty);
    let Place::Done(done) = place else {
        unreachable!()
    };
    Some(done)
}

/// Fills an empty place.
fn fill<M: Monitor>(places: &mut Vec<Place<M>>, at: usize, thing: Place<M>)
    requires { slice_get places.old.items at ≡ Some place.Empty }
    ensures filled { places.new.items ≡ with_place at thing places.old.items }
    ensures room { (vec_capacity places.new ≡ vec_capacity places.old) × (vec_len places.new ≡ vec_len places.old) }
{
    let left = std::mem::replace(&mut places[at], thing);
    let Place::Empty = left else { unreachable!() };
}

/// Checks the job of a place, if that has one that wasn't checked, and leaves it there.
pub(crate) fn work_at<M: Monitor>(alloc: Global, places: &mut Vec<Place<M>>, at: usize) -> Reply
    ensures answers { AnswersWork at places.old.items result places.new.items }
    ensures out { (core : Core) → AreOut places.old.items core → AreOut places.new.items core }
    ensures room { (vec_capacity places.new ≡ vec_capacity places.old) × (vec_len places.new ≡ vec_len places.old) }
{
    let Some(job) = job_out(places, at) else {
        return Reply::Nothing;
    };
    match work(alloc, job) {
        Ok(done) => {
            fill(places, at, Place::Done(done));
            Reply::Worked
        }
        Err(job) => {
            fill(places, at, Place::Job(job));
            Reply::WorkRefused
        }
    }
}
