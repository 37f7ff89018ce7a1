//! Lists of steps that run on a desk.

ghost use Rattle.std.specs.Prelude.{◌≡◌, ◌≤◌, ◌<◌, ◌+◌, List, [], ◌∷◌, IfOk, IfErr, IfSome, OnErr, vec_capacity, vec_len};
ghost use Rattle.tl_desk.specs.Core.{IsDesk};
ghost use Rattle.tl_desk.specs.Jobs.{IsOutHere, TakesBack};
ghost use Rattle.tl_desk.specs.Steps.{Step as DeskStep};
ghost use Rattle.tl_desk.specs.Works.{ticket_of, window_of};
ghost use Rattle.tl_desk.specs.declared.call.Call.TheVariants as call;
ghost use Rattle.tl_desk.specs.declared.places.Place.{Place};
ghost use Rattle.tl_desk.specs.Plays.{Answers, AnswersEdit, AnswersAttach, AnswersTake, AnswersHandIn, AnswersAbandon, AnswersRecall, AnswersPublish, Runs, Leaves, LeavesOne, Plays, job_of, AreOut};

use crate::desk::Desk;
use crate::fault::PublishFault;
use crate::places::{Place, done_out, job_out, work_at};
use crate::{HandIn, Job, TakeFault};
use std::alloc::Global;
use tl_edits::{Change, EditFault};
use tl_monitor::Monitor;

/// A step of a list that runs on a desk. The jobs that the list takes stand in places, from 0 on, in the order in which they were
/// given; a place stays where it is.
#[derive(Drop)]
pub enum Step<M: Monitor> {
    /// Accepts this change as an edit.
    Edit(Change),
    /// Attaches this monitor under this number.
    Attach(u32, M),
    /// Takes a job, which gets the next place.
    Take,
    /// Checks the job in this place, which then has the checked job.
    Work(usize),
    /// Hands the checked job in this place in, which is empty then.
    HandIn(usize),
    /// Abandons the job in this place, which is empty then.
    Abandon(usize),
    /// Calls the ticket of this number back.
    Recall(u64),
    /// Publishes the report of all edits.
    Publish,
}

/// What a step of a list answers.
#[derive(Clone, Copy, Debug, PartialEq, Eq)]
pub enum Reply {
    /// The change was accepted, or the monitor attached, as the edit of this number.
    Edited(u64),
    /// The change or the monitor was refused and dropped, and nothing has changed.
    EditRefused(EditFault),
    /// A job was given under the ticket of this number.
    Took(u64),
    /// No window is wanted that has no live ticket.
    TookNone,
    /// No job was given, and nothing has changed.
    TakeRefused(TakeFault),
    /// The job was checked.
    Worked,
    /// Memory was refused: the job stays as it was.
    WorkRefused,
    /// The checked job came back, and its ticket has ended.
    HandedIn {
        /// Whether its result was taken: what was checked is what stands, and its ticket was live.
        taken: bool,
    },
    /// The job came back, and its ticket has ended.
    Abandoned,
    /// The ticket was called back, if it was live.
    Recalled(bool),
    /// The report of this version was published.
    Published(u64),
    /// Nothing was published, and nothing has changed.
    PublishRefused(PublishFault),
    /// The place has nothing of the kind that the step asks for, and nothing has changed.
    Nothing,
}

impl<M: Monitor> Desk<M> {
    /// Runs steps, one after the other, and answers a reply for each. The jobs that are left in their places are abandoned at the
    /// end, the first place first. Where memory for the lists of replies and places is refused, all steps come back before the
    /// first has run, and nothing has changed; no later step fails for want of it.
    pub fn play(&mut self, alloc: Global, steps: Vec<Step<M>>) -> Result<Vec<Reply>, Vec<Step<M>>>
        ensures ok { IfOk result (λ replies. Plays (λ m. (M.held m).watch) self.old steps.items replies.items self.new) }
        ensures back { IfErr result (λ same. same.items ≡ steps.items) }
        ensures err { OnErr result (self.new ≡ self.old) }
    {
        let Ok(replies) = Vec::with_capacity(alloc, steps.len()) else {
            return Err(steps);
        };
        let Ok(mut places) = Vec::with_capacity(alloc, steps.len()) else {
            return Err(steps);
        };
        let replies = self.run(alloc, steps, &mut places, replies);
        self.leave(places);
        Ok(replies)
    }

    /// Runs steps, one after the other, and puts the reply of each after those before.
    fn run(
        &mut self,
        alloc: Global,
        steps: Vec<Step<M>>,
        places: &mut Vec<Place<M>>,
        replies: Vec<Reply>,
    ) -> Vec<Reply>
        requires none { (places.old.items ≡ []) × (replies.items ≡ []) }
        requires places { vec_len places.old + vec_len steps ≤ vec_capacity places.old }
        requires replies { vec_len replies + vec_len steps ≤ vec_capacity replies }
        ensures ran { Runs (λ m. (M.held m).watch) steps.items places.old.items self.old result.items places.new.items self.new }
        ensures out { AreOut places.new.items self.new }
    {
        let mut replies = replies;
        let mut steps = steps.into_iter();
        loop {
            // What is true of every desk.
            let _ = self.log();
            let Some(step) = steps.next() else {
                return replies;
            };
            let reply = self.answer(alloc, step, places);
            replies.push_reserved(reply);
        }
    }

    /// Runs one step.
    fn answer(&mut self, alloc: Global, step: Step<M>, places: &mut Vec<Place<M>>) -> Reply
        requires out { AreOut places.old.items self.old }
        requires room { vec_len places.old < vec_capacity places.old }
        ensures answers { Answers (λ m. (M.held m).watch) step places.old.items self.old result places.new.items self.new }
        ensures out { AreOut places.new.items self.new }
        ensures room { (vec_capacity places.new ≡ vec_capacity places.old) × (vec_len places.new ≤ vec_len places.old + 1) }
    {
        match step {
            Step::Edit(change) => self.answer_edit(alloc, change),
            Step::Attach(number, monitor) => self.answer_attach(alloc, number, monitor),
            Step::Take => self.answer_take(alloc, places),
            Step::Work(at) => work_at(alloc, places, at),
            Step::HandIn(at) => self.answer_hand_in(places, at),
            Step::Abandon(at) => self.answer_abandon(places, at),
            Step::Recall(ticket) => self.answer_recall(ticket),
            Step::Publish => self.answer_publish(alloc),
        }
    }

    fn answer_edit(&mut self, alloc: Global, change: Change) -> Reply
        ensures answers { AnswersEdit change self.old result self.new }
        ensures out { (places : List (Place M)) → AreOut places self.old → AreOut places self.new }
    {
        match self.edit(alloc, change) {
            Ok(number) => Reply::Edited(number),
            Err(fault) => Reply::EditRefused(fault),
        }
    }

    fn answer_attach(&mut self, alloc: Global, number: u32, monitor: M) -> Reply
        ensures answers { AnswersAttach number (M.held monitor).watch self.old result self.new }
        ensures out { (places : List (Place M)) → AreOut places self.old → AreOut places self.new }
    {
        match self.attach(alloc, number, monitor) {
            Ok(number) => Reply::Edited(number),
            Err((fault, _monitor)) => Reply::EditRefused(fault),
        }
    }

    fn answer_take(&mut self, alloc: Global, places: &mut Vec<Place<M>>) -> Reply
        requires out { AreOut places.old.items self.old }
        requires room { vec_len places.old < vec_capacity places.old }
        ensures answers { AnswersTake places.old.items self.old result places.new.items self.new }
        ensures out { AreOut places.new.items self.new }
        ensures room { (vec_capacity places.new ≡ vec_capacity places.old) × (vec_len places.new ≤ vec_len places.old + 1) }
    {
        match self.take(alloc) {
            Ok(Some(job)) => {
                let ticket = job.ticket();
                places.push_reserved(Place::Job(job));
                Reply::Took(ticket)
            }
            Ok(None) => Reply::TookNone,
            Err(fault) => Reply::TakeRefused(fault),
        }
    }

    fn answer_hand_in(&mut self, places: &mut Vec<Place<M>>, at: usize) -> Reply
        requires { AreOut places.old.items self.old }
        ensures answers { AnswersHandIn at places.old.items self.old result places.new.items self.new }
        ensures out { AreOut places.new.items self.new }
        ensures room { (vec_capacity places.new ≡ vec_capacity places.old) × (vec_len places.new ≡ vec_len places.old) }
    {
        // What is true of every desk.
        let _ = self.log();
        let Some(done) = done_out(places, at) else {
            return Reply::Nothing;
        };
        match self.hand_in(done) {
            HandIn::Taken => Reply::HandedIn { taken: true },
            HandIn::Void => Reply::HandedIn { taken: false },
            HandIn::Stranger(_done) => unreachable!(),
        }
    }

    fn answer_abandon(&mut self, places: &mut Vec<Place<M>>, at: usize) -> Reply
        requires { AreOut places.old.items self.old }
        ensures answers { AnswersAbandon at places.old.items self.old result places.new.items self.new }
        ensures out { AreOut places.new.items self.new }
        ensures room { (vec_capacity places.new ≡ vec_capacity places.old) × (vec_len places.new ≡ vec_len places.old) }
    {
        let Some(job) = job_out(places, at) else {
            return Reply::Nothing;
        };
        self.give_up(job);
        Reply::Abandoned
    }

    fn answer_recall(&mut self, ticket: u64) -> Reply
        ensures answers { AnswersRecall ticket self.old result self.new }
        ensures out { (places : List (Place M)) → AreOut places self.old → AreOut places self.new }
    {
        Reply::Recalled(self.recall(ticket))
    }

    fn answer_publish(&mut self, alloc: Global) -> Reply
        ensures answers { AnswersPublish self.old result self.new }
        ensures out { (places : List (Place M)) → AreOut places self.old → AreOut places self.new }
    {
        match self.publish(alloc) {
            Ok(version) => Reply::Published(version),
            Err(fault) => Reply::PublishRefused(fault),
        }
    }

    /// Abandons the jobs that are left, the first place first.
    fn leave(&mut self, places: Vec<Place<M>>)
        requires { AreOut places.items self.old }
        ensures { Leaves places.items self.old self.new }
    {
        let mut places = places.into_iter();
        loop {
            // What is true of every desk.
            let _ = self.log();
            let Some(place) = places.next() else {
                places.destroy_empty();
                return;
            };
            self.leave_one(place);
        }
    }

    /// Abandons the job of a place, if it has one.
    fn leave_one(&mut self, place: Place<M>)
        requires { IfSome (job_of place) (IsOutHere self.old) }
        ensures left { LeavesOne (job_of place) self.old self.new }
        // The jobs of other places stay out.
        ensures out { (rest : List (Place M)) → AreOut (place ∷ rest) self.old → AreOut rest self.new }
    {
        let Some(job) = place.into_job() else {
            return;
        };
        self.give_up(job);
    }

    /// Abandons a job that is out.
    fn give_up(&mut self, job: Job<M>)
        requires { IsOutHere self.old job }
        ensures step { DeskStep self.old (call.Abandon (ticket_of job) (window_of job)) self.new }
        ensures back { TakesBack self.old job self.new }
        ensures desk { IsDesk self.old }
    {
        // What is true of every desk.
        let _ = self.log();
        self.abandon(job).unwrap();
    }
}
