//! Windows that go out to be checked, and come back.

ghost use Rattle.std.specs.Prelude.{◌≡◌, IfOk, IfErr, OnOk, OnErr, IfSome, IfNone, true, false};
ghost use Rattle.tl_desk.specs.Steps.{take_of, abandon_of, outcome_for};
ghost use Rattle.tl_desk.specs.declared.call.Call.TheVariants as call;
ghost use Rattle.tl_hall.specs.Passes.{Made, NoMore, Looked, Takes, HasNone, IsUntaken, IsStranger, IsAbandoned, HandsIn, IsDead, IsOldest};

use crate::hall::{Access, Hall, Pass, Rights};
use crate::rule::Came;
use std::alloc::Global;
use std::marker::Brand;
use std::sync::Wait;
use tl_desk::{Done, HandIn, Job, Piece, TakeFault};
use tl_monitor::Monitor;

impl<M: Monitor> Hall<M> {
    /// Gives the first window that is to be checked, with all that its check asks, under the next ticket, or None, or refuses it, as
    /// `Desk::take` does: a window of a monitor takes its monitor along. It may wait for another thread; the check stands outside
    /// the turn.
    pub fn take<R: Wait, K: Rights>(
        &self,
        rt: &R,
        alloc: Global,
        pass: Access<M, K>,
    ) -> (Access<M, K>, Result<Option<Job<M>>, TakeFault>)
        requires { pass.hall ≡ self.now.hall }
        ensures some { IfOk result.1 (λ found. IfSome found (λ job. Made pass (take_of job) (Takes job) result.0)) }
        ensures none { IfOk result.1 (λ found. IfNone found (Looked pass HasNone result.0)) }
        ensures err { IfErr result.1 (λ fault. Looked pass (IsUntaken fault) result.0) }
    {
        let Access { mut seat, rights } = pass;
        let mut desk = self.enter(rt, &mut seat);
        match desk.take(alloc) {
            Ok(Some(job)) => {
                self.leave_with::<Brand, Job<M>>(&mut seat, desk, &job);
                (Access { seat, rights }, Ok(Some(job)))
            }
            Ok(None) => {
                self.leave(&mut seat, desk);
                (Access { seat, rights }, Ok(None))
            }
            Err(fault) => {
                self.leave(&mut seat, desk);
                (Access { seat, rights }, Err(fault))
            }
        }
    }

    /// Takes a checked window in, as `Desk::hand_in` does. A stranger's job comes back, and is no entry of the history. It takes no
    /// memory, and may wait for another thread.
    pub fn hand_in<R: Wait, K: Rights>(
        &self,
        rt: &R,
        pass: Access<M, K>,
        done: Done<M>,
    ) -> (Access<M, K>, HandIn<M>)
        requires { pass.hall ≡ self.now.hall }
        ensures { HandsIn pass done result.1 result.0 }
    {
        self.hand_in_as::<R, K, Brand>(rt, pass, done)
    }

    /// The same of a job whose outcome was picked.
    fn hand_in_as<R: Wait, K: Rights, C: Came>(
        &self,
        rt: &R,
        pass: Access<M, K>,
        done: Done<M>,
    ) -> (Access<M, K>, HandIn<M>)
        requires hall { pass.hall ≡ self.now.hall }
        requires came { outcome_for done ≡ C.found }
        ensures { HandsIn pass done result.1 result.0 }
    {
        let Access { mut seat, rights } = pass;
        let mut desk = self.enter(rt, &mut seat);
        let ticket = done.ticket();
        let piece = done.piece();
        match desk.hand_in(done) {
            HandIn::Taken => {
                self.leave_with::<Brand, (u64, Piece, bool)>(
                    &mut seat,
                    desk,
                    &(ticket, piece, true),
                );
                (Access { seat, rights }, HandIn::Taken)
            }
            HandIn::Void => {
                self.leave_with::<Brand, (u64, Piece, bool)>(
                    &mut seat,
                    desk,
                    &(ticket, piece, false),
                );
                (Access { seat, rights }, HandIn::Void)
            }
            HandIn::Stranger(done) => {
                self.leave(&mut seat, desk);
                (Access { seat, rights }, HandIn::Stranger(done))
            }
        }
    }

    /// Takes a window back that wasn't checked, as `Desk::abandon` does: a stranger's job comes back, and is no entry of the history.
    /// It takes no memory, and may wait for another thread.
    pub fn abandon<R: Wait, K: Rights>(
        &self,
        rt: &R,
        pass: Access<M, K>,
        job: Job<M>,
    ) -> (Access<M, K>, Result<(), Job<M>>)
        requires { pass.hall ≡ self.now.hall }
        ensures ok { OnOk result.1 (Made pass (abandon_of job) (IsAbandoned job) result.0) }
        ensures back { IfErr result.1 (λ same. same ≡ job) }
        ensures err { OnErr result.1 (Looked pass (IsStranger job) result.0) }
    {
        let Access { mut seat, rights } = pass;
        let mut desk = self.enter(rt, &mut seat);
        let ticket = job.ticket();
        let piece = job.piece();
        match desk.abandon(job) {
            Ok(()) => {
                self.leave_with::<Brand, (u64, Piece)>(&mut seat, desk, &(ticket, piece));
                (Access { seat, rights }, Ok(()))
            }
            Err(job) => {
                self.leave(&mut seat, desk);
                (Access { seat, rights }, Err(job))
            }
        }
    }

    /// Calls a live ticket back, and answers whether it was live, as `Desk::recall` does. A ticket that isn't live is no entry of the
    /// history. It takes no memory, and may wait for another thread.
    pub fn recall<R: Wait>(&self, rt: &R, pass: Pass<M>, ticket: u64) -> (Pass<M>, bool)
        requires { pass.hall ≡ self.now.hall }
        ensures live { result.1 ≡ true → Made pass (call.Recall ticket) NoMore result.0 }
        ensures dead { result.1 ≡ false → Looked pass (IsDead ticket) result.0 }
    {
        let Access { mut seat, rights } = pass;
        let mut desk = self.enter(rt, &mut seat);
        if desk.recall(ticket) {
            self.leave_with::<Brand, u64>(&mut seat, desk, &ticket);
            (Access { seat, rights }, true)
        } else {
            self.leave(&mut seat, desk);
            (Access { seat, rights }, false)
        }
    }

    /// The lowest live ticket of the history that the pass has then seen, or None where none is live in it. It takes no memory, and
    /// may wait for another thread.
    pub fn oldest_live<R: Wait>(&self, rt: &R, pass: Pass<M>) -> (Pass<M>, Option<u64>)
        requires { pass.hall ≡ self.now.hall }
        ensures { Looked pass (IsOldest result.1) result.0 }
    {
        let Access { mut seat, rights } = pass;
        let desk = self.enter(rt, &mut seat);
        let found = desk.oldest_live();
        self.leave(&mut seat, desk);
        (Access { seat, rights }, found)
    }
}
