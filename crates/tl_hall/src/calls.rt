//! Edits, reports, and what is read.

ghost use Rattle.std.specs.Prelude.{◌≡◌, IfOk, IfErr, OnErr};
ghost use Rattle.tl_edits.specs.Edits.{plain_change, attach};
ghost use Rattle.tl_desk.specs.declared.call.Call.TheVariants as call;
ghost use Rattle.tl_hall.specs.Passes.{Made, NoMore, Looked, NoWord, IsRefused, IsUnready, IsLatest, HasEdits};

use crate::hall::{Access, Hall, Pass};
use crate::rule::Asked;
use std::alloc::{AllocError, Global};
use std::marker::Brand;
use std::sync::Wait;
use tl_beats::Watch;
use tl_desk::{Desk, PublishFault, Report};
use tl_edits::{Change, EditFault};
use tl_monitor::Monitor;

/// A copy of the latest report.
fn latest<M: Monitor>(desk: &Desk<M>) -> Result<Option<Report>, AllocError>
    ensures { IfOk result (λ found. IsLatest found desk.now) }
{
    match desk.latest() {
        Some(report) => Ok(Some(report.copy()?)),
        None => Ok(None),
    }
}

impl<M: Monitor> Hall<M> {
    /// Accepts a change as one edit and answers its number, or refuses it, as `Desk::edit` does. An accepted edit is one entry of
    /// the history, the last one that the pass has then seen; a refused one is none. It may wait for another thread.
    pub fn submit<R: Wait>(
        &self,
        rt: &R,
        alloc: Global,
        pass: Pass<M>,
        change: Change,
    ) -> (Pass<M>, Result<u64, EditFault>)
        requires { pass.hall ≡ self.now.hall }
        ensures ok { IfOk result.1 (λ number. Made pass (call.Edit change number) NoMore result.0) }
        ensures err { IfErr result.1 (λ fault. Looked pass (IsRefused (plain_change change) fault) result.0) }
    {
        self.submit_as::<R, Brand>(rt, alloc, pass, change)
    }

    /// The same of a change that was picked.
    fn submit_as<R: Wait, C: Asked>(
        &self,
        rt: &R,
        alloc: Global,
        pass: Pass<M>,
        change: Change,
    ) -> (Pass<M>, Result<u64, EditFault>)
        requires hall { pass.hall ≡ self.now.hall }
        requires asked { change ≡ C.change }
        ensures ok { IfOk result.1 (λ number. Made pass (call.Edit C.change number) NoMore result.0) }
        ensures err { IfErr result.1 (λ fault. Looked pass (IsRefused (plain_change C.change) fault) result.0) }
    {
        let Access { mut seat, rights } = pass;
        let mut desk = self.enter(rt, &mut seat);
        match desk.edit(alloc, change) {
            Ok(number) => {
                self.leave_with::<Brand, u64>(&mut seat, desk, &number);
                (Access { seat, rights }, Ok(number))
            }
            Err(fault) => {
                self.leave(&mut seat, desk);
                (Access { seat, rights }, Err(fault))
            }
        }
    }

    /// Attaches a monitor under a number as one edit and answers the number of the edit, or refuses it, as `Desk::attach` does: a
    /// refused monitor comes back as it was. It may wait for another thread.
    pub fn attach<R: Wait>(
        &self,
        rt: &R,
        alloc: Global,
        pass: Pass<M>,
        number: u32,
        monitor: M,
    ) -> (Pass<M>, Result<u64, (EditFault, M)>)
        requires { pass.hall ≡ self.now.hall }
        ensures ok { IfOk result.1 (λ edit. Made pass (call.Attach number (M.held monitor).watch edit) NoMore result.0) }
        ensures back { IfErr result.1 (λ e. M.held e.1 ≡ M.held monitor) }
        ensures err { IfErr result.1 (λ e. Looked pass (IsRefused (attach number (M.held monitor).watch) e.0) result.0) }
    {
        let Access { mut seat, rights } = pass;
        let mut desk = self.enter(rt, &mut seat);
        let watch = monitor.watch();
        match desk.attach(alloc, number, monitor) {
            Ok(edit) => {
                self.leave_with::<Brand, (u32, Watch, u64)>(
                    &mut seat,
                    desk,
                    &(number, watch, edit),
                );
                (Access { seat, rights }, Ok(edit))
            }
            Err(refused) => {
                self.leave(&mut seat, desk);
                (Access { seat, rights }, Err(refused))
            }
        }
    }

    /// Publishes the report of all edits and answers its version, or refuses it, as `Desk::publish` does. It may wait for another
    /// thread.
    pub fn publish<R: Wait>(
        &self,
        rt: &R,
        alloc: Global,
        pass: Pass<M>,
    ) -> (Pass<M>, Result<u64, PublishFault>)
        requires { pass.hall ≡ self.now.hall }
        ensures ok { IfOk result.1 (λ version. Made pass (call.Publish version) NoMore result.0) }
        ensures err { IfErr result.1 (λ fault. Looked pass (IsUnready fault) result.0) }
    {
        let Access { mut seat, rights } = pass;
        let mut desk = self.enter(rt, &mut seat);
        match desk.publish(alloc) {
            Ok(version) => {
                self.leave_with::<Brand, u64>(&mut seat, desk, &version);
                (Access { seat, rights }, Ok(version))
            }
            Err(fault) => {
                self.leave(&mut seat, desk);
                (Access { seat, rights }, Err(fault))
            }
        }
    }

    /// A copy of the latest report of the history that the pass has then seen, or None where nothing was published in it.
    /// AllocError where memory is refused. It may wait for another thread.
    pub fn read<R: Wait>(
        &self,
        rt: &R,
        pass: Pass<M>,
    ) -> (Pass<M>, Result<Option<Report>, AllocError>)
        requires { pass.hall ≡ self.now.hall }
        ensures ok { IfOk result.1 (λ found. Looked pass (IsLatest found) result.0) }
        ensures err { OnErr result.1 (Looked pass NoWord result.0) }
    {
        let Access { mut seat, rights } = pass;
        let desk = self.enter(rt, &mut seat);
        let found = latest(&desk);
        self.leave(&mut seat, desk);
        (Access { seat, rights }, found)
    }

    /// How many edits the history has that the pass has then seen. It takes no memory, and may wait for another thread.
    pub fn edits<R: Wait>(&self, rt: &R, pass: Pass<M>) -> (Pass<M>, u64)
        requires { pass.hall ≡ self.now.hall }
        ensures { Looked pass (HasEdits result.1) result.0 }
    {
        let Access { mut seat, rights } = pass;
        let desk = self.enter(rt, &mut seat);
        let count = desk.log().len();
        self.leave(&mut seat, desk);
        (Access { seat, rights }, count)
    }
}
