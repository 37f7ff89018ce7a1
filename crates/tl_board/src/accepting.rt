//! Edits, and what they touch.

ghost use Rattle.std.specs.Prelude.{◌≡◌, ◌<◌, length, IfOk, IfErr, OnOk, OnErr, None, Some};
ghost use Rattle.std.specs.Result.{IsErrOf};
ghost use Rattle.tl_edits.specs.Edits.{plain, attach, retune, detach};
ghost use Rattle.tl_edits.specs.Inputs.{refusal};
ghost use Rattle.tl_pieces.specs.Pieces.{without_owner, IsBoard};
ghost use Rattle.tl_capture.specs.Present.{IsPresent};
ghost use Rattle.tl_board.specs.Spans.{standing};
ghost use Rattle.tl_board.specs.Touched.{IsTouched};
ghost use Rattle.tl_board.specs.Accepting.{EditsBoth};
ghost use Rattle.tl_board.specs.TouchedWatches.{edited_monitor, AreTouched};

use crate::tally::Tally;
use crate::touched_watches::{edited_link, keys_with, known, watchers, windows_in};
use crate::watches::Watches;
use crate::{Rows, Touched, grow, keys_of, prune, touch_each, touches_of};
use std::alloc::{AllocError, Global};
use std::sync::Arc;
use tl_beats::Watch;
use tl_edits::{Change, Edit, EditFault};
use tl_pieces::{PieceKey, PieceMap};

/// Takes out the windows of a monitor. Their keys rise, before and after it, and each is of an owner.
fn take_away(pieces: &mut PieceMap<Tally, Rows>, monitor: u32)
    ensures gone { pieces.new ≡ without_owner monitor pieces.old }
    ensures before { IsBoard pieces.old }
    ensures after { IsBoard pieces.new }
{
    let _ = pieces.len();
    pieces.remove_owner(monitor);
    let _ = pieces.len();
}

impl Watches {
    /// Accepts an edit and answers its number, or refuses it: the first cause of `EditFault`, which stands then, or Memory where
    /// no cause stands and memory is refused. The windows of managers and of monitors that it touches lose their results, those
    /// that have no beat any more go, and those that get their first come. A monitor that is attached comes with its windows, and
    /// one that is detached goes with them. A refused edit is dropped, and nothing has changed. It costs what it costs `Spans`,
    /// and a few looks for each window of each monitor that it touches.
    pub fn edit(&mut self, alloc: Global, edit: Edit) -> Result<u64, EditFault>
        ensures number { IfOk result (λ number. number ≡ length self.new.spans.log.edits) }
        ensures ok { OnOk result (EditsBoth self.old (plain edit) self.new) }
        ensures before { OnOk result (IsPresent (standing self.old.spans).fragments) }
        ensures after { OnOk result (IsPresent (standing self.new.spans).fragments) }
        ensures accepted { OnOk result (refusal (length self.old.spans.log.edits) (standing self.old.spans) (plain edit) ≡ None) }
        ensures refused { IfErr result (λ fault. (fault ≡ EditFault.Memory → ⊥) → refusal (length self.old.spans.log.edits) (standing self.old.spans) (plain edit) ≡ Some fault) }
        ensures memory { IsErrOf result EditFault.Memory → refusal (length self.old.spans.log.edits) (standing self.old.spans) (plain edit) ≡ None }
        ensures err { OnErr result (self.new ≡ self.old) }
    {
        if let Some(fault) = self.spans.log().refusal(&edit) {
            return Err(fault);
        }
        let number = self.accept(alloc, edit)?;
        Ok(number)
    }

    /// Accepts an edit that no cause refuses, and answers its number; it does all that `edit` does. AllocError where memory is
    /// refused: then the edit is dropped, and nothing has changed.
    pub fn accept(&mut self, alloc: Global, edit: Edit) -> Result<u64, AllocError>
        requires { refusal (length self.old.spans.log.edits) (standing self.old.spans) (plain edit) ≡ None }
        ensures number { IfOk result (λ number. number ≡ length self.new.spans.log.edits) }
        ensures ok { OnOk result (EditsBoth self.old (plain edit) self.new) }
        ensures before { OnOk result (IsPresent (standing self.old.spans).fragments) }
        ensures after { OnOk result (IsPresent (standing self.new.spans).fragments) }
        ensures err { OnErr result (self.new ≡ self.old) }
    {
        match &edit {
            Edit::Attach(monitor, watch) => self.attach(alloc, *monitor, *watch),
            Edit::Change(Change::Retune(monitor, limit)) => self.retune(alloc, *monitor, *limit),
            Edit::Change(Change::Detach(monitor)) => self.detach(alloc, *monitor),
            _ => self.edit_links(alloc, edit),
        }
    }
}

impl Watches {
    /// Accepts an edit of fragments or of regions.
    fn edit_links(&mut self, alloc: Global, edit: Edit) -> Result<u64, AllocError>
        requires none { refusal (length self.old.spans.log.edits) (standing self.old.spans) (plain edit) ≡ None }
        requires links { edited_monitor (plain edit) ≡ None }
        ensures number { IfOk result (λ number. number ≡ length self.new.spans.log.edits) }
        ensures ok { OnOk result (EditsBoth self.old (plain edit) self.new) }
        ensures before { OnOk result (IsPresent (standing self.old.spans).fragments) }
        ensures after { OnOk result (IsPresent (standing self.new.spans).fragments) }
        ensures err { OnErr result (self.new ≡ self.old) }
    {
        let touched = touches_of(alloc, self.spans.log().inputs(), &edit)?;
        let (link, keys) = self.touched_keys(alloc, &edit, &touched)?;
        self.edit_keys(alloc, edit, touched, link, &keys)
    }

    /// The keys of the windows of monitors that an edit of fragments touches, and the link that all of them watch; where there are
    /// none, any link. AllocError where memory is refused.
    fn touched_keys(
        &self,
        alloc: Global,
        edit: &Edit,
        touched: &Touched,
    ) -> Result<(u16, Vec<PieceKey>), AllocError>
        requires { IsTouched (standing self.now.spans) (plain edit.now) touched.now }
        ensures { IfOk result (λ keyed. AreTouched (standing self.now.spans) (plain edit.now) keyed.0 keyed.1.items) }
    {
        let inputs = self.spans.log().inputs();
        let Some(link) = edited_link(inputs.topo(), edit) else {
            return Ok((0, Vec::new(alloc)));
        };
        let owners = watchers(alloc, inputs, link)?;
        let keys = keys_of(alloc, &owners, windows_in(touched))?;
        Ok((link, keys))
    }

    /// Accepts an edit that touches this of managers, and the windows of these keys of monitors.
    fn edit_keys(
        &mut self,
        alloc: Global,
        edit: Edit,
        touched: Touched,
        link: u16,
        keys: &[PieceKey],
    ) -> Result<u64, AllocError>
        requires none { refusal (length self.old.spans.log.edits) (standing self.old.spans) (plain edit) ≡ None }
        requires links { edited_monitor (plain edit) ≡ None }
        requires managers { IsTouched (standing self.old.spans) (plain edit) touched }
        requires touched { AreTouched (standing self.old.spans) (plain edit) link keys.now }
        ensures number { IfOk result (λ number. number ≡ length self.new.spans.log.edits) }
        ensures ok { OnOk result (EditsBoth self.old (plain edit) self.new) }
        ensures before { OnOk result (IsPresent (standing self.old.spans).fragments) }
        ensures after { OnOk result (IsPresent (standing self.new.spans).fragments) }
        ensures err { OnErr result (self.new ≡ self.old) }
    {
        let links = [link];
        let present = self.spans.present();
        if grow(&mut self.pieces, keys).is_err() {
            prune(&mut self.pieces, present, &links, keys);
            return Err(AllocError);
        }
        match self.spans.accept(alloc, edit, touched) {
            Ok(number) => {
                let present = self.spans.present();
                prune(&mut self.pieces, present, &links, keys);
                touch_each(&mut self.pieces, keys);
                Ok(number)
            }
            Err(refused) => {
                let present = self.spans.present();
                prune(&mut self.pieces, present, &links, keys);
                Err(refused)
            }
        }
    }

    /// Attaches a monitor: it comes with its windows.
    fn attach(&mut self, alloc: Global, monitor: u32, watch: Watch) -> Result<u64, AllocError>
        requires none { refusal (length self.old.spans.log.edits) (standing self.old.spans) (attach monitor watch) ≡ None }
        ensures number { IfOk result (λ number. number ≡ length self.new.spans.log.edits) }
        ensures ok { OnOk result (EditsBoth self.old (attach monitor watch) self.new) }
        ensures before { OnOk result (IsPresent (standing self.old.spans).fragments) }
        ensures after { OnOk result (IsPresent (standing self.new.spans).fragments) }
        ensures err { OnErr result (self.new ≡ self.old) }
    {
        known(&watch);
        let inputs = self.spans().log().inputs();
        let keys = keys_with(alloc, inputs, monitor, &watch)?;
        let keys = keys.as_slice();
        let opening = Arc::new(alloc, Tally { count: 0 })?;
        self.pieces.add_owner(monitor, opening)?;
        if grow(&mut self.pieces, keys).is_err() {
            take_away(&mut self.pieces, monitor);
            return Err(AllocError);
        }
        let edit = Edit::Attach(monitor, watch);
        match self.spans.accept(alloc, edit, Touched::Nothing) {
            Ok(number) => Ok(number),
            Err(refused) => {
                take_away(&mut self.pieces, monitor);
                Err(refused)
            }
        }
    }

    /// Gives a monitor another limit: its windows lose their results.
    fn retune(&mut self, alloc: Global, monitor: u32, limit: u32) -> Result<u64, AllocError>
        requires none { refusal (length self.old.spans.log.edits) (standing self.old.spans) (retune monitor limit) ≡ None }
        ensures number { IfOk result (λ number. number ≡ length self.new.spans.log.edits) }
        ensures ok { OnOk result (EditsBoth self.old (retune monitor limit) self.new) }
        ensures before { OnOk result (IsPresent (standing self.old.spans).fragments) }
        ensures after { OnOk result (IsPresent (standing self.new.spans).fragments) }
        ensures err { OnErr result (self.new ≡ self.old) }
    {
        let edit = Edit::Change(Change::Retune(monitor, limit));
        let number = self.spans.accept(alloc, edit, Touched::Nothing)?;
        self.pieces.touch_all(monitor);
        Ok(number)
    }

    /// Detaches a monitor: it goes with its windows.
    fn detach(&mut self, alloc: Global, monitor: u32) -> Result<u64, AllocError>
        requires none { refusal (length self.old.spans.log.edits) (standing self.old.spans) (detach monitor) ≡ None }
        ensures number { IfOk result (λ number. number ≡ length self.new.spans.log.edits) }
        ensures ok { OnOk result (EditsBoth self.old (detach monitor) self.new) }
        ensures before { OnOk result (IsPresent (standing self.old.spans).fragments) }
        ensures after { OnOk result (IsPresent (standing self.new.spans).fragments) }
        ensures err { OnErr result (self.new ≡ self.old) }
    {
        let edit = Edit::Change(Change::Detach(monitor));
        let number = self.spans.accept(alloc, edit, Touched::Nothing)?;
        take_away(&mut self.pieces, monitor);
        Ok(number)
    }
}
