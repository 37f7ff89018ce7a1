//! Edits, and what they touch.

ghost use Rattle.std.specs.Prelude.{◌≡◌, ◌<◌, ◌++◌, ◌∷◌, [], length, IfOk, OnOk, OnErr, None, ℕ, ◌↔◌};
ghost use Rattle.std.specs.List.{Contains};
ghost use Rattle.tl_edits.specs.Edits.{plain};
ghost use Rattle.tl_edits.specs.Inputs.{refusal};
ghost use Rattle.tl_edits.specs.Log.{inputs_after};
ghost use Rattle.tl_capture.specs.Present.{IsPresent};
ghost use Rattle.tl_board.specs.Spans.{standing};
ghost use Rattle.tl_board.specs.Touched.{IsTouched};
ghost use Rattle.tl_board.specs.Touch.{Touches};
ghost use Rattle.tl_board.specs.declared.touched.Touched.TheVariants as variant;
ghost use Rattle.tl_board.specs.Edits.{EditsTo};

use crate::present::present_after;
use crate::spans::Spans;
use crate::touched::Touched;
use crate::windows::{grow, keys_of, prune, touch_each};
use std::alloc::{AllocError, Global};
use tl_client_rules::clients_of;
use tl_edits::{Edit, Log};

/// Accepts an edit that no cause refuses, and tells of the fragments before and after it.
fn accepted(log: &mut Log, edit: Edit) -> Result<u64, AllocError>
    requires { refusal (length log.old.edits) (inputs_after log.old.topo log.old.edits) (plain edit) ≡ None }
    ensures number { IfOk result (λ number. number ≡ length log.new.edits) }
    ensures ok { OnOk result (log.new ≡ record log.old { edits = log.old.edits ++ plain edit ∷ [] }) }
    ensures err { OnErr result (log.new ≡ log.old) }
    ensures topo { (inputs_after log.old.topo log.old.edits).topo ≡ log.old.topo }
    ensures before { IsPresent (inputs_after log.old.topo log.old.edits).fragments }
    ensures after { IsPresent (inputs_after log.new.topo log.new.edits).fragments }
{
    let _ = present_after(log);
    let accepted = log.accept(edit);
    let _ = present_after(log);
    accepted
}

impl Spans {
    /// Accepts an edit that no cause refuses, and that touches exactly this, and answers its number. The windows that it touches
    /// lose their results, those that have no beat any more go, and those that get their first come. AllocError where memory is
    /// refused: then the edit is dropped, and nothing has changed. It costs the beats of its fragments, and a few looks for each
    /// window that it touches; a region's costs the windows of its manager.
    pub fn accept(&mut self, alloc: Global, edit: Edit, touched: Touched) -> Result<u64, AllocError>
        requires none { refusal (length self.old.log.edits) (standing self.old) (plain edit) ≡ None }
        requires touched { IsTouched (standing self.old) (plain edit) touched }
        ensures number { IfOk result (λ number. number ≡ length self.new.log.edits) }
        ensures ok { OnOk result (EditsTo self.old (plain edit) self.new) }
        ensures before { OnOk result (IsPresent (standing self.old).fragments) }
        ensures after { OnOk result (IsPresent (standing self.new).fragments) }
        ensures err { OnErr result (self.new ≡ self.old) }
    {
        match touched {
            Touched::Nothing => self.edit_none(edit),
            Touched::All(manager) => self.edit_all(edit, manager),
            Touched::Windows(manager, windows) => {
                self.edit_windows(alloc, edit, manager, &windows)
            }
        }
    }
}

impl Spans {
    /// Accepts an edit that touches no window.
    fn edit_none(&mut self, edit: Edit) -> Result<u64, AllocError>
        requires none { refusal (length self.old.log.edits) (standing self.old) (plain edit) ≡ None }
        requires touched { IsTouched (standing self.old) (plain edit) variant.Nothing }
        ensures number { IfOk result (λ number. number ≡ length self.new.log.edits) }
        ensures ok { OnOk result (EditsTo self.old (plain edit) self.new) }
        ensures before { OnOk result (IsPresent (standing self.old).fragments) }
        ensures after { OnOk result (IsPresent (standing self.new).fragments) }
        ensures err { OnErr result (self.new ≡ self.old) }
    {
        let number = accepted(&mut self.log, edit)?;
        Ok(number)
    }

    /// Accepts an edit that touches all windows of a manager.
    fn edit_all(&mut self, edit: Edit, manager: u16) -> Result<u64, AllocError>
        requires none { refusal (length self.old.log.edits) (standing self.old) (plain edit) ≡ None }
        requires touched { IsTouched (standing self.old) (plain edit) (variant.All manager) }
        ensures number { IfOk result (λ number. number ≡ length self.new.log.edits) }
        ensures ok { OnOk result (EditsTo self.old (plain edit) self.new) }
        ensures before { OnOk result (IsPresent (standing self.old).fragments) }
        ensures after { OnOk result (IsPresent (standing self.new).fragments) }
        ensures err { OnErr result (self.new ≡ self.old) }
    {
        let number = accepted(&mut self.log, edit)?;
        self.pieces.touch_all(u32::from(manager));
        Ok(number)
    }

    /// Accepts an edit that touches these windows of a manager.
    fn edit_windows(
        &mut self,
        alloc: Global,
        edit: Edit,
        manager: u16,
        windows: &[u64],
    ) -> Result<u64, AllocError>
        requires none { refusal (length self.old.log.edits) (standing self.old) (plain edit) ≡ None }
        requires manager { manager < length (standing self.old).topo.managers }
        requires touched { (number window : ℕ) → Touches (standing self.old) (plain edit) number window ↔ ((number ≡ manager) × Contains windows.now window) }
        ensures number { IfOk result (λ number. number ≡ length self.new.log.edits) }
        ensures ok { OnOk result (EditsTo self.old (plain edit) self.new) }
        ensures before { OnOk result (IsPresent (standing self.old).fragments) }
        ensures after { OnOk result (IsPresent (standing self.new).fragments) }
        ensures err { OnErr result (self.new ≡ self.old) }
    {
        let owner = u32::from(manager);
        let links = clients_of(alloc, self.log.inputs().topo(), manager)?;
        let keys = keys_of(alloc, &[owner], windows)?;
        let keys = keys.as_slice();
        if grow(&mut self.pieces, keys).is_err() {
            prune(&mut self.pieces, self.log.inputs().present(), &links, keys);
            return Err(AllocError);
        }
        match accepted(&mut self.log, edit) {
            Ok(number) => {
                prune(&mut self.pieces, self.log.inputs().present(), &links, keys);
                touch_each(&mut self.pieces, keys);
                Ok(number)
            }
            Err(refused) => {
                prune(&mut self.pieces, self.log.inputs().present(), &links, keys);
                Err(refused)
            }
        }
    }
}
