//! The log of accepted edits.

ghost use Rattle.std.specs.Prelude.{◌≡◌, ◌≤◌, ◌<◌, ◌++◌, ◌∷◌, [], ℕ, None, Some, IfOk, IfErr, OnOk, OnErr, length, map, take};
ghost use Rattle.std.specs.Arc.{arc_value};
ghost use Rattle.std.specs.Result.{IsErrOf};
ghost use Rattle.tl_edits.specs.Edits.{plain};
ghost use Rattle.tl_edits.specs.Inputs.{InputData, refusal};
ghost use Rattle.tl_edits.specs.Log.{LogData, IsLog, inputs_after};

use crate::edit::Edit;
use crate::fault::{EditFault, PastFault};
use crate::inputs::Inputs;
use std::alloc::{AllocError, Global};
use std::marker::Model;
use std::sync::Arc;
use tl_topology::Topo;

/// The edits that were accepted on a topology, in order, each with its number from 1; at most 65,536. Fragments are shared
/// between the log and what stands: their beats are in memory once.
#[derive(Drop)]
pub struct Log {
    edits: Vec<Edit>,
    inputs: Inputs,
}

impl Model for Log {
    ghost use Rattle.std.specs.Prelude.{◌≡◌, map};
    ghost use Rattle.tl_edits.specs.Edits.{plain};
    ghost use Rattle.tl_edits.specs.Log.{LogData, IsLog, inputs_after};

    ghost Value = { LogData };

    ghost view = { λ l. record { topo = l.inputs.topo; edits = map plain l.edits.items } };

    ghost invariant = { λ l. IsLog (record { topo = l.inputs.topo; edits = map plain l.edits.items })
        × (l.inputs ≡ inputs_after l.inputs.topo (map plain l.edits.items)) };
}

impl Log {
    /// A log without edits. AllocError where memory is refused.
    pub fn new(alloc: Global, topo: Topo) -> Result<Log, AllocError>
        ensures { IfOk result (λ log. log ≡ record { topo = topo; edits = [] }) }
    {
        Ok(Log {
            edits: Vec::new(alloc),
            inputs: Inputs::new(alloc, Arc::new(alloc, topo)?)?,
        })
    }

    /// How many edits were accepted.
    pub fn len(&self) -> u64
        ensures count { result ≡ length self.now.edits }
        ensures limit { result ≤ 65536 }
    {
        // The log has at most 65,536 edits.
        let _ = &self.inputs;
        self.edits.len() as u64
    }

    /// What stands now.
    pub fn inputs(&self) -> &Inputs
        ensures exact { result.now ≡ inputs_after self.now.topo self.now.edits }
        ensures topo { result.now.topo ≡ self.now.topo }
        // Each edit was accepted after those before it.
        ensures kept { IsLog self.now }
    {
        &self.inputs
    }

    /// Why an edit would be refused now: the first cause of `EditFault`. None where `push` accepts it, unless memory is refused.
    pub fn refusal(&self, edit: &Edit) -> Option<EditFault>
        ensures { result ≡ refusal (length self.now.edits) (inputs_after self.now.topo self.now.edits) (plain edit.now) }
    {
        self.inputs.refusal(self.edits.len(), edit)
    }

    /// Appends an edit and answers its number, or refuses it: the first cause of `EditFault`, which stands then, or Memory where
    /// no cause stands and memory is refused. A refused edit is dropped, and the log is as before.
    pub fn push(&mut self, edit: Edit) -> Result<u64, EditFault>
        ensures number { IfOk result (λ number. number ≡ length self.new.edits) }
        ensures ok { OnOk result (self.new ≡ record self.old { edits = self.old.edits ++ plain edit ∷ [] }) }
        ensures accepted { OnOk result (refusal (length self.old.edits) (inputs_after self.old.topo self.old.edits) (plain edit) ≡ None) }
        ensures refused { IfErr result (λ fault. (fault ≡ EditFault.Memory → ⊥) → refusal (length self.old.edits) (inputs_after self.old.topo self.old.edits) (plain edit) ≡ Some fault) }
        ensures memory { IsErrOf result EditFault.Memory → refusal (length self.old.edits) (inputs_after self.old.topo self.old.edits) (plain edit) ≡ None }
        ensures err { OnErr result (self.new ≡ self.old) }
    {
        if let Some(fault) = self.refusal(&edit) {
            return Err(fault);
        }
        let number = self.accept(edit)?;
        Ok(number)
    }

    /// Appends an edit that no cause refuses and answers its number. AllocError where memory is refused: then the edit is dropped,
    /// and the log is as before.
    pub fn accept(&mut self, edit: Edit) -> Result<u64, AllocError>
        requires { refusal (length self.old.edits) (inputs_after self.old.topo self.old.edits) (plain edit) ≡ None }
        ensures number { IfOk result (λ number. number ≡ length self.new.edits) }
        ensures ok { OnOk result (self.new ≡ record self.old { edits = self.old.edits ++ plain edit ∷ [] }) }
        ensures err { OnErr result (self.new ≡ self.old) }
    {
        self.edits.reserve(1)?;
        self.inputs.apply(&edit)?;
        self.edits.push(edit)?;
        Ok(self.edits.len() as u64)
    }

    /// What the first so many edits leave. NoSuchEdit where fewer were accepted; Memory where memory is refused.
    pub fn inputs_at(&self, alloc: Global, count: u64) -> Result<Inputs, PastFault>
        ensures exact { IfOk result (λ inputs. inputs ≡ inputs_after self.now.topo (take count self.now.edits)) }
        ensures topo { IfOk result (λ inputs. inputs.topo ≡ self.now.topo) }
        ensures within { OnOk result (count ≤ length self.now.edits) }
        ensures beyond { (n : ℕ) → IsErrOf result (PastFault.NoSuchEdit n) → (n ≡ count) × (length self.now.edits < count) }
    {
        if count > self.len() {
            return Err(PastFault::NoSuchEdit(count));
        }
        let mut inputs = Inputs::new(alloc, Arc::try_clone(&self.inputs.topo)?)?;
        for edit in self.edits[..count as usize].iter() {
            inputs.apply(edit)?;
        }
        Ok(inputs)
    }

    /// The same log, with the fragments shared and not copied. AllocError where memory is refused.
    pub fn copy(&self) -> Result<Log, AllocError>
        ensures { IfOk result (λ copy. copy ≡ self.now) }
    {
        let mut edits = Vec::new(*self.edits.allocator());
        for edit in self.edits.iter() {
            edits.push(edit.copy()?)?;
        }
        Ok(Log {
            edits,
            inputs: self.inputs.copy()?,
        })
    }
}
