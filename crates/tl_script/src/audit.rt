//! What checking everything anew finds after some edits of a script.

ghost use Rattle.std.specs.Prelude.{◌≡◌, ◌+◌, ◌<◌, ◌≤◌, ◌^◌, [], ℕ, Option, Some, None, IfOk, IfErr, OnOk};
ghost use Rattle.std.specs.Result.{IsErrOf};
ghost use Rattle.std.specs.Io.KnownBytes.{Appends};
ghost use Rattle.tl_check.specs.Notes.{IsPut, IsPutFront, AppendsFront};
ghost use Rattle.tl_script.specs.Scripts.{commands_of};
ghost use Rattle.tl_script.specs.Text.{IsCommand};
ghost use Rattle.tl_script.specs.Audits.{audit_code_of, audit_number_of, of_past, edits_of, IsStopped, IsStopAt, HasAudit, HasAuditText, IsBeyond};
ghost use Rattle.tl_script.specs.Asked.{asked};
ghost use Rattle.tl_script.specs.Accepted.{edits_with};
ghost use Rattle.tl_script.specs.Causes.{of_script};
ghost use Rattle.tl_script.specs.declared.stop.Stop.{Stop as AnyStop};
ghost use Rattle.tl_script.specs.declared.audit.AuditFault.TheVariants.{Memory, WriteFault as Unwritten};

use crate::asked::{Asked, asked_by};
use crate::stop::Stop;
use crate::{Command, ScriptFault, Spot, Visitor, visit_all};
use std::alloc::{AllocError, Global};
use std::thread::Threads;
use thiserror::Error;
use tl_check::{Form, Judges, Plain, scratch};
use tl_edits::{Edit, EditFault, Log, PastFault};
use tl_text::{ByteOut, WriteFault, write_all};
use tl_topology::Topo;

/// Why an audit tells no rows.
#[derive(Clone, Copy, Debug, Drop, Error, PartialEq, Eq)]
pub enum AuditFault {
    /// The script stops at a command that is bad or cut off; nothing was written.
    #[error("stopped")]
    Stop(Stop),
    /// Fewer edits of the script are accepted than this number; nothing was written.
    #[error("no edit {0}")]
    NoSuchEdit(u64),
    /// A growth was refused; nothing was written.
    #[error("out of memory")]
    Memory,
    /// A write failed; a front of the text was written.
    #[error("a write failed")]
    WriteFault,
}

impl AuditFault {
    /// The number of the refusal: 41 or 42 of a stop, 43, 20 or 19.
    pub fn code(&self) -> u8
        ensures { result ≡ audit_code_of self.now }
    {
        match self {
            AuditFault::Stop(stop) => stop.cause.code(),
            AuditFault::NoSuchEdit(_) => 43,
            AuditFault::Memory => 20,
            AuditFault::WriteFault => 19,
        }
    }

    /// The command of a stop, or the edit that was asked for.
    pub fn number(&self) -> Option<u64>
        ensures { result ≡ audit_number_of self.now }
    {
        match self {
            AuditFault::Stop(stop) => Some(stop.command),
            AuditFault::NoSuchEdit(edit) => Some(*edit),
            AuditFault::Memory | AuditFault::WriteFault => None,
        }
    }
}

impl From<AllocError> for AuditFault {
    ghost from_gives = { λ _ e. e ≡ Memory };

    fn from(_error: AllocError) -> AuditFault {
        AuditFault::Memory
    }
}

impl From<WriteFault> for AuditFault {
    ghost from_gives = { λ _ e. e ≡ Unwritten };

    fn from(_error: WriteFault) -> AuditFault {
        AuditFault::WriteFault
    }
}

impl From<PastFault> for AuditFault {
    ghost from_gives = { λ found e. e ≡ of_past found };

    fn from(found: PastFault) -> AuditFault {
        match found {
            PastFault::NoSuchEdit(edit) => AuditFault::NoSuchEdit(edit),
            PastFault::Memory => AuditFault::Memory,
        }
    }
}

/// A log that the edits of a script are added to. Its publishes ask for nothing.
#[derive(Drop)]
struct Edits {
    alloc: Global,
    log: Log,
}

impl<'s> Visitor<'s> for Edits {
    ghost use Rattle.std.specs.Prelude.{◌≡◌};
    ghost use Rattle.tl_script.specs.Accepted.{accepted};

    ghost has_seen = { λ first now before. (now.log.topo ≡ first.log.topo) × (now.log.edits ≡ accepted first.log.topo first.log.edits before) };

    fn visit(&mut self, command: &Command<'s>, _spot: Spot<'s>) -> Result<(), AllocError> {
        push_asked(self.alloc, &mut self.log, command)
    }
}

/// The accepted edits of a script. Its publishes ask for nothing. Stop where the script stops, at any command, and Memory where
/// memory is refused.
pub fn log_of(alloc: Global, topo: &Topo, script: &[u8]) -> Result<Log, AuditFault>
    ensures exact { IfOk result (λ log. log ≡ record { topo = topo.now; edits = edits_of topo.now script.now }) }
    ensures whole { OnOk result ((commands_of script.now).fault ≡ None) }
    ensures stopped { IfErr result (λ fault. IsStopped script.now fault) }
{
    let log = Log::new(alloc, topo.copy(alloc)?)?;
    let mut edits = Edits { alloc, log };
    let end = visit_all(script, &mut edits)?;
    match end.fault {
        Some(fault) => Err(AuditFault::Stop(stop_after(end.commands, fault))),
        None => Ok(edits.log),
    }
}

/// Where a script stops after so many commands.
fn stop_after(done: u64, fault: ScriptFault) -> Stop
    requires { done < 2 ^ 63 }
    ensures { result ≡ record { cause = of_script fault; command = done + 1 } }
{
    Stop {
        cause: fault.into(),
        command: done + 1,
    }
}

/// Adds the edit of a command, if it has one that is accepted.
fn push_asked(alloc: Global, log: &mut Log, command: &Command<'_>) -> Result<(), AllocError>
    requires { IsCommand command.now }
    ensures topo { log.new.topo ≡ log.old.topo }
    ensures edits { OnOk result (log.new.edits ≡ edits_with log.old.topo log.old.edits (asked command.now)) }
{
    let edit = match asked_by(alloc, command)? {
        Asked::Change(change) => Edit::Change(change),
        Asked::Attach(number, watch) => Edit::Attach(number, watch),
        Asked::NoFragment(_) | Asked::Report => return Ok(()),
    };
    match log.push(edit) {
        Err(EditFault::Memory) => Err(AllocError),
        Ok(_) | Err(_) => Ok(()),
    }
}

/// Applies the edits of a script, checks what the first so many of them that were accepted leave from the beginning, and writes
/// the rows; answers how many there are. Stop where the script stops, at any command, for 41 or 42; NoSuchEdit where fewer edits
/// are accepted; Memory where memory is refused. WriteFault where a write fails.
pub fn audit_script<O: ByteOut>(
    alloc: Global,
    topo: &Topo,
    script: &[u8],
    edit: u64,
    out: &mut O,
) -> Result<u64, AuditFault>
    requires { O.failure_count out.old < 2 ^ 63 }
    ensures written { IfOk result (λ count. HasAudit topo.now script.now edit count (Appends (O.contents out.old) (O.contents out.new))) }
    ensures quiet { OnOk result (O.failure_count out.new ≡ O.failure_count out.old) }

    // What stops it writes nothing, and a write that fails leaves a front of the text.
    ensures stopped { (stop : AnyStop) → IsErrOf result (AuditFault.Stop stop) → IsStopAt script.now stop × (out.new ≡ out.old) }
    ensures beyond { (n : ℕ) → IsErrOf result (AuditFault.NoSuchEdit n) → (n ≡ edit) × IsBeyond topo.now script.now edit × (out.new ≡ out.old) }
    ensures memory { IsErrOf result AuditFault.Memory → out.new ≡ out.old }
    ensures failed { IsErrOf result AuditFault.WriteFault → (O.failure_count out.new ≡ O.failure_count out.old + 1)
        × HasAuditText topo.now script.now edit (AppendsFront (O.contents out.old) (O.contents out.new)) }
{
    audit_script_as(alloc, topo, script, edit, &Plain, out)
}

/// The same in a form: with notes, if the form has any.
pub fn audit_script_as<F: Form, O: ByteOut>(
    alloc: Global,
    topo: &Topo,
    script: &[u8],
    edit: u64,
    form: &F,
    out: &mut O,
) -> Result<u64, AuditFault>
    requires { O.failure_count out.old < 2 ^ 63 }
    ensures written { IfOk result (λ count. HasAudit topo.now script.now edit count (IsPut F.noted (O.contents out.old) (O.contents out.new))) }
    ensures quiet { OnOk result (O.failure_count out.new ≡ O.failure_count out.old) }
    ensures stopped { (stop : AnyStop) → IsErrOf result (AuditFault.Stop stop) → IsStopAt script.now stop × (out.new ≡ out.old) }
    ensures beyond { (n : ℕ) → IsErrOf result (AuditFault.NoSuchEdit n) → (n ≡ edit) × IsBeyond topo.now script.now edit × (out.new ≡ out.old) }
    ensures memory { IsErrOf result AuditFault.Memory → out.new ≡ out.old }
    ensures failed { IsErrOf result AuditFault.WriteFault → (O.failure_count out.new ≡ O.failure_count out.old + 1)
        × HasAuditText topo.now script.now edit (IsPutFront F.noted (O.contents out.old) (O.contents out.new)) }
{
    let log = log_of(alloc, topo, script)?;
    let inputs = log.inputs_at(alloc, edit)?;
    let rows = scratch(alloc, &inputs)?;
    let text = form.audit(alloc, &inputs, edit, &rows)?;
    write_all(out, text.as_bytes())?;
    Ok(rows.len() as u64)
}

/// The same by several threads.
pub fn audit_script_beside<R: Threads + Sync + AllocGlobal, F: Form, O: ByteOut>(
    judges: &Judges<'_, R>,
    topo: &Topo,
    script: &[u8],
    edit: u64,
    form: &F,
    out: &mut O,
) -> Result<u64, AuditFault>
    requires { O.failure_count out.old < 2 ^ 63 }
    ensures written { IfOk result (λ count. HasAudit topo.now script.now edit count (IsPut F.noted (O.contents out.old) (O.contents out.new))) }
    ensures quiet { OnOk result (O.failure_count out.new ≡ O.failure_count out.old) }
    ensures stopped { (stop : AnyStop) → IsErrOf result (AuditFault.Stop stop) → IsStopAt script.now stop × (out.new ≡ out.old) }
    ensures beyond { (n : ℕ) → IsErrOf result (AuditFault.NoSuchEdit n) → (n ≡ edit) × IsBeyond topo.now script.now edit × (out.new ≡ out.old) }
    ensures memory { IsErrOf result AuditFault.Memory → out.new ≡ out.old }
    ensures failed { IsErrOf result AuditFault.WriteFault → (O.failure_count out.new ≡ O.failure_count out.old + 1)
        × HasAuditText topo.now script.now edit (IsPutFront F.noted (O.contents out.old) (O.contents out.new)) }
{
    let alloc = judges.alloc();
    let log = log_of(alloc, topo, script)?;
    let left = log.inputs_at(alloc, edit)?;
    let found = judges.scratch(&left)?;
    let told = form.audit(alloc, &left, edit, &found)?;
    write_all(out, told.as_bytes())?;
    Ok(found.len() as u64)
}
