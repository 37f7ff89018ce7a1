//! The report of fragments.

ghost use Rattle.std.specs.Prelude.{◌≡◌, ◌<◌, ◌+◌, ◌^◌, ℕ, Option, None, IfOk, IfErr, OnOk, map};
ghost use Rattle.std.specs.Arc.{arc_value};
ghost use Rattle.std.specs.Result.{IsErrOf};
ghost use Rattle.std.specs.Io.KnownBytes.{Appends};
ghost use Rattle.tl_check.specs.Notes.{IsPut, IsPutFront, AppendsFront};
ghost use Rattle.tl_check.specs.Once.{adds, first_refusal, of_edit, HasReport, HasReportText, IsRefusal};
ghost use Rattle.tl_check.specs.declared.once.OnceFault.TheVariants.{Memory, WriteFault as Unwritten};

use crate::beside::Judges;
use crate::form::{Form, Plain};
use crate::report::Report;
use crate::standing::scratch;
use std::alloc::{AllocError, Global};
use std::sync::Arc;
use std::thread::Threads;
use thiserror::Error;
use tl_beats::{ByteOut, Fragment};
use tl_edits::{Change, Edit, EditFault, Log};
use tl_text::{WriteFault, write_all};
use tl_topology::Topo;

/// Why fragments have no report.
#[derive(Clone, Copy, Debug, Drop, Error, PartialEq, Eq)]
pub enum OnceFault {
    /// A fragment is refused.
    #[error("refused with {code}")]
    Refused {
        /// The number of the refusal: 21 for a link that the topology lacks, 22 for a number that its link has already, 24 for
        /// a range that shares a cycle with another of its link, 30 past the 65,536th fragment.
        code: u8,
        /// What the refusal names besides: with 24 the lowest number of such another fragment, else nothing.
        number: Option<u32>,
    },
    /// A growth was refused; nothing was written.
    #[error("out of memory")]
    Memory,
    /// A write failed; a front of the report was written.
    #[error("a write failed")]
    WriteFault,
}

impl From<AllocError> for OnceFault {
    ghost from_gives = { λ _ e. e ≡ Memory };

    fn from(_error: AllocError) -> OnceFault {
        OnceFault::Memory
    }
}

impl From<EditFault> for OnceFault {
    ghost from_gives = { λ found fault. fault ≡ of_edit found };

    fn from(found: EditFault) -> OnceFault {
        match found {
            EditFault::Memory => OnceFault::Memory,
            _ => OnceFault::Refused {
                code: found.code(),
                number: found.number(),
            },
        }
    }
}

impl From<WriteFault> for OnceFault {
    ghost from_gives = { λ _ e. e ≡ Unwritten };

    fn from(_error: WriteFault) -> OnceFault {
        OnceFault::WriteFault
    }
}

/// The log of these fragments, each of which is one edit. Refused where one can't be added, the first such, and Memory where
/// memory is refused.
pub fn all_added(alloc: Global, topo: &Topo, fragments: &[Arc<Fragment>]) -> Result<Log, OnceFault>
    ensures ok { IfOk result (λ log. log ≡ record { topo = topo.now; edits = adds (map arc_value fragments.now) }) }
    ensures accepted { OnOk result (first_refusal topo.now (map arc_value fragments.now) ≡ None) }
    ensures refused { (code : ℕ) (number : Option ℕ) → IsErrOf result (OnceFault.Refused code number)
        → IsRefusal topo.now (map arc_value fragments.now) code number }
    ensures written { IfErr result (λ fault. (fault ≡ Unwritten) → ⊥) }
{
    let mut log = Log::new(alloc, topo.copy(alloc)?)?;
    for fragment in fragments {
        let shared = Arc::try_clone(fragment)?;
        log.push(Edit::Change(Change::Add(shared)))?;
    }
    Ok(log)
}

/// Adds the fragments to the captures of a topology, one after the other, checks all of it from the beginning, and writes the
/// report, version 1 after as many edits as there are fragments; answers the number of its rows. They are the rows of all rules
/// of the definitions but those of monitors, F1 to F10, U1, S1 to S9, P1 to P8 and M1 to M3, without regions.
/// Refused where a fragment can't be added: the first such, with 21, 22, 24 or 30. Memory where memory is refused. WriteFault
/// where a write fails.
pub fn run_once<O: ByteOut>(
    alloc: Global,
    topo: &Topo,
    fragments: &[Arc<Fragment>],
    out: &mut O,
) -> Result<u64, OnceFault>
    requires { O.failure_count out.old < 2 ^ 63 }
    ensures written { IfOk result (λ count. HasReport topo.now fragments.now count (Appends (O.contents out.old) (O.contents out.new))) }
    ensures quiet { OnOk result (O.failure_count out.new ≡ O.failure_count out.old) }

    // A refusal and want of memory write nothing, and a write that fails leaves a front of the text.
    ensures refused { (code : ℕ) (number : Option ℕ) → IsErrOf result (OnceFault.Refused code number)
        → IsRefusal topo.now (map arc_value fragments.now) code number × (out.new ≡ out.old) }
    ensures memory { IsErrOf result OnceFault.Memory → out.new ≡ out.old }
    ensures failed { IsErrOf result OnceFault.WriteFault → (O.failure_count out.new ≡ O.failure_count out.old + 1)
        × HasReportText topo.now fragments.now (AppendsFront (O.contents out.old) (O.contents out.new)) }
{
    run_once_as(alloc, topo, fragments, &Plain, out)
}

/// The same in a form: with notes, if the form has any.
pub fn run_once_as<F: Form, O: ByteOut>(
    alloc: Global,
    topo: &Topo,
    fragments: &[Arc<Fragment>],
    form: &F,
    out: &mut O,
) -> Result<u64, OnceFault>
    requires { O.failure_count out.old < 2 ^ 63 }
    ensures written { IfOk result (λ count. HasReport topo.now fragments.now count (IsPut F.noted (O.contents out.old) (O.contents out.new))) }
    ensures quiet { OnOk result (O.failure_count out.new ≡ O.failure_count out.old) }
    ensures refused { (code : ℕ) (number : Option ℕ) → IsErrOf result (OnceFault.Refused code number)
        → IsRefusal topo.now (map arc_value fragments.now) code number × (out.new ≡ out.old) }
    ensures memory { IsErrOf result OnceFault.Memory → out.new ≡ out.old }
    ensures failed { IsErrOf result OnceFault.WriteFault → (O.failure_count out.new ≡ O.failure_count out.old + 1)
        × HasReportText topo.now fragments.now (IsPutFront F.noted (O.contents out.old) (O.contents out.new)) }
{
    let log = all_added(alloc, topo, fragments)?;
    let inputs = log.inputs();
    let rows = scratch(alloc, inputs)?;
    let report = Report::new(alloc, 1, fragments.len() as u64, rows)?;
    let text = form.report(alloc, inputs, &report)?;
    write_all(out, text.as_bytes())?;
    Ok(report.rows().len() as u64)
}

/// The same by several threads.
pub fn run_once_beside<R: Threads + Sync + AllocGlobal, F: Form, O: ByteOut>(
    judges: &Judges<'_, R>,
    topo: &Topo,
    fragments: &[Arc<Fragment>],
    form: &F,
    out: &mut O,
) -> Result<u64, OnceFault>
    requires { O.failure_count out.old < 2 ^ 63 }
    ensures written { IfOk result (λ count. HasReport topo.now fragments.now count (IsPut F.noted (O.contents out.old) (O.contents out.new))) }
    ensures quiet { OnOk result (O.failure_count out.new ≡ O.failure_count out.old) }
    ensures refused { (code : ℕ) (number : Option ℕ) → IsErrOf result (OnceFault.Refused code number)
        → IsRefusal topo.now (map arc_value fragments.now) code number × (out.new ≡ out.old) }
    ensures memory { IsErrOf result OnceFault.Memory → out.new ≡ out.old }
    ensures failed { IsErrOf result OnceFault.WriteFault → (O.failure_count out.new ≡ O.failure_count out.old + 1)
        × HasReportText topo.now fragments.now (IsPutFront F.noted (O.contents out.old) (O.contents out.new)) }
{
    let alloc = judges.alloc();
    let log = all_added(alloc, topo, fragments)?;
    let inputs = log.inputs();
    let found = judges.scratch(inputs)?;
    let report = Report::new(alloc, 1, fragments.len() as u64, found)?;
    let told = form.report(alloc, inputs, &report)?;
    write_all(out, told.as_bytes())?;
    Ok(report.rows().len() as u64)
}
