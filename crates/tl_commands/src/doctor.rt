//! What looks wrong in the files of a capture.

ghost use Rattle.std.specs.Prelude.{◌<◌, ◌^◌};

use crate::reports::{Ending, report_of};
use std::alloc::Global;
use std::rt::Files;
use std::sync::Arc;
use std::thread::Threads;
use tl_advice::diagnose;
use tl_beats::Fragment;
use tl_check::all_added;
use tl_edits::Inputs;
use tl_files::{Fault, Gauge, all_fragments_of, topology_of};
use tl_text::{ByteOut, write_all};
use tl_topology::Topo;

/// Writes what looks wrong in what stands, and answers how many lines that are.
fn write_diagnosis<O: ByteOut>(alloc: Global, inputs: &Inputs, out: &mut O) -> Result<u64, Fault>
    requires { O.failure_count out.old < 2 ^ 63 }
{
    let found = diagnose(alloc, inputs.topo(), inputs.present())?;
    write_all(out, found.text.as_bytes())?;
    Ok(found.count)
}

/// Writes what looks wrong in fragments.
fn doctor_of<O: ByteOut>(
    alloc: Global,
    topo: &Topo,
    fragments: &[Arc<Fragment>],
    out: &mut O,
) -> Result<Ending, Fault>
    requires { O.failure_count out.old < 2 ^ 63 }
{
    let log = all_added(alloc, topo, fragments)?;
    let count = write_diagnosis(alloc, log.inputs(), out)?;
    Ok(Ending::Came(report_of(count)))
}

/// Writes what looks wrong in the fragments of files on a topology.
fn doctor_on<R: Files + Threads + Sync + AllocGlobal + Clone + Drop, G: Gauge, O: ByteOut>(
    rt: &R,
    topo: &Topo,
    words: &[&str],
    gauge: &mut G,
    out: &mut O,
) -> Result<Ending, Fault>
    requires { O.failure_count out.old < 2 ^ 63 }
{
    let fragments = all_fragments_of(rt, topo, words, gauge)?;
    doctor_of(rt.alloc(), topo, &fragments, out)
}

/// Writes what looks wrong in a file's topology, or in how the fragments of files were made, a line for each thing, which the ending
/// counts as rows. Words stand for files as for `once_of_files`, and the faults and what the gauge is told are the same.
pub fn doctor_of_files<
    R: Files + Threads + Sync + AllocGlobal + Clone + Drop,
    G: Gauge,
    O: ByteOut,
>(rt: &R, topology: &str, words: &[&str], gauge: &mut G, out: &mut O) -> Result<Ending, Fault>
    requires { O.failure_count out.old < 2 ^ 63 }
{
    let topo = topology_of(rt, topology)?;
    doctor_on(rt, &topo, words, gauge, out)
}
