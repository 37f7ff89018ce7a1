//! Writes of a report, an audit and a run that fail, that take nothing, and that take one byte at a time.

use crate::streams::{Full, writer_with};
use crate::text::{ONE_LINK, REPLY, SCRIPT};
use std::alloc::Global;
use std::sync::Arc;
use std::test::Fail;
use tl_beats::{Fragment, parse_whole_fragment};
use tl_check::{OnceFault, run_once};
use tl_script::{AuditFault, audit_script};
use tl_text::CountedWriter;
use tl_topology::{Topo, read_topo};

const REPORT: &[u8] = b"report 1 edit 1 rows 1\ndma0 2 2 S2\n";

const AUDIT: &[u8] = b"audit 1 rows 1\ndma0 2 2 S2\n";

/// The fragment of the reply.
fn reply(alloc: Global) -> Result<Arc<Fragment>, Fail> {
    let fragment = parse_whole_fragment(alloc, REPLY.as_bytes())?;
    Ok(Arc::new(alloc, fragment)?)
}

/// A list of it alone, as `run_once` wants it.
fn alone(alloc: Global, reply: Arc<Fragment>) -> Result<Vec<Arc<Fragment>>, Fail> {
    let mut fragments = Vec::new(alloc);
    fragments.push(reply)?;
    Ok(fragments)
}

/// What a run of the fragments answers, and whether just the first `room` bytes of its report were written.
fn once(
    alloc: Global,
    topo: &Topo,
    fragments: &[Arc<Fragment>],
    room: usize,
    full: Full,
) -> (Result<u64, OnceFault>, bool) {
    let mut slow = writer_with(alloc, room, full);
    let mut out = CountedWriter::new(&mut slow);
    let answer = run_once(alloc, topo, fragments, &mut out);
    (answer, Some(slow.bytes.as_slice()) == REPORT.get(..room))
}

/// The same of an audit of the script.
fn audit(alloc: Global, topo: &Topo, room: usize, full: Full) -> (Result<u64, AuditFault>, bool) {
    let mut slow = writer_with(alloc, room, full);
    let mut out = CountedWriter::new(&mut slow);
    let answer = audit_script(alloc, topo, SCRIPT.as_bytes(), 1, &mut out);
    (answer, Some(slow.bytes.as_slice()) == AUDIT.get(..room))
}

/// The first room, of those below that of a whole report, of which the fault of its writes is not told.
fn untold_of_once(alloc: Global, topo: &Topo, fragments: &[Arc<Fragment>]) -> Option<usize> {
    let wanted = (Err(OnceFault::WriteFault), true);
    for room in 0..REPORT.len() {
        for full in [Full::Fails, Full::TakesNothing] {
            if once(alloc, topo, fragments, room, full) != wanted {
                return Some(room);
            }
        }
    }
    None
}

/// The same of an audit.
fn untold_of_audit(alloc: Global, topo: &Topo) -> Option<usize> {
    let wanted = (Err(AuditFault::WriteFault), true);
    for room in 0..AUDIT.len() {
        for full in [Full::Fails, Full::TakesNothing] {
            if audit(alloc, topo, room, full) != wanted {
                return Some(room);
            }
        }
    }
    None
}

#[test]
fn each_write_of_a_report_that_fails_is_told(rt: HostRuntime) -> Result<(), Fail> {
    let fragments = alone(rt.alloc(), reply(rt.alloc())?)?;
    let (topo, _) = read_topo(rt.alloc(), ONE_LINK.as_bytes())?;
    let untold = untold_of_once(rt.alloc(), &topo, &fragments);
    let whole = once(rt.alloc(), &topo, &fragments, REPORT.len(), Full::Fails);
    assert!(rt; untold == None && whole == (Ok(1), true));
    Ok(())
}

#[test]
fn each_write_of_an_audit_that_fails_is_told(rt: HostRuntime) -> Result<(), Fail> {
    let (topo, _) = read_topo(rt.alloc(), ONE_LINK.as_bytes())?;
    let untold = untold_of_audit(rt.alloc(), &topo);
    let whole = audit(rt.alloc(), &topo, AUDIT.len(), Full::Fails);
    assert!(rt; untold == None && whole == (Ok(1), true));
    Ok(())
}
