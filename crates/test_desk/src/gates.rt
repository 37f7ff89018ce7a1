//! A script that is run beside workers with a gate: two windows are checked at once.

use crate::hall_bench::topology;
use crate::retries::found;
use std::alloc::Global;
use std::sync::Wait;
use std::sync::atomic::{AtomicBool, Ordering};
use std::test::Fail;
use std::thread::Threads;
use tl_hall::Gate;
use tl_monitor::Budget;
use tl_text::CountedWriter;
use tl_topology::Topo;
use tl_workers::{Script, run_gated};

/// Adds a Get with its reply in the windows 0 and 1 each, and publishes.
const SCRIPT: &str = "add 69\n\
fragment dma0 1 0 4095\n\
10 A 4 0 3 0 1000 ff 0\n\
10 D 1 0 3 0 0 0 0\n\
end\n\
add 76\n\
fragment dma0 2 4096 8191\n\
5000 A 4 0 3 0 1000 ff 0\n\
5000 D 1 0 3 0 0 0 0\n\
end\n\
publish\n";

/// What it writes.
const LINES: &str = "edit 1\nedit 2\nreport 1 edit 2 rows 0\n";

/// How often a thread looks for a signal before it goes on without.
const MOST_LOOKS: u64 = 1_000_000_000;

/// Looks for a signal until it is there, or was looked for too often: whether it came.
fn has_come(signal: &AtomicBool) -> bool {
    for _ in 0..MOST_LOOKS {
        if signal.load(Ordering::SeqCst) {
            return true;
        }
    }
    false
}

/// The job of the first ticket waits until that of the second was handed in.
#[derive(Drop)]
struct SecondFirst {
    second: AtomicBool,
    late: AtomicBool,
}

impl Gate for SecondFirst {
    fn taken(&self, ticket: u64) {
        if ticket == 1 && !has_come(&self.second) {
            self.late.store(true, Ordering::SeqCst);
        }
    }

    fn handed_in(&self, ticket: u64) {
        if ticket == 2 {
            self.second.store(true, Ordering::SeqCst);
        }
    }

    fn go_on(&self) -> bool {
        true
    }
}

/// Runs the script with two workers: whether it came to its end without rows.
fn run_two<R: Threads + Wait + Sync>(
    rt: &R,
    alloc: Global,
    topo: &Topo,
    written: &mut Vec<u8>,
    gate: &SecondFirst,
) -> bool {
    let boxes: Vec<Budget> = Vec::new(alloc);
    let script = Script::new(topo, SCRIPT.as_bytes(), boxes);
    let mut out = CountedWriter::new(written);
    match run_gated(rt, alloc, script, &mut out, 2, gate) {
        Ok(outcome) => outcome.stop.is_none() && outcome.last_rows == 0,
        Err(_) => false,
    }
}

#[test]
fn a_run_checks_two_windows_at_once(rt: HostRuntime) -> Result<(), Fail> {
    let alloc = rt.alloc();
    let topo = found(topology(alloc), "a topology")?;
    let mut written = Vec::new(alloc);
    let gate = SecondFirst {
        second: AtomicBool::new(false),
        late: AtomicBool::new(false),
    };
    let is_whole = run_two(&rt, alloc, &topo, &mut written, &gate);
    drop(topo);
    assert!(rt; is_whole && written.as_slice() == LINES.as_bytes());
    assert!(rt; !gate.late.load(Ordering::SeqCst));
    Ok(())
}
