//! Faults of edits, scripts and runs in the words that a user of the libraries prints.

use std::alloc::Global;
use std::fmt::Display;
use tl_check::OnceFault;
use tl_edits::{EditFault, PastFault};
use tl_script::{AuditFault, ScriptFault, Stop, StopCause};

/// Whether each fault prints the text beside it.
pub(crate) fn are_printed<E: Display>(alloc: Global, faults: &[(E, &str)]) -> bool {
    for (fault, text) in faults {
        match format!(in alloc; "{fault}") {
            Ok(printed) if printed.as_str() == *text => {}
            _ => return false,
        }
    }
    true
}

const EDIT: [(EditFault, &str); 12] = [
    (EditFault::UnknownLink, "no such link"),
    (EditFault::UnknownManager, "no such manager"),
    (
        EditFault::FragmentExists,
        "the link has a fragment of this number",
    ),
    (
        EditFault::NoFragment,
        "the link has no fragment of this number",
    ),
    (
        EditFault::NoRegion,
        "the manager has no region of this number",
    ),
    (
        EditFault::MonitorExists,
        "a monitor of this number was attached before",
    ),
    (
        EditFault::NoMonitor,
        "no monitor of this number is attached",
    ),
    (EditFault::WrongKind, "the monitor has no limit"),
    (
        EditFault::RangeOverlap(7),
        "the range shares a cycle with fragment 7",
    ),
    (
        EditFault::RegionOverlap(255),
        "the region overlaps region 255",
    ),
    (EditFault::LogFull, "65536 edits were accepted"),
    (EditFault::Memory, "out of memory"),
];

const PAST: [(PastFault, &str); 2] = [
    (PastFault::NoSuchEdit(9), "there is no edit 9"),
    (PastFault::Memory, "out of memory"),
];

const SCRIPT: [(ScriptFault, &str); 2] = [
    (ScriptFault::BadCommand, "the line is no command"),
    (ScriptFault::Truncated, "the script ends inside a command"),
];

const ONCE: [(OnceFault, &str); 3] = [
    (
        OnceFault::Refused {
            code: 24,
            number: Some(7),
        },
        "refused with 24",
    ),
    (OnceFault::Memory, "out of memory"),
    (OnceFault::WriteFault, "a write failed"),
];

const BAD_COMMAND: Stop = Stop {
    cause: StopCause::BadCommand,
    command: 3,
};

const AUDIT: [(AuditFault, &str); 4] = [
    (AuditFault::Stop(BAD_COMMAND), "stopped"),
    (AuditFault::NoSuchEdit(9), "no edit 9"),
    (AuditFault::Memory, "out of memory"),
    (AuditFault::WriteFault, "a write failed"),
];

#[test]
fn faults_of_runs_are_printed(rt: HostRuntime) {
    assert!(rt; are_printed(rt.alloc(), &EDIT), "an edit");
    assert!(rt; are_printed(rt.alloc(), &PAST), "an edit that is sought");
    assert!(rt; are_printed(rt.alloc(), &SCRIPT), "a script");
    assert!(rt; are_printed(rt.alloc(), &ONCE), "a run of fragments");
    assert!(rt; are_printed(rt.alloc(), &AUDIT), "an audit");
}
