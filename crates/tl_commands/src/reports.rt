//! The reports of files: of fragments, and of what the first edits of a script leave.

ghost use Rattle.std.specs.Prelude.{◌<◌, ◌^◌, List, length, OnOk};
ghost use Rattle.std.specs.Io.KnownBytes.{Appends};
ghost use Rattle.tl_beats.specs.Fragments.{Frag};
ghost use Rattle.tl_check.specs.Once.{text_once};
ghost use Rattle.tl_pass.specs.Reports.{IsTaken};

use crate::denial::{Denial, denial_of_audit, denial_of_fragments};
use crate::midway::push_lead_ins;
use crate::picking::{Trouble, Written, order_of, write_audit, write_once};
use crate::share::share_of;
use std::alloc::{AllocError, Global};
use std::rt::Files;
use std::sync::Arc;
use std::thread::Threads;
use tl_beats::Fragment;
use tl_check::{Judges, Plain, Report, report_text, run_once_beside};
use tl_files::{Fault, Gauge, SoFar, fragments_of, script_of, topology_of};
use tl_midway::Midway;
use tl_options::{Capture, How, View};
use tl_pass::{Found, Taken};
use tl_rows::Format;
use tl_script::{Outcome, audit_script_beside};
use tl_show::Shown;
use tl_stream::Sieve;
use tl_text::{ByteOut, write_all};
use tl_topology::Topo;
use tl_turns::report_in_turn;

/// What one report with so many rows comes to.
pub fn report_of(rows: u64) -> Outcome {
    Outcome {
        last_rows: rows,
        stop: None,
    }
}

/// How a command ends that has no fault.
#[derive(Drop)]
pub enum Ending {
    /// As its run came out.
    Came(Outcome),
    /// It is denied.
    Denied(Denial),
    /// Chosen rows were written, and it is denied or not.
    Picked(Written, Option<Denial>),
    /// As its run came out, which is denied or not and has this summary.
    Summed(Outcome, Option<Denial>, String),
    /// What it is to write can't be had, in a sentence.
    Objected(String),
    /// The text of a stream is at fault, as its last line tells.
    Stopped,
}

impl Ending {
    /// The same, denied or not.
    fn denied_by(self, denial: Option<Denial>) -> Ending {
        match self {
            Ending::Came(outcome) => ending_of(outcome, denial),
            Ending::Picked(written, _) => Ending::Picked(written, denial),
            Ending::Summed(outcome, _, summary) => Ending::Summed(outcome, denial, summary),
            Ending::Denied(denial) => Ending::Denied(denial),
            Ending::Objected(text) => Ending::Objected(text),
            Ending::Stopped => Ending::Stopped,
        }
    }
}

/// How a command ends that can't do what the words want.
pub(crate) fn ending_without(trouble: Trouble) -> Result<Ending, Fault> {
    match trouble {
        Trouble::Fault(fault) => Err(fault),
        Trouble::Objection(text) => Ok(Ending::Objected(text)),
    }
}

/// How a run ends that came to this, and that is denied or not.
pub fn ending_of(outcome: Outcome, denial: Option<Denial>) -> Ending {
    match denial {
        Some(denial) => Ending::Denied(denial),
        None => Ending::Came(outcome),
    }
}

/// How a report is wanted.
#[derive(Clone, Copy)]
pub struct Manner<'a, 'v> {
    /// How it is made.
    pub how: How,
    /// Which rows are written, and in which format.
    pub view: &'a View<'v>,
}

impl Manner<'_, '_> {
    /// Whether all rows of a whole run are written, as text, and nothing is told of them.
    fn is_plain(self) -> bool {
        !self.how.summary && self.how.midway.is_none() && self.view.is_whole()
    }

    /// Whether nothing is wanted but the lines of the report, so that fragments need not be held. Workers read a capture from the middle of a
    /// run at once.
    fn is_bare(self) -> bool {
        let How { deny, midway, .. } = self.how;
        let is_text = self.view.is_whole() && self.view.format == Format::Text;
        let is_alone = midway.is_none() || self.how.workers == 0;
        is_text && is_alone && !self.how.summary && !deny.refused && !deny.empty
    }
}

/// How a command ends that wrote chosen rows.
fn ending_with(written: Result<Written, Fault>) -> Result<Ending, Fault> {
    Ok(Ending::Picked(written?, None))
}

/// The rows of the report of fragments that are wanted.
fn once_picked<R: Files + Threads + Sync + AllocGlobal, O: ByteOut>(
    rt: &R,
    topo: &Topo,
    fragments: &[Arc<Fragment>],
    manner: Manner<'_, '_>,
    out: &mut O,
) -> Result<Ending, Fault>
    requires { O.failure_count out.old < 2 ^ 63 }
{
    let judges = Judges::new(rt, manner.how.workers);
    match order_of(rt, topo, manner.how, manner.view) {
        Ok(order) => ending_with(write_once(&judges, topo, fragments, &order, out)),
        Err(trouble) => ending_without(trouble),
    }
}

/// The report of fragments.
fn once_of<R: Files + Threads + Sync + AllocGlobal, O: ByteOut>(
    rt: &R,
    topo: &Topo,
    fragments: &[Arc<Fragment>],
    manner: Manner<'_, '_>,
    out: &mut O,
) -> Result<Ending, Fault>
    requires { O.failure_count out.old < 2 ^ 63 }
{
    if !manner.is_plain() {
        return once_picked(rt, topo, fragments, manner, out);
    }
    let judges = Judges::new(rt, manner.how.workers);
    let rows = match manner.view.format {
        Format::Shown => run_once_beside(&judges, topo, fragments, &Shown, out)?,
        _ => run_once_beside(&judges, topo, fragments, &Plain, out)?,
    };
    Ok(Ending::Came(report_of(rows)))
}

/// The report of fragments, which is denied or not.
fn once_denied<R: Files + Threads + Sync + AllocGlobal, O: ByteOut>(
    rt: &R,
    topo: &Topo,
    fragments: &[Arc<Fragment>],
    manner: Manner<'_, '_>,
    out: &mut O,
) -> Result<Ending, Fault>
    requires { O.failure_count out.old < 2 ^ 63 }
{
    let ending = once_of(rt, topo, fragments, manner, out)?;
    Ok(ending.denied_by(denial_of_fragments(manner.how.deny, fragments)))
}

/// How a report ends that was written with so many rows, of a whole run or of a capture that begins so, with these notes.
fn ending_by(midway: Option<Midway>, rows: u64, notes: String) -> Ending {
    match midway {
        None => Ending::Came(report_of(rows)),
        Some(_) => Ending::Picked(
            Written {
                rows,
                notes,
                summary: None,
            },
            None,
        ),
    }
}

/// What is told of the rows of a capture that begins so, of which so many beats are in lead-ins; nothing of a whole run.
fn notes_by(alloc: Global, midway: Option<Midway>, lead_ins: u64) -> Result<String, AllocError> {
    let mut notes = String::new(alloc);
    if let Some(law) = midway {
        push_lead_ins(alloc, law, lead_ins, &mut notes)?;
    }
    Ok(notes)
}

/// Writes the report of fragments, of a whole run or of a capture that begins so, in which this is found.
fn write_report<O: ByteOut>(
    alloc: Global,
    topo: &Topo,
    midway: Option<Midway>,
    taken: Taken,
    out: &mut O,
) -> Result<Ending, Fault>
    requires rows { (fs : List Frag) × IsTaken midway topo.now fs taken }
    requires out { O.failure_count out.old < 2 ^ 63 }
    ensures { (fs : List Frag) → IsTaken midway topo.now fs taken
        → OnOk result (Appends (O.contents out.old) (O.contents out.new) (text_once topo.now (length fs) taken.found.rows.items)) }
{
    let Found { rows, lead_ins } = taken.found;
    let notes = notes_by(alloc, midway, lead_ins)?;
    let report = Report::new(alloc, 1, taken.fragments, rows)?;
    let text = report_text(alloc, topo, &report)?;
    write_all(out, text.as_bytes())?;
    Ok(ending_by(midway, report.rows().len() as u64, notes))
}

/// The report of the fragments of files on a topology, of those of a share; words stand for their files.
fn once_shared<R: Files + Threads + Sync + AllocGlobal + Clone + Drop, G: Gauge, O: ByteOut>(
    rt: &R,
    sieve: Sieve<'_>,
    words: &[&str],
    manner: Manner<'_, '_>,
    gauge: &mut G,
    out: &mut O,
) -> Result<Ending, Fault>
where
    R::File: Send,
    R::Dir: Send,
    requires { O.failure_count out.old < 2 ^ 63 }
{
    if manner.is_bare()
        && let Some(taken) = report_in_turn(rt, sieve, words, manner.how, gauge)?
    {
        return write_report(rt.alloc(), sieve.topo, manner.how.midway, taken, out);
    }
    let fragments = fragments_of(rt, words, sieve, manner.how.workers, gauge)?;
    once_denied(rt, sieve.topo, &fragments, manner, out)
}

/// The report of the fragments of a capture's files on a topology.
fn once_on<R: Files + Threads + Sync + AllocGlobal + Clone + Drop, G: Gauge, O: ByteOut>(
    rt: &R,
    topo: &Topo,
    capture: &Capture<'_>,
    manner: Manner<'_, '_>,
    gauge: &mut G,
    out: &mut O,
) -> Result<Ending, Fault>
where
    R::File: Send,
    R::Dir: Send,
    requires { O.failure_count out.old < 2 ^ 63 }
{
    match share_of(rt.alloc(), topo, &capture.managers) {
        Ok(share) => {
            let sieve = Sieve {
                topo,
                share: &share,
            };
            once_shared(rt, sieve, &capture.fragments, manner, gauge, out)
        }
        Err(trouble) => ending_without(trouble),
    }
}

/// Writes the report of the fragments of a capture's files on a file's topology. A word stands for its file, `-` for standard input, a
/// folder for its files, and `@LIST` for the files that the lines of LIST name. Where managers are named, the fragments of other known
/// links are passed over. With workers, so many threads parse and judge beside this one; without, where it can be, a file is forgotten
/// once it is judged. The gauge is told of each file that was read. The fault of the first file that has one, that of the first fragment
/// that is refused after those before it, want of memory, or a write that fails.
pub fn once_of_files<R: Files + Threads + Sync + AllocGlobal + Clone + Drop, G: Gauge, O: ByteOut>(
    rt: &R,
    topology: &str,
    capture: &Capture<'_>,
    manner: Manner<'_, '_>,
    gauge: &mut G,
    out: &mut O,
) -> Result<Ending, Fault>
where
    R::File: Send,
    R::Dir: Send,
    requires { O.failure_count out.old < 2 ^ 63 }
{
    let topo = topology_of(rt, topology)?;
    once_on(rt, &topo, capture, manner, gauge, out)
}

/// The edits that an audit looks at.
#[derive(Clone, Copy)]
pub struct Past<'a> {
    /// The path of the topology.
    pub topology: &'a str,
    /// The path of the script.
    pub script: &'a str,
    /// How many of its accepted edits.
    pub edit: u64,
}

/// An audit of a script on a topology.
#[derive(Clone, Copy)]
struct Audit<'a> {
    /// The topology.
    topo: &'a Topo,
    /// The script's text.
    script: &'a [u8],
    /// How many of its accepted edits.
    edit: u64,
}

/// The rows of an audit that are wanted.
fn audit_picked<R: Files + Threads + Sync + AllocGlobal, O: ByteOut>(
    rt: &R,
    audit: Audit<'_>,
    manner: Manner<'_, '_>,
    out: &mut O,
) -> Result<Ending, Fault>
    requires { O.failure_count out.old < 2 ^ 63 }
{
    let Audit { topo, script, edit } = audit;
    let judges = Judges::new(rt, manner.how.workers);
    match order_of(rt, topo, manner.how, manner.view) {
        Ok(order) => ending_with(write_audit(&judges, topo, script, edit, &order, out)),
        Err(trouble) => ending_without(trouble),
    }
}

/// What checking everything anew finds after so many accepted edits of a script.
fn audit_of<R: Files + Threads + Sync + AllocGlobal, O: ByteOut>(
    rt: &R,
    audit: Audit<'_>,
    manner: Manner<'_, '_>,
    out: &mut O,
) -> Result<Ending, Fault>
    requires { O.failure_count out.old < 2 ^ 63 }
{
    if !manner.is_plain() {
        return audit_picked(rt, audit, manner, out);
    }
    let Audit { topo, script, edit } = audit;
    let judges = Judges::new(rt, manner.how.workers);
    let rows = match manner.view.format {
        Format::Shown => audit_script_beside(&judges, topo, script, edit, &Shown, out)?,
        _ => audit_script_beside(&judges, topo, script, edit, &Plain, out)?,
    };
    Ok(Ending::Came(report_of(rows)))
}

/// What an audit finds, which is denied or not.
fn audit_denied<R: Files + Threads + Sync + AllocGlobal, O: ByteOut>(
    rt: &R,
    audit: Audit<'_>,
    manner: Manner<'_, '_>,
    out: &mut O,
) -> Result<Ending, Fault>
    requires { O.failure_count out.old < 2 ^ 63 }
{
    let ending = audit_of(rt, audit, manner, out)?;
    let deny = manner.how.deny;
    let denial = denial_of_audit(deny, rt.alloc(), audit.topo, audit.script, audit.edit)?;
    Ok(ending.denied_by(denial))
}

/// What checking everything anew finds after so many accepted edits of a file's script, on a topology.
fn audit_on<R: Files + Threads + Sync + AllocGlobal, G: Gauge, O: ByteOut>(
    rt: &R,
    topo: &Topo,
    past: Past<'_>,
    manner: Manner<'_, '_>,
    gauge: &mut G,
    out: &mut O,
) -> Result<Ending, Fault>
    requires { O.failure_count out.old < 2 ^ 63 }
{
    let script = script_of(rt, past.script)?;
    gauge.tell(SoFar::Script(script.len()));
    let audit = Audit {
        topo,
        script: &script,
        edit: past.edit,
    };
    audit_denied(rt, audit, manner, out)
}

/// Writes what checking everything anew finds after so many accepted edits of a file's script, on a file's topology. With workers, so
/// many threads judge beside this one. The gauge is told that the script was read. The fault of the topology or of the script, want of
/// memory, or a write that fails.
pub fn audit_of_files<R: Files + Threads + Sync + AllocGlobal, G: Gauge, O: ByteOut>(
    rt: &R,
    past: Past<'_>,
    manner: Manner<'_, '_>,
    gauge: &mut G,
    out: &mut O,
) -> Result<Ending, Fault>
    requires { O.failure_count out.old < 2 ^ 63 }
{
    let topo = topology_of(rt, past.topology)?;
    audit_on(rt, &topo, past, manner, gauge, out)
}
