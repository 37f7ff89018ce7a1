//! A stream whose rows are written as they are found.

ghost use Rattle.std.specs.Prelude.{◌≡◌, ◌<◌, ◌^◌, IfOk, OnOk, length};
ghost use Rattle.std.specs.List.{All};

use crate::fault::StreamFault;
use crate::feed::Sieve;
use crate::lookout::{Lookout, placed};
use crate::share::Share;
use crate::stream::Stream;
use std::alloc::{AllocError, AllocFailed, Global};
use std::sync::Arc;
use thiserror::Error;
use tl_beats::{Fragment, FragmentFault, Row, Watch};
use tl_capture::Present;
use tl_check::{Completed, RowForm};
use tl_text::{ByteOut, WriteFault, write_all};
use tl_topology::Topo;

/// So many beats that wait for a link without a fragment that this is told.
const MANY_BEATS: u64 = 1_000_000;

/// So many writes that failed that none is tried any more.
const MANY_FAILURES: u64 = (1 << 63) - 1;

/// What a stream came to.
#[derive(Clone, Copy, Debug, PartialEq, Eq)]
pub struct StreamCount {
    /// How many fragments were accepted.
    pub fragments: u64,
    /// How many beats they had.
    pub beats: u64,
    /// How many rows were written.
    pub rows: u64,
}

impl StreamCount {
    /// The last line of a stream.
    pub(crate) fn text(&self, alloc: Global) -> Result<String, AllocError> {
        let fragments = self.fragments;
        let beats = self.beats;
        let rows = self.rows;
        format!(in alloc; "stream fragments {fragments} beats {beats} rows {rows}\n")
    }

    /// Counts a fragment with its beats.
    fn count_fragment(&mut self, fragment: &Fragment) {
        let beats = fragment.beats().len() as u64;
        self.fragments = self.fragments.saturating_add(1);
        self.beats = self.beats.saturating_add(beats);
    }

    /// Counts rows.
    fn count_rows(&mut self, rows: &[Row]) {
        self.rows = self.rows.saturating_add(rows.len() as u64);
    }
}

/// Why a stream can't go on.
#[derive(Clone, Copy, Debug, PartialEq, Eq, Error)]
pub enum TellFault {
    /// A growth was refused.
    #[error("out of memory")]
    Memory,
    /// A write failed.
    #[error("a write failed")]
    WriteFault,
}

impl From<AllocError> for TellFault {
    fn from(_error: AllocError) -> TellFault {
        TellFault::Memory
    }
}

impl<T: Drop> From<AllocFailed<T>> for TellFault {
    fn from(_error: AllocFailed<T>) -> TellFault {
        TellFault::Memory
    }
}

impl From<WriteFault> for TellFault {
    fn from(_error: WriteFault) -> TellFault {
        TellFault::WriteFault
    }
}

/// A stream, with the watches of monitors over it, and what was written of it so far.
#[derive(Drop)]
pub struct Teller<'f, F: RowForm> {
    stream: Stream,
    form: &'f mut F,
    count: StreamCount,
    lookouts: Vec<Lookout>,
    // The fragments whose rows may still come, where the form tells of their beats.
    kept: Present,
    // How many beats came of each manager while one of its links had no fragment.
    waits: Vec<u64>,
    share: Share,
}

/// The line of a refusal.
fn refused_text(alloc: Global, fault: StreamFault) -> Result<String, AllocError> {
    let code = fault.code();
    match fault.number() {
        Some(number) => format!(in alloc; "refused {code} {number}\n"),
        None => format!(in alloc; "refused {code}\n"),
    }
}

/// Writes rows in a form.
fn write_rows<F: RowForm, O: ByteOut>(
    alloc: Global,
    form: &mut F,
    topo: &Topo,
    kept: &Present,
    rows: &[Row],
    out: &mut O,
) -> Result<(), TellFault>
    requires rows { All (λ row. row.link < length topo.now.links) rows.now }
    requires out { O.failure_count out.old < 2 ^ 63 }
    ensures { OnOk result (O.failure_count out.new ≡ O.failure_count out.old) }
{
    if !rows.is_empty() {
        let text = form.rows(alloc, topo, kept, rows)?;
        write_all(out, text.as_bytes())?;
    }
    Ok(())
}

/// Keeps a fragment, if none that is kept has its number or a cycle of its range.
fn keep(kept: &mut Present, link: u16, fragment: &Arc<Fragment>) -> Result<(), AllocError> {
    if kept.get(link, fragment.number()).is_none() && kept.overlapped(link, fragment).is_none() {
        kept.put(link, Arc::try_clone(fragment)?)?;
    }
    Ok(())
}

/// No longer keeps the fragments of a manager that end by a cycle.
fn forget(kept: &mut Present, topo: &Topo, manager: u16, cycle: u64) {
    for link in 0..topo.link_count() {
        let link = link as u16;
        if topo.link(link).is_some_and(|decl| decl.manager == manager) {
            kept.drop_ended(link, cycle);
        }
    }
}

/// The rows that a watch flags of a fragment of its link.
fn flagged_by(
    alloc: Global,
    link: u16,
    fragment: &Arc<Fragment>,
    lookout: &mut Lookout,
) -> Result<Vec<Row>, AllocError> {
    let beats = placed(alloc, link, fragment)?;
    lookout.judge(alloc, &beats)
}

/// The rows that the watches of a link flag of a fragment, one watch after the other.
fn flagged(
    alloc: Global,
    topo: &Topo,
    link: u16,
    fragment: &Arc<Fragment>,
    lookouts: &mut [Lookout],
) -> Result<Vec<Row>, AllocError> {
    let mut rows = Vec::new(alloc);
    for index in 0..lookouts.len() {
        let lookout = &mut lookouts[index];
        if topo.link_of(&lookout.watch.link()) == Some(link) {
            let found = flagged_by(alloc, link, fragment, lookout)?;
            rows.extend_from_slice(&found)?;
        }
    }
    Ok(rows)
}

/// Writes rows that watches flag, each by itself.
fn write_flagged<F: RowForm, O: ByteOut>(
    alloc: Global,
    form: &mut F,
    topo: &Topo,
    kept: &Present,
    rows: &[Row],
    out: &mut O,
) -> Result<(), TellFault>
    requires { O.failure_count out.old < 2 ^ 63 }
    ensures { OnOk result (O.failure_count out.new ≡ O.failure_count out.old) }
{
    for row in rows {
        if usize::from(row.link) < topo.link_count() {
            write_rows(alloc, form, topo, kept, &[*row], out)?;
        }
    }
    Ok(())
}

/// Has a form take note of all beats that are kept, manager by manager, of which these are the rows.
fn pass_all<F: RowForm>(
    alloc: Global,
    form: &mut F,
    topo: &Topo,
    kept: &Present,
    rows: &[Row],
) -> Result<(), AllocError> {
    for manager in 0..topo.manager_count() {
        let completed = Completed {
            topo,
            kept,
            manager: manager as u16,
            to: u64::MAX,
        };
        form.pass(alloc, &completed, rows)?;
    }
    Ok(())
}

/// Writes a line of what is none of a stream's rows; that it can't be written changes nothing.
pub fn tell_line<E: ByteOut>(line: &str, err: &mut E)
    requires { E.failure_count err.old < 2 ^ 63 }
    ensures { E.failure_count err.new < 2 ^ 63 }
{
    if err.failures() < MANY_FAILURES {
        let _ = write_all(err, line.as_bytes());
    }
}

/// Tells that many beats wait for a link; that this can't be written changes nothing.
fn tell_wait<E: ByteOut>(alloc: Global, topo: &Topo, silent: u16, err: &mut E)
    requires { E.failure_count err.old < 2 ^ 63 }
    ensures { E.failure_count err.new < 2 ^ 63 }
{
    let Some(decl) = topo.link(silent) else {
        return;
    };
    let name = decl.name;
    if let Ok(line) = format!(in alloc;
        "tlcheck: {MANY_BEATS} beats wait for link {name}, which has no fragment yet\n"
    ) {
        tell_line(line.as_str(), err);
    }
}

impl<'f, F: RowForm> Teller<'f, F> {
    /// A stream of which nothing was written, in this form. AllocError where memory is refused.
    pub fn new(
        alloc: Global,
        stream: Stream,
        form: &'f mut F,
    ) -> Result<Teller<'f, F>, AllocError> {
        let mut waits = Vec::new(alloc);
        for _ in 0..stream.topo().manager_count() {
            waits.push(0)?;
        }
        Ok(Teller {
            stream,
            form,
            count: StreamCount {
                fragments: 0,
                beats: 0,
                rows: 0,
            },
            lookouts: Vec::new(alloc),
            kept: Present::new(alloc),
            waits,
            share: Share::all(),
        })
    }

    /// Checks the links of these managers alone from now on.
    pub fn check_only(&mut self, share: Share) {
        self.share = share;
    }

    /// Which fragments it checks.
    pub(crate) fn sieve(&self) -> Sieve<'_> {
        Sieve {
            topo: self.stream.topo(),
            share: &self.share,
        }
    }

    /// Watches the beats that come from now on too, for the monitor of this number. AllocError where memory is refused.
    pub fn watch(&mut self, number: u32, watch: Watch) -> Result<(), AllocError> {
        self.lookouts.push(Lookout::new(number, watch))?;
        Ok(())
    }

    /// What it came to so far.
    pub fn count(&self) -> StreamCount {
        self.count
    }

    /// Notes after the line of a stop, at which the text of an input begins with no fragment.
    pub(crate) fn stop_notes(&self, alloc: Global, fault: FragmentFault, text: &[u8]) -> String {
        self.form.stop_notes(alloc, fault, text)
    }

    /// The next fragment of its link: writes the rows of the beats that are complete with it and those that the watches of its link
    /// flag of it, or the line of its refusal. Where many beats wait for a link without a fragment, this is told on `err` once.
    pub fn take<O: ByteOut, E: ByteOut>(
        &mut self,
        alloc: Global,
        fragment: Fragment,
        out: &mut O,
        err: &mut E,
    ) -> Result<(), TellFault>
        requires out { O.failure_count out.old < 2 ^ 63 }
        requires err { E.failure_count err.old < 2 ^ 63 }
        ensures quiet { OnOk result (O.failure_count out.new ≡ O.failure_count out.old) }
        ensures err { E.failure_count err.new < 2 ^ 63 }
    {
        let shared = Arc::new(alloc, fragment)?;
        match self.stream.accept(alloc, Arc::try_clone(&shared)?) {
            Ok(rows) => {
                let link = self.stream.topo().link_of(&shared.link()).unwrap_or(0);
                self.tell(alloc, link, &shared, &rows, out)?;
                self.wait(alloc, link, &shared, err);
                Ok(())
            }
            Err(StreamFault::Memory) => Err(TellFault::Memory),
            Err(fault) => {
                let text = refused_text(alloc, fault)?;
                write_all(out, text.as_bytes())?;
                Ok(())
            }
        }
    }

    /// Writes what is to be told of a fragment of this link that was accepted, with which these rows are complete.
    fn tell<O: ByteOut>(
        &mut self,
        alloc: Global,
        link: u16,
        fragment: &Arc<Fragment>,
        rows: &[Row],
        out: &mut O,
    ) -> Result<(), TellFault>
        requires rows { All (λ row. row.link < length self.old.stream.topo.links) rows.now }
        requires out { O.failure_count out.old < 2 ^ 63 }
        ensures { OnOk result (O.failure_count out.new ≡ O.failure_count out.old) }
    {
        let topo = self.stream.topo();
        let found = flagged(alloc, topo, link, fragment, &mut self.lookouts)?;
        if self.form.has_beats() {
            keep(&mut self.kept, link, fragment)?;
        }
        let complete = self.stream.complete(link);
        if let (Some(to), Some(decl)) = (complete, topo.link(link)) {
            let completed = Completed {
                topo,
                kept: &self.kept,
                manager: decl.manager,
                to,
            };
            self.form.pass(alloc, &completed, rows)?;
        }
        write_rows(alloc, self.form, topo, &self.kept, rows, out)?;
        write_flagged(alloc, self.form, topo, &self.kept, &found, out)?;
        self.count.count_fragment(fragment);
        self.count.count_rows(rows);
        self.count.count_rows(&found);
        if let (Some(cycle), Some(decl)) = (complete, topo.link(link)) {
            forget(&mut self.kept, topo, decl.manager, cycle);
        }
        Ok(())
    }

    /// Counts the beats of a fragment of this link among those that wait for a link without one.
    fn wait<E: ByteOut>(&mut self, alloc: Global, link: u16, fragment: &Arc<Fragment>, err: &mut E)
        requires { E.failure_count err.old < 2 ^ 63 }
        ensures { E.failure_count err.new < 2 ^ 63 }
    {
        let topo = self.stream.topo();
        let (Some(silent), Some(decl)) = (self.stream.silent(link), topo.link(link)) else {
            return;
        };
        let Some(wait) = self.waits.get_mut(usize::from(decl.manager)) else {
            return;
        };
        let before = *wait;
        *wait = before.saturating_add(fragment.beats().len() as u64);
        if before < MANY_BEATS && *wait >= MANY_BEATS {
            tell_wait(alloc, topo, silent, err);
        }
    }

    /// Writes the rows of all beats that no fragment completed, and answers what the stream came to.
    pub fn end<O: ByteOut>(self, alloc: Global, out: &mut O) -> Result<StreamCount, TellFault>
        requires { O.failure_count out.old < 2 ^ 63 }
        ensures { OnOk result (O.failure_count out.new ≡ O.failure_count out.old) }
    {
        let Teller {
            stream,
            form,
            mut count,
            kept,
            ..
        } = self;
        let topo = Arc::try_clone(stream.shared_topo())?;
        let rows = stream.end(alloc)?.rows;
        pass_all(alloc, form, &topo, &kept, &rows)?;
        write_rows(alloc, form, &topo, &kept, &rows, out)?;
        count.count_rows(&rows);
        Ok(count)
    }
}
