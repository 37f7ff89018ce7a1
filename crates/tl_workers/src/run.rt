//! The run of a script beside workers.

ghost use Rattle.std.specs.Prelude.{◌≡◌, ◌+◌, ◌<◌, ◌≤◌, ◌^◌, List, ℕ, IfOk, OnOk, OnErr, [], false, true, is_some};
ghost use Rattle.tl_script.specs.Scripts.{commands_of};
ghost use Rattle.tl_run.specs.Boxes.{watches_in};
ghost use Rattle.tl_run.specs.Output.{start, whole};
ghost use Rattle.tl_run.specs.Stops.{IsWritten, IsWrittenAs, IsCut, IsCutAs};
ghost use Rattle.tl_workers.specs.Crew.{IsCarriedOut, IsScriptRun};

use crate::crew::Crew;
use crate::seat::{Seats, seats_beside, serve_all};
use crate::shift::Shift;
use crate::texts::FragmentTexts;
use std::alloc::{AllocError, Global};
use std::marker::Model;
use std::sync::Wait;
use std::thread::{Threads, join};
use tl_check::Report;
use tl_edits::Log;
use tl_hall::{Gate, Hall, Helper, Pass};
use tl_midway::Midway;
use tl_monitor::Monitor;
use tl_run::{Boxes, Runner, Session, Showing, carry_out, run_nothing};
use tl_script::Outcome;
use tl_text::{ByteOut, WriteFault};
use tl_topology::Topo;

/// A hall of its own for a run, and its first pass.
fn hall_of<M: Monitor>(alloc: Global, topo: &Topo) -> Result<(Hall<M>, Pass<M>), AllocError>
    ensures { IfOk result (λ r. (r.1.hall ≡ r.0.hall) × (r.1.topo ≡ topo.now) × (r.1.seen ≡ []) × (r.1.sole ≡ true)) }
{
    let topo = topo.copy(alloc)?;
    Hall::new(alloc, topo)
}

/// A log without edits on a topology.
fn log_on(alloc: Global, topo: &Topo) -> Result<Log, AllocError> {
    Log::new(alloc, topo.copy(alloc)?)
}

/// A copy of a report, if there is one.
fn copied(report: Option<&Report>) -> Option<Report> {
    match report?.copy() {
        Ok(copy) => Some(copy),
        Err(_) => None,
    }
}

/// Ends a hall: each monitor that is still attached is closed with the number of the last edit, and all are dropped. Answers its
/// last report.
fn close<R: Wait, M: Monitor>(rt: &R, hall: Hall<M>, helper: Helper<M>) -> Option<Report>
    requires { helper.hall ≡ hall.hall }
{
    let desk = hall.close(rt, helper);
    let last = copied(desk.latest());
    match desk.finish() {
        Ok(ended) => drop(ended),
        Err(left) => drop(left),
    }
    last
}

/// A script that is to be carried out, and where its lines go.
#[derive(Drop)]
struct Errand<'s, 'o, S: Runner + Drop, O: ByteOut> {
    runner: S,
    script: &'s [u8],
    out: &'o mut O,
}

/// What the script's thread does beside its workers. `join` says nothing of a `&mut` that a closure holds, so its closure holds a
/// value of a type parameter, which gives the `&mut` back.
trait Task {
    type Output;

    ghost can_run: { Self → Type 0 };

    ghost run_gives: { Self → Self.Output → Type 0 };

    /// Does it.
    fn run(self, alloc: Global) -> Self::Output
        requires { can_run self }
        ensures { run_gives self result };
}

impl<'s, 'o, S: Runner + Drop, O: ByteOut> Task for Errand<'s, 'o, S, O> {
    ghost use Rattle.std.specs.Prelude.{◌≡◌, ◌<◌, ◌^◌};
    ghost use Rattle.tl_run.specs.Output.{start};
    ghost use Rattle.tl_workers.specs.Crew.{IsCarriedOut};

    type Output = (&'o mut O, Result<Outcome, WriteFault>);

    ghost can_run = { λ t. (O.failure_count t.out.now < 2 ^ 63) × ((S.so_far t.runner).now ≡ start) };

    ghost run_gives = { λ t r. (r.0.ghost_name ≡ t.out.ghost_name)
        × IsCarriedOut S.noted (S.so_far t.runner) t.script.now (O.contents t.out.now) (O.contents r.0.now) (O.failure_count t.out.now) (O.failure_count r.0.now) r.1 };

    fn run(self, alloc: Global) -> (&'o mut O, Result<Outcome, WriteFault>) {
        let Errand {
            mut runner,
            script,
            out,
        } = self;
        let told = carry_out(alloc, &mut runner, script, out);
        (out, told)
    }
}

/// Does a task while workers check windows, then sends them away, and waits for all of them.
fn run_beside<
    R: Threads + Wait + Sync,
    M: Monitor + Send,
    G: Gate + Sync,
    T: Task<Output = A> + Drop,
    A,
>(rt: &R, alloc: Global, seats: Seats<'_, '_, '_, '_, M, G>, task: T) -> A
    requires { T.can_run task }
    ensures { T.run_gives task result }
{
    let shift = seats.shift;
    let ((), told) = join(
        rt,
        move || serve_all(rt, alloc, seats),
        move || -> A
            requires { T.can_run task }
            ensures { T.run_gives task result }
        {
            let told = task.run(alloc);
            shift.end();
            told
        },
    );
    told
}

/// Does nothing, but this use of a returned reference is what ties it, for the borrow checker, to the parameter that lent it.
fn take_back<T>(x: &mut T)
    ensures { x.new ≡ x.old }
{}

/// Has a script carried out while workers check windows, then sends them away, and waits for all of them.
fn run_errand<
    R: Threads + Wait + Sync,
    M: Monitor + Send,
    G: Gate + Sync,
    S: Runner + Drop,
    O: ByteOut,
>(
    rt: &R,
    alloc: Global,
    seats: Seats<'_, '_, '_, '_, M, G>,
    runner: S,
    script: &[u8],
    out: &mut O,
) -> Result<Outcome, WriteFault>
    requires out { O.failure_count out.old < 2 ^ 63 }
    requires new { (S.so_far runner).now ≡ start }
    ensures { IsCarriedOut S.noted (S.so_far runner) script.now (O.contents out.old) (O.contents out.new) (O.failure_count out.old) (O.failure_count out.new) result }
{
    let errand = Errand {
        runner,
        script,
        out,
    };
    let (back, told) = run_beside(rt, alloc, seats, errand);
    take_back(back);
    told
}

/// A script, the topology that it runs on, and the monitors that its commands attach, in their order; with a law where its capture
/// begins in the middle of a run.
#[derive(Drop)]
pub struct Script<'a, M: Monitor> {
    topo: &'a Topo,
    midway: Option<Midway>,
    text: &'a [u8],
    boxes: Vec<M>,
}

impl<'a, M: Monitor> Model for Script<'a, M> {
    ghost use Rattle.tl_run.specs.Boxes.{watches_in};
    ghost use Rattle.tl_workers.specs.Crew.{ScriptData};

    ghost Value = { ScriptData };

    ghost view = { λ s. record { setting = record { topo = s.topo.now; midway = s.midway }; text = s.text.now; boxes = watches_in M.held s.boxes.items } };
}

impl<'a, M: Monitor> Script<'a, M> {
    /// The script of a text on a topology, with the monitors that its commands attach, in their order.
    pub fn new(topo: &'a Topo, text: &'a [u8], boxes: Vec<M>) -> Script<'a, M>
        ensures { result ≡ record { setting = whole topo.now; text = text.now; boxes = watches_in M.held boxes.items } }
    {
        Script {
            topo,
            midway: None,
            text,
            boxes,
        }
    }

    /// The same script, whose capture begins in the middle of a run where there is a law.
    pub fn beginning(self, midway: Option<Midway>) -> Script<'a, M>
        ensures { result ≡ record self.entry { setting = record { topo = self.entry.setting.topo; midway = midway } } }
    {
        Script { midway, ..self }
    }
}

/// How a script is run beside workers.
#[derive(Drop)]
struct Way<'x, G: Gate> {
    /// How many workers.
    workers: u8,
    /// The gate that it calls.
    gate: &'x G,
    /// An empty log of its topology, where its reports are shown.
    log: Option<Log>,
}

/// Runs a script on a hall of its own, in which workers help, and leaves its last report.
fn run_on_hall<'x, R: Threads + Wait + Sync, M: Monitor + Send, G: Gate + Sync, O: ByteOut>(
    rt: &'x R,
    alloc: Global,
    script: Script<'x, M>,
    way: Way<'x, G>,
    out: &mut O,
    last: &mut Option<Report>,
) -> Result<Outcome, WriteFault>
    requires workers { way.workers ≤ 16 }
    requires whole { script.setting.midway ≡ None }
    requires out { O.failure_count out.old < 2 ^ 63 }
    ensures { IsScriptRun (is_some way.entry.log) script.entry
        (O.contents out.old) (O.contents out.new) (O.failure_count out.old) (O.failure_count out.new) result }
{
    let Script {
        topo,
        text,
        boxes,
        ..
    } = script;
    let Ok((hall, pass)) = hall_of(alloc, topo) else {
        return run_nothing(alloc, out);
    };
    let own = Shift::new(FragmentTexts::new(alloc, text), way.gate);
    let lent = &hall;
    let shift = &own;
    let (pass, seats) = seats_beside(alloc, lent, pass, way.workers);
    let (pass, spare) = hall.help(pass);
    let seats = Seats { seats, shift };
    let runner = Crew {
        rt,
        topo,
        hall: lent,
        shift,
        pass: Some(pass),
        boxes: Boxes::new(boxes),
        last: None,
    };
    match way.log {
        Some(log) => {
            let told = run_errand(rt, alloc, seats, Showing::new(runner, log), text, out);
            *last = close(rt, hall, spare);
            told
        }
        None => {
            let told = run_errand(rt, alloc, seats, runner, text, out);
            *last = close(rt, hall, spare);
            told
        }
    }
}

/// Runs a script without workers, and leaves its last report.
fn run_alone<M: Monitor, O: ByteOut>(
    alloc: Global,
    script: Script<'_, M>,
    out: &mut O,
    last: &mut Option<Report>,
) -> Result<Outcome, WriteFault>
    requires { O.failure_count out.old < 2 ^ 63 }
    ensures { IsScriptRun false script.entry
        (O.contents out.old) (O.contents out.new) (O.failure_count out.old) (O.failure_count out.new) result }
{
    let Script {
        topo,
        midway,
        text,
        boxes,
    } = script;
    let Ok(mut session) = Session::new(alloc, topo, midway, boxes) else {
        return run_nothing(alloc, out);
    };
    let told = carry_out(alloc, &mut session, text, out);
    *last = copied(session.last());
    session.finish();
    told
}

/// Runs a script whose reports are shown, without workers, and leaves its last report.
fn show_alone<M: Monitor, O: ByteOut>(
    alloc: Global,
    script: Script<'_, M>,
    log: Log,
    out: &mut O,
    last: &mut Option<Report>,
) -> Result<Outcome, WriteFault>
    requires { O.failure_count out.old < 2 ^ 63 }
    ensures { IsScriptRun true script.entry
        (O.contents out.old) (O.contents out.new) (O.failure_count out.old) (O.failure_count out.new) result }
{
    let Script {
        topo,
        midway,
        text,
        boxes,
    } = script;
    let Ok(session) = Session::new(alloc, topo, midway, boxes) else {
        return run_nothing(alloc, out);
    };
    let mut showing = Showing::new(session, log);
    let told = carry_out(alloc, &mut showing, text, out);
    let session = showing.into_runner();
    *last = copied(session.last());
    session.finish();
    told
}

/// Runs a script in this way, and leaves its last report.
fn run_way<'x, R: Threads + Wait + Sync, M: Monitor + Send, G: Gate + Sync, O: ByteOut>(
    rt: &'x R,
    alloc: Global,
    script: Script<'x, M>,
    way: Way<'x, G>,
    out: &mut O,
    last: &mut Option<Report>,
) -> Result<Outcome, WriteFault>
    requires workers { way.workers ≤ 16 }
    requires out { O.failure_count out.old < 2 ^ 63 }
    ensures { IsScriptRun (is_some way.entry.log) script.entry
        (O.contents out.old) (O.contents out.new) (O.failure_count out.old) (O.failure_count out.new) result }
{
    if way.workers > 0 && script.midway.is_none() {
        return run_on_hall(rt, alloc, script, way, out, last);
    }
    match way.log {
        Some(log) => show_alone(alloc, script, log, out, last),
        None => run_alone(alloc, script, out, last),
    }
}

/// Does as `run_with`, and calls a gate: the script's thread and each worker tell it which tickets they took and handed in, and
/// workers go on while it says so.
pub fn run_gated<'x, R: Threads + Wait + Sync, M: Monitor + Send, G: Gate + Sync, O: ByteOut>(
    rt: &'x R,
    alloc: Global,
    script: Script<'x, M>,
    out: &mut O,
    workers: u8,
    gate: &'x G,
) -> Result<Outcome, WriteFault>
    requires workers { workers ≤ 16 }
    requires out { O.failure_count out.old < 2 ^ 63 }
    ensures written { IfOk result (λ outcome. IsWritten script.entry.setting script.entry.text script.entry.boxes outcome (O.contents out.old) (O.contents out.new)) }
    ensures quiet { OnOk result (O.failure_count out.new ≡ O.failure_count out.old) }
    ensures failed { OnErr result ((O.failure_count out.new ≡ O.failure_count out.old + 1)
        × IsCut script.entry.setting (commands_of script.entry.text) script.entry.boxes (O.contents out.old) (O.contents out.new)) }
{
    let log = None;
    let mut last = None;
    run_way(
        rt,
        alloc,
        script,
        Way { workers, gate, log },
        out,
        &mut last,
    )
}

/// A gate that lets everything through.
struct NoGate;

impl Gate for NoGate {
    fn taken(&self, _ticket: u64) {}

    fn handed_in(&self, _ticket: u64) {}

    fn go_on(&self) -> bool {
        true
    }
}

/// Runs a script as `run_script` does, and writes the same lines, while so many workers, 0 to 16, read fragments ahead of their
/// commands and check windows in threads of their own. With 0 workers it does what `run_script` does, and so it does where the
/// capture begins in the middle of a run: its reports are not made of windows. A worker whose thread can't be started is left out. It waits for other threads. Leaves the last report, if there is one.
pub fn run_with<R: Threads + Wait + Sync, M: Monitor + Send, O: ByteOut>(
    rt: &R,
    alloc: Global,
    script: Script<'_, M>,
    out: &mut O,
    workers: u8,
    last: &mut Option<Report>,
) -> Result<Outcome, WriteFault>
    requires workers { workers ≤ 16 }
    requires out { O.failure_count out.old < 2 ^ 63 }
    ensures written { IfOk result (λ outcome. IsWritten script.entry.setting script.entry.text script.entry.boxes outcome (O.contents out.old) (O.contents out.new)) }
    ensures quiet { OnOk result (O.failure_count out.new ≡ O.failure_count out.old) }
    ensures failed { OnErr result ((O.failure_count out.new ≡ O.failure_count out.old + 1)
        × IsCut script.entry.setting (commands_of script.entry.text) script.entry.boxes (O.contents out.old) (O.contents out.new)) }
{
    let way = Way {
        workers,
        gate: &NoGate,
        log: None,
    };
    run_way(rt, alloc, script, way, out, last)
}

/// Runs a script as `run_with` does, and shows its reports: it writes the same lines, and notes between them, which begin with two
/// spaces. Leaves the last report, if there is one. WriteFault where a write fails; a front of that was then written.
pub fn show_with<R: Threads + Wait + Sync, M: Monitor + Send, O: ByteOut>(
    rt: &R,
    alloc: Global,
    script: Script<'_, M>,
    out: &mut O,
    workers: u8,
    last: &mut Option<Report>,
) -> Result<Outcome, WriteFault>
    requires workers { workers ≤ 16 }
    requires out { O.failure_count out.old < 2 ^ 63 }
    ensures written { IfOk result (λ outcome. IsWrittenAs true script.entry.setting script.entry.text script.entry.boxes outcome (O.contents out.old) (O.contents out.new)) }
    ensures quiet { OnOk result (O.failure_count out.new ≡ O.failure_count out.old) }
    ensures failed { OnErr result ((O.failure_count out.new ≡ O.failure_count out.old + 1)
        × IsCutAs true script.entry.setting (commands_of script.entry.text) script.entry.boxes (O.contents out.old) (O.contents out.new)) }
{
    let Ok(log) = log_on(alloc, script.topo) else {
        return run_nothing(alloc, out);
    };
    let way = Way {
        workers,
        gate: &NoGate,
        log: Some(log),
    };
    run_way(rt, alloc, script, way, out, last)
}
