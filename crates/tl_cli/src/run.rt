//! One run of the program.

ghost use Rattle.std.specs.Prelude.{◌≡◌, ◌<◌, ◌≤◌, ◌^◌};
ghost use Rattle.tl_cli.specs.Status.{status_of};

use crate::coming::{run_of_coming, script_to_come};
use crate::screen::Screen;
use crate::scripts::{run_of_files, run_of_input};
use std::alloc::Global;
use std::io;
use std::rt::{Clock, Files};
use std::sync::Wait;
use std::thread::Threads;
use tl_advice::{Look, More};
use tl_commands::{
    Denial, Ending, Fault, Gauge, Manner, Past, Progress, Suspect, Written, audit_of_files,
    doctor_of_files, input_sentence, input_sentences, merge_of_files, once_of_files, once_sentence,
    report_of, run_sentences, script_sentence, stream_of_files, stream_sentence, view_of_files,
};
use tl_options::{AuditWords, Command, OnceWords, RunWords, Told, not_utf8, read_words, titles};
use tl_script::Outcome;
use tl_text::{ByteIn, ByteOut, CountedReader, read_text, write_all};

/// The most bytes of standard input.
const MOST_INPUT: u64 = 67_108_864;

const NO_ROWS: u8 = 0;

const SOME_ROWS: u8 = 1;

const FAULT: u8 = 2;

/// So many writes that failed that none is tried any more.
const MANY_FAILURES: u64 = 1 << 63;

/// The exit status of a run that came to this.
fn status_of(outcome: Outcome) -> u8
    ensures exact { result ≡ status_of outcome }
    ensures few { result ≤ 2 }
{
    match outcome.stop {
        Some(_) => FAULT,
        None if outcome.last_rows == 0 => NO_ROWS,
        None => SOME_ROWS,
    }
}

/// Runs a script after its topology, and at a terminal tells what was refused.
fn do_input<R: Threads + Wait + Sync + AllocGlobal, O: ByteOut, E: ByteOut>(
    rt: &R,
    text: &[u8],
    out: &mut O,
    err: &mut E,
    screen: Screen,
) -> u8
    requires out { O.failure_count out.old < 2 ^ 63 }
    requires err { E.failure_count err.old < 2 ^ 63 }
    ensures { result ≤ 2 }
{
    let alloc = rt.alloc();
    match run_of_input(rt, text, out) {
        Ok(outcome) => {
            if screen.is_terminal()
                && let Ok(Some(sentences)) = input_sentences(alloc, text, screen.look())
            {
                let _ = write_all(err, sentences.as_bytes());
            }
            status_of(outcome)
        }
        Err(fault) if screen.is_terminal() => {
            let sentence = input_sentence(alloc, text, fault, screen.look());
            tell_both(alloc, err, fault, sentence)
        }
        Err(fault) => tell(alloc, err, fault),
    }
}

/// Tells of a fault in one line; that this can't be written changes nothing.
fn tell<E: ByteOut>(alloc: Global, err: &mut E, fault: Fault) -> u8
    requires { E.failure_count err.old < 2 ^ 63 }
    ensures { result ≡ 2 }
{
    let _ = fault.tell(alloc, err);
    FAULT
}

/// What is told after the line of a fault.
fn told_behind(
    alloc: Global,
    fault: Fault,
    sentence: Result<Option<String>, Fault>,
) -> Result<String, Fault> {
    match sentence? {
        Some(sentence) => Ok(sentence),
        None => Ok(More(fault.code).text(alloc)?),
    }
}

/// Tells of a fault in one line, and after it in a sentence, or where it has none by the last line of each; in one line alone where
/// the sentence finds no memory. That this can't be written changes nothing.
fn tell_both<E: ByteOut>(
    alloc: Global,
    err: &mut E,
    fault: Fault,
    sentence: Result<Option<String>, Fault>,
) -> u8
    requires { E.failure_count err.old < 2 ^ 63 }
    ensures { result ≡ 2 }
{
    if fault.tell(alloc, err).is_ok()
        && let Ok(behind) = told_behind(alloc, fault, sentence)
    {
        let _ = write_all(err, behind.as_bytes());
    }
    FAULT
}

/// What a script's run refused and where it stopped, in sentences, where these are told.
fn refusals_of<R: Files + AllocGlobal>(
    rt: &R,
    command: &Command<'_>,
    screen: Screen,
) -> Result<Option<String>, Fault> {
    match command {
        Command::Run(words) if screen.has_sentences(command) => {
            run_sentences(rt, words.topology, words.script, screen.look())
        }
        _ => Ok(None),
    }
}

/// Tells what a script's run refused and where it stopped; that this can't be written changes nothing.
fn tell_refusals<R: Files + AllocGlobal, E: ByteOut>(
    rt: &R,
    err: &mut E,
    command: &Command<'_>,
    screen: Screen,
)
    requires { E.failure_count err.old < 2 ^ 63 }
{
    if let Ok(Some(sentences)) = refusals_of(rt, command, screen) {
        let _ = write_all(err, sentences.as_bytes());
    }
}

/// Tells in one line why a run is denied, and what it refused after that; that this can't be written changes nothing.
fn tell_denial<R: Files + AllocGlobal, E: ByteOut>(
    rt: &R,
    err: &mut E,
    denial: Denial,
    command: &Command<'_>,
    screen: Screen,
) -> u8
    requires { E.failure_count err.old < 2 ^ 63 }
    ensures { result ≡ 2 }
{
    let Ok(line) = format!(in rt.alloc(); "{denial}\n") else {
        return FAULT;
    };
    if let Ok(()) = write_all(err, line.as_bytes()) {
        tell_refusals(rt, err, command, screen);
    }
    FAULT
}

/// Tells how a run ended that came to this: why it is denied, if it is, and what it refused; that this can't be written changes
/// nothing.
fn tell_came<R: Files + AllocGlobal, E: ByteOut>(
    rt: &R,
    err: &mut E,
    outcome: Outcome,
    denial: Option<Denial>,
    command: &Command<'_>,
    screen: Screen,
) -> u8
    requires { E.failure_count err.old < 2 ^ 63 }
    ensures { result ≤ 2 }
{
    match denial {
        Some(denial) => tell_denial(rt, err, denial, command, screen),
        None => {
            tell_refusals(rt, err, command, screen);
            status_of(outcome)
        }
    }
}

/// Tells a summary, if there is one; that this can't be written changes nothing.
fn tell_summary<E: ByteOut>(err: &mut E, summary: Option<&String>) {
    if let Some(summary) = summary
        && err.failures() < MANY_FAILURES
    {
        let _ = write_all(err, summary.as_bytes());
    }
}

/// Tells what became of waivers, and then why a run is denied, if it is; that this can't be written changes nothing.
fn tell_picked<R: Files + AllocGlobal, E: ByteOut>(
    rt: &R,
    err: &mut E,
    written: &Written,
    denial: Option<Denial>,
    command: &Command<'_>,
    screen: Screen,
) -> u8
    requires { E.failure_count err.old < 2 ^ 63 }
    ensures { result ≤ 2 }
{
    let told = write_all(err, written.notes.as_bytes());
    match (denial, told) {
        (Some(denial), Ok(())) => tell_denial(rt, err, denial, command, screen),
        (Some(_), Err(_)) => FAULT,
        (None, _) => status_of(report_of(written.rows)),
    }
}

/// The fault of a command's files in a sentence; None where it is of none of them.
fn file_sentence<R: Files + AllocGlobal + Clone + Drop>(
    rt: &R,
    fault: Fault,
    command: &Command<'_>,
    look: Look,
) -> Result<Option<String>, Fault> {
    match command {
        Command::Once(words) => once_sentence(
            rt,
            Suspect::new(words.topology, fault, look),
            &words.capture.fragments,
            &words.capture.managers,
        ),
        Command::Doctor {
            topology,
            fragments,
            ..
        }
        | Command::View {
            topology,
            fragments,
            ..
        } => once_sentence(rt, Suspect::new(*topology, fault, look), fragments, &[]),
        Command::Merge {
            topology,
            reports,
            ..
        } => once_sentence(rt, Suspect::new(*topology, fault, look), reports, &[]),
        Command::Run(words) => {
            script_sentence(rt, Suspect::new(words.topology, fault, look), words.script)
        }
        Command::Audit(words) => {
            script_sentence(rt, Suspect::new(words.topology, fault, look), words.script)
        }
        Command::Stream { topology, options } => {
            stream_sentence(rt, Suspect::new(*topology, fault, look), options)
        }
        Command::Input | Command::Explain { .. } => Ok(None),
    }
}

/// A fault in a sentence, if it is of a command's files. Want of memory is no file's fault, nor is a write that fails.
fn sentence_of<R: Files + AllocGlobal + Clone + Drop>(
    rt: &R,
    fault: Fault,
    command: &Command<'_>,
    screen: Screen,
) -> Result<Option<String>, Fault> {
    if fault == Fault::MEMORY || fault == Fault::WRITE {
        Ok(None)
    } else {
        file_sentence(rt, fault, command, screen.look())
    }
}

/// Tells of a fault in one line, and where faults are explained in a sentence after that.
fn tell_fault<R: Files + AllocGlobal + Clone + Drop, E: ByteOut>(
    rt: &R,
    err: &mut E,
    fault: Fault,
    command: &Command<'_>,
    screen: Screen,
) -> u8
    requires { E.failure_count err.old < 2 ^ 63 }
    ensures { result ≡ 2 }
{
    if !screen.has_faults(command) {
        return tell(rt.alloc(), err, fault);
    }
    let sentence = sentence_of(rt, fault, command, screen);
    tell_both(rt.alloc(), err, fault, sentence)
}

/// Writes a text that was asked for.
fn tell_text<O: ByteOut, E: ByteOut>(alloc: Global, out: &mut O, err: &mut E, text: &str) -> u8
    requires out { O.failure_count out.old < 2 ^ 63 }
    requires err { E.failure_count err.old < 2 ^ 63 }
    ensures { result ≤ 2 }
{
    match write_all(out, text.as_bytes()) {
        Ok(()) => NO_ROWS,
        Err(_) => tell(alloc, err, Fault::WRITE),
    }
}

/// Writes an entry that was asked for, or where none was the first line of each.
fn tell_entry<O: ByteOut, E: ByteOut>(
    alloc: Global,
    out: &mut O,
    err: &mut E,
    entry: Option<&str>,
) -> u8
    requires out { O.failure_count out.old < 2 ^ 63 }
    requires err { E.failure_count err.old < 2 ^ 63 }
    ensures { result ≤ 2 }
{
    if let Some(entry) = entry {
        return tell_text(alloc, out, err, entry);
    }
    match titles(alloc) {
        Ok(text) => tell_text(alloc, out, err, text.as_str()),
        Err(_) => tell(alloc, err, Fault::MEMORY),
    }
}

/// Tells why words are refused; that this can't be written changes nothing.
fn tell_refusal<E: ByteOut>(err: &mut E, text: &str) -> u8
    requires { E.failure_count err.old < 2 ^ 63 }
    ensures { result ≡ 2 }
{
    let _ = write_all(err, text.as_bytes());
    FAULT
}

/// Tells what there is to tell of words that name no command: what they ask for to the one, why they are refused to the other.
fn tell_words<O: ByteOut, E: ByteOut>(alloc: Global, out: &mut O, err: &mut E, told: Told) -> u8
    requires out { O.failure_count out.old < 2 ^ 63 }
    requires err { E.failure_count err.old < 2 ^ 63 }
    ensures { result ≤ 2 }
{
    match told {
        Told::Memory => tell(alloc, err, Fault::MEMORY),
        Told::Asked(text) => tell_text(alloc, out, err, text.as_str()),
        Told::Refused(text) => tell_refusal(err, text.as_str()),
    }
}

/// Tells on `err` why the words can't be had, want of memory or else that one is no UTF-8 text, and answers the exit status, 2.
pub fn refuse_words<E: ByteOut>(alloc: Global, err: &mut E, error: &io::Error) -> u8
    requires { E.failure_count err.old < 2 ^ 63 }
    ensures { result ≡ 2 }
{
    if error.kind() == io::ErrorKind::OutOfMemory {
        return tell(alloc, err, Fault::MEMORY);
    }
    match not_utf8(alloc) {
        Told::Refused(text) | Told::Asked(text) => tell_refusal(err, text.as_str()),
        Told::Memory => tell(alloc, err, Fault::MEMORY),
    }
}

/// Does what the words ask for where standard error is no terminal: `run_words_at` with `Screen::None`.
pub fn run_words<
    R: Files + Clock + Threads + Wait + Sync + AllocGlobal + Clone + Drop,
    I: ByteIn,
    O: ByteOut,
    E: ByteOut,
>(rt: &R, words: &[String], input: &mut I, out: &mut O, err: &mut E) -> u8
where
    R::File: Send,
    R::Dir: Send,
    requires reads { I.read_count input.old < 2 ^ 63 }
    requires failures { I.failure_count input.old < 2 ^ 63 }
    requires out { O.failure_count out.old < 2 ^ 63 }
    requires err { E.failure_count err.old < 2 ^ 63 }
    ensures { result ≤ 2 }
{
    run_words_at(rt, words, input, out, err, Screen::None)
}

/// Tells that standard input can't be read, and at a terminal where to look.
fn tell_unread<E: ByteOut>(alloc: Global, err: &mut E, fault: Fault, screen: Screen) -> u8
    requires { E.failure_count err.old < 2 ^ 63 }
    ensures { result ≡ 2 }
{
    if screen.is_terminal() {
        tell_both(alloc, err, fault, Ok(None))
    } else {
        tell(alloc, err, fault)
    }
}

/// Runs what stands on standard input.
fn run_input<R: Threads + Wait + Sync + AllocGlobal, I: ByteIn, O: ByteOut, E: ByteOut>(
    rt: &R,
    input: &mut I,
    out: &mut O,
    err: &mut E,
    screen: Screen,
) -> u8
    requires reads { I.read_count input.old < 2 ^ 63 }
    requires failures { I.failure_count input.old < 2 ^ 63 }
    requires out { O.failure_count out.old < 2 ^ 63 }
    requires err { E.failure_count err.old < 2 ^ 63 }
    ensures { result ≤ 2 }
{
    match read_text(rt.alloc(), input, MOST_INPUT) {
        Ok(text) => do_input(rt, &text, out, err, screen),
        Err(found) => tell_unread(rt.alloc(), err, found.into(), screen),
    }
}

/// Tells how a command that has files ended, and answers the exit status.
fn tell_ending<R: Files + AllocGlobal + Clone + Drop, E: ByteOut>(
    rt: &R,
    err: &mut E,
    ending: Result<Ending, Fault>,
    command: &Command<'_>,
    screen: Screen,
) -> u8
    requires { E.failure_count err.old < 2 ^ 63 }
    ensures { result ≤ 2 }
{
    match ending {
        Ok(Ending::Came(outcome)) => tell_came(rt, err, outcome, None, command, screen),
        Ok(Ending::Denied(denial)) => tell_denial(rt, err, denial, command, screen),
        Ok(Ending::Picked(written, denial)) => {
            let status = tell_picked(rt, err, &written, denial, command, screen);
            tell_summary(err, written.summary.as_ref());
            status
        }
        Ok(Ending::Summed(outcome, denial, summary)) => {
            let status = tell_came(rt, err, outcome, denial, command, screen);
            tell_summary(err, Some(&summary));
            status
        }
        Ok(Ending::Objected(text)) => tell_refusal(err, text.as_str()),
        Ok(Ending::Stopped) => FAULT,
        Err(fault) => tell_fault(rt, err, fault, command, screen),
    }
}

/// Does what the words of `once` ask for.
fn do_once<R: Files + Threads + Sync + AllocGlobal + Clone + Drop, G: Gauge, O: ByteOut>(
    rt: &R,
    words: &OnceWords<'_>,
    screen: Screen,
    gauge: &mut G,
    out: &mut O,
) -> Result<Ending, Fault>
where
    R::File: Send,
    R::Dir: Send,
    requires { O.failure_count out.old < 2 ^ 63 }
{
    let manner = Manner {
        how: screen.how(words.how),
        view: &words.view,
    };
    once_of_files(rt, words.topology, &words.capture, manner, gauge, out)
}

/// Does what the words of `run` ask for. One whose commands come tells no summary unless it is asked for.
fn do_run<R: Files + Threads + Wait + Sync + AllocGlobal, I: ByteIn, G: Gauge, O: ByteOut>(
    rt: &R,
    words: RunWords<'_>,
    input: &mut I,
    screen: Screen,
    gauge: &mut G,
    out: &mut O,
) -> Result<Ending, Fault>
    requires { O.failure_count out.old < 2 ^ 63 }
{
    if words.comes() {
        return run_of_coming(rt, words.topology, input, words.how, gauge, out);
    }
    let how = screen.how(words.how);
    match script_to_come(rt, words.script, how) {
        Some(file) => {
            let mut script = CountedReader::new(file);
            run_of_coming(rt, words.topology, &mut script, how, gauge, out)
        }
        None => run_of_files(rt, words.topology, words.script, how, gauge, out),
    }
}

/// Does what the words of `audit` ask for.
fn do_audit<R: Files + Threads + Sync + AllocGlobal, G: Gauge, O: ByteOut>(
    rt: &R,
    words: &AuditWords<'_>,
    screen: Screen,
    gauge: &mut G,
    out: &mut O,
) -> Result<Ending, Fault>
    requires { O.failure_count out.old < 2 ^ 63 }
{
    let past = Past {
        topology: words.topology,
        script: words.script,
        edit: words.edit,
    };
    let manner = Manner {
        how: screen.how(words.how),
        view: &words.view,
    };
    audit_of_files(rt, past, manner, gauge, out)
}

/// Does what a command asks for, and answers the exit status.
fn do_command<
    R: Files + Clock + Threads + Wait + Sync + AllocGlobal + Clone + Drop,
    I: ByteIn,
    O: ByteOut,
    E: ByteOut,
>(rt: &R, command: &Command<'_>, input: &mut I, out: &mut O, err: &mut E, screen: Screen) -> u8
where
    R::File: Send,
    R::Dir: Send,
    requires reads { I.read_count input.old < 2 ^ 63 }
    requires failures { I.failure_count input.old < 2 ^ 63 }
    requires out { O.failure_count out.old < 2 ^ 63 }
    requires err { E.failure_count err.old < 2 ^ 63 }
    ensures { result ≤ 2 }
{
    let ending = {
        let mut progress = Progress::new(rt, err, screen.has_progress(command));
        match command {
            Command::Input => return run_input(rt, input, out, &mut progress, screen),
            Command::Explain { entry } => return tell_entry(rt.alloc(), out, &mut progress, *entry),
            Command::Once(words) => do_once(rt, words, screen, &mut progress, out),
            Command::Run(words) => do_run(rt, *words, input, screen, &mut progress, out),
            Command::Audit(words) => do_audit(rt, words, screen, &mut progress, out),
            Command::Stream { topology, options } => {
                stream_of_files(rt, *topology, options, input, out, &mut progress)
            }
            Command::Merge {
                topology,
                reports,
                ..
            } => merge_of_files(rt, *topology, reports, out),
            Command::Doctor {
                topology,
                fragments,
                ..
            } => doctor_of_files(rt, *topology, fragments, &mut progress, out),
            Command::View {
                topology,
                fragments,
                picture,
                ..
            } => view_of_files(rt, *topology, fragments, picture, &mut progress, out),
        }
    };
    if err.failures() >= MANY_FAILURES {
        return FAULT;
    }
    tell_ending(rt, err, ending, command, screen)
}

/// Does what the words ask for, the first of which is the program's own, and answers the exit status: 0 where the last report
/// has no rows, there is none, or a text was asked for; 1 where it has some rows; 2 for a script that stops, for a fault, which is
/// told in one line on `err`, and for words that are refused, of which `clap` tells on `err` in lines of its own. `input`
/// stands for standard input. At a terminal, and where the words ask for it, the line of a fault is followed by a sentence, what
/// a script's run refuses is told there too, and a command of files that is done ends with a summary. Where there is one, and at a
/// terminal for a stream, a command that takes more than a second tells on `err` how far it is. With workers it waits for their
/// threads.
pub fn run_words_at<
    R: Files + Clock + Threads + Wait + Sync + AllocGlobal + Clone + Drop,
    I: ByteIn,
    O: ByteOut,
    E: ByteOut,
>(rt: &R, words: &[String], input: &mut I, out: &mut O, err: &mut E, screen: Screen) -> u8
where
    R::File: Send,
    R::Dir: Send,
    requires reads { I.read_count input.old < 2 ^ 63 }
    requires failures { I.failure_count input.old < 2 ^ 63 }
    requires out { O.failure_count out.old < 2 ^ 63 }
    requires err { E.failure_count err.old < 2 ^ 63 }
    ensures { result ≤ 2 }
{
    match read_words(rt.alloc(), words) {
        Ok(command) => do_command(rt, &command, input, out, err, screen),
        Err(told) => tell_words(rt.alloc(), out, err, told),
    }
}
