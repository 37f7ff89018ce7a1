//! Which file a fault is of, and its sentence.

use crate::share::share_of;
use std::alloc::{AllocError, Global};
use std::rt::Files;
use std::sync::Arc;
use tl_advice::{
    Advice, Cause, Home, Line, Look, Place, Script, Sentence, edit_cause, fragment_cause, kind_of,
    length_cause, line_at, line_of, script_sentences, topology_cause,
};
use tl_beats::{Fragment, FragmentFault, parse_whole_fragment};
use tl_edits::{Change, Edit, EditFault, Log};
use tl_files::{Fault, Seen, files_of, is_passed, line_after, list_of, seen_at, whole_topology};
use tl_options::StreamOptions;
use tl_script::{Role, log_of};
use tl_stream::{Share, Sieve};
use tl_topology::{Topo, TopoFault, read_topo};

/// The most refused commands of a script that are told.
const MOST_TOLD: u64 = 20;

/// A file that the words name, with the fault that is told.
#[derive(Clone, Copy)]
pub struct Suspect<'a> {
    /// The file, as the words name it.
    pub path: &'a str,
    /// The fault.
    pub fault: Fault,
    /// How the first line of its sentence looks.
    pub look: Look,
}

impl<'a> Suspect<'a> {
    /// The file at this path.
    pub fn new(path: &'a str, fault: Fault, look: Look) -> Suspect<'a> {
        Suspect { path, fault, look }
    }

    /// The sentence of this place and cause.
    fn sentence(self, alloc: Global, place: Place<'_>, cause: Cause<'_>) -> Result<String, Fault> {
        let sentence = Sentence {
            path: self.path,
            place,
            cause,
            code: self.fault.code,
            look: self.look,
        };
        Ok(sentence.text(alloc)?)
    }

    /// The sentence of a line of the file.
    fn line_sentence(
        self,
        alloc: Global,
        text: &[u8],
        number: u64,
        cause: Cause<'_>,
    ) -> Result<String, Fault> {
        let own = Line {
            number,
            text: line_at(text, number),
        };
        let place = if number == 1 && !kind_of(text).has_lines() {
            Place::File
        } else {
            Place::Line(own)
        };
        self.sentence(alloc, place, cause)
    }
}

/// What is said of a path where the file of this role is not.
fn path_advice(found: &'static str, role: Role) -> Advice {
    let wanted = match role {
        Role::Topology => "the path of a topology",
        Role::Fragment => "the path of a fragment",
        Role::Script => "the path of a script",
    };
    Advice::new(found, wanted)
}

/// Why what was seen at a path is this fault, if it is.
fn seen_cause<'a>(seen: &Seen, role: Role, fault: Fault) -> Option<Cause<'a>> {
    let is_file = fault == Fault::FILE;
    match seen {
        Seen::TooLong if !is_file => Some(length_cause(role)),
        Seen::Nothing if is_file => Some(Cause::Plain(path_advice("no file at this path", role))),
        Seen::Folder if is_file => Some(Cause::Plain(path_advice("a folder", role))),
        Seen::Closed if is_file => Some(Cause::Plain(Advice::new(
            "a file that can't be read",
            "permission to read it: ls -l shows who has it",
        ))),
        _ => None,
    }
}

/// The sentence of a file that has no text of its role, if the fault is its.
fn seen_sentence(
    alloc: Global,
    suspect: Suspect<'_>,
    seen: &Seen,
    role: Role,
) -> Result<Option<String>, Fault> {
    match seen_cause(seen, role, suspect.fault) {
        Some(cause) => Ok(Some(suspect.sentence(alloc, Place::File, cause)?)),
        None => Ok(None),
    }
}

/// What came of reading a topology again.
#[derive(Drop)]
enum Again {
    /// The fault is its, in this sentence.
    Told(String),
    /// It is sound.
    Sound(Topo),
    /// It has another fault now, or can't be read again.
    Unknown,
}

/// The sentence of a topology's fault.
fn topology_fault(
    alloc: Global,
    suspect: Suspect<'_>,
    text: &[u8],
    own: TopoFault,
) -> Result<String, Fault> {
    let number = own.number().unwrap_or(1);
    suspect.line_sentence(alloc, text, number, topology_cause(text, own))
}

/// What came of reading the text of a topology again.
fn topology_text(alloc: Global, suspect: Suspect<'_>, text: &[u8]) -> Result<Again, Fault> {
    let own = match whole_topology(alloc, text) {
        Ok(topo) => return Ok(Again::Sound(topo)),
        Err(own) => own,
    };
    if own == TopoFault::Memory {
        return Err(Fault::MEMORY);
    }
    if suspect.fault != own.into() {
        return Ok(Again::Unknown);
    }
    let sentence = topology_fault(alloc, suspect, text, own)?;
    Ok(Again::Told(sentence))
}

/// What came of a topology's file that has no text of one.
fn topology_lost(alloc: Global, suspect: Suspect<'_>, seen: &Seen) -> Result<Again, Fault> {
    match seen_sentence(alloc, suspect, seen, Role::Topology)? {
        Some(sentence) => Ok(Again::Told(sentence)),
        None => Ok(Again::Unknown),
    }
}

/// What came of reading a topology's file again.
fn topology_again<R: Files + AllocGlobal>(rt: &R, suspect: Suspect<'_>) -> Result<Again, Fault> {
    match &seen_at(rt, suspect.path, Role::Topology)? {
        Seen::Text(text) => topology_text(rt.alloc(), suspect, text),
        seen => topology_lost(rt.alloc(), suspect, seen),
    }
}

/// Why a fragment can't be added after those of these files.
fn added_cause<'a>(path: &str, before: &[String], fault: EditFault, topo: &'a Topo) -> Cause<'a> {
    let is_again = before.iter().any(|other| other.as_str() == path);
    if fault == EditFault::FragmentExists && is_again {
        Cause::Plain(Advice::new("the same file a second time", "each file once"))
    } else {
        edit_cause(fault, topo)
    }
}

/// Why a fragment can't be added to a log; None where it can, and now is.
fn refusal_of(
    alloc: Global,
    fragment: Fragment,
    log: &mut Log,
) -> Result<Option<EditFault>, Fault> {
    let shared = Arc::new(alloc, fragment)?;
    match log.push(Edit::Change(Change::Add(shared))) {
        Ok(_) => Ok(None),
        Err(EditFault::Memory) => Err(Fault::MEMORY),
        Err(own) => Ok(Some(own)),
    }
}

/// Adds a fragment after those of the files before it; the sentence of its refusal, if that is the fault.
fn added_sentence(
    alloc: Global,
    suspect: Suspect<'_>,
    before: &[String],
    text: &[u8],
    fragment: Fragment,
    log: &mut Log,
) -> Result<Option<String>, Fault> {
    let own = match refusal_of(alloc, fragment, log)? {
        Some(own) if suspect.fault.code == own.code() => own,
        _ => return Ok(None),
    };
    let cause = added_cause(suspect.path, before, own, log.inputs().topo());
    let sentence = suspect.line_sentence(alloc, text, 1, cause)?;
    Ok(Some(sentence))
}

/// The sentence of a fragment's text that is read again and added, if the fault is its.
fn fragment_text(
    alloc: Global,
    suspect: Suspect<'_>,
    before: &[String],
    text: &[u8],
    log: &mut Log,
) -> Result<Option<String>, Fault> {
    let own = match parse_whole_fragment(alloc, text) {
        Ok(fragment) => return added_sentence(alloc, suspect, before, text, fragment, log),
        Err(own) => own,
    };
    if own == FragmentFault::Memory {
        return Err(Fault::MEMORY);
    }
    if suspect.fault != own.into() {
        return Ok(None);
    }
    let cause = fragment_cause(text, own, Home::File);
    let sentence = suspect.line_sentence(alloc, text, line_of(own), cause)?;
    Ok(Some(sentence))
}

/// Whether a text is that of a fragment that is not checked.
fn is_left(alloc: Global, log: &Log, share: &Share, text: &[u8]) -> Result<bool, AllocError> {
    let sieve = Sieve {
        topo: log.inputs().topo(),
        share,
    };
    is_passed(alloc, sieve, text)
}

/// The sentence of a fragment's file that is read again and added, if the fault is its.
fn fragment_again<R: Files + AllocGlobal>(
    rt: &R,
    suspect: Suspect<'_>,
    before: &[String],
    share: &Share,
    log: &mut Log,
) -> Result<Option<String>, Fault> {
    match &seen_at(rt, suspect.path, Role::Fragment)? {
        Seen::Text(text) if is_left(rt.alloc(), log, share, text)? => Ok(None),
        Seen::Text(text) => fragment_text(rt.alloc(), suspect, before, text, log),
        seen => seen_sentence(rt.alloc(), suspect, seen, Role::Fragment),
    }
}

/// The sentence of the first of these fragments' files that the fault is of, each read again and added after those before it.
fn first_again<R: Files + AllocGlobal>(
    rt: &R,
    topology: Suspect<'_>,
    files: &[String],
    share: &Share,
    log: &mut Log,
) -> Result<Option<String>, Fault> {
    for (place, path) in files.iter().enumerate() {
        let suspect = Suspect::new(path.as_str(), topology.fault, topology.look);
        let before = files.get(..place).unwrap_or(files);
        if let Some(sentence) = fragment_again(rt, suspect, before, share, log)? {
            return Ok(Some(sentence));
        }
    }
    Ok(None)
}

/// The sentence of the first of these fragments' files that the fault is of, on a sound topology.
fn fragments_again<R: Files + AllocGlobal>(
    rt: &R,
    topology: Suspect<'_>,
    files: &[String],
    share: &Share,
    topo: Topo,
) -> Result<Option<String>, Fault> {
    let mut log = Log::new(rt.alloc(), topo)?;
    first_again(rt, topology, files, share, &mut log)
}

/// The sentence of a word whose folder or list can't be read.
fn word_again<R: Files + AllocGlobal>(
    rt: &R,
    topology: Suspect<'_>,
    word: &str,
) -> Result<Option<String>, Fault> {
    let path = list_of(word).unwrap_or(word);
    let suspect = Suspect::new(path, topology.fault, topology.look);
    let seen = seen_at(rt, path, Role::Fragment)?;
    seen_sentence(rt.alloc(), suspect, &seen, Role::Fragment)
}

/// The files that these words stand for, up to the first word whose folder or list can't be read, and that word.
fn files_before<'a, R: Files + AllocGlobal + Clone + Drop>(
    rt: &R,
    words: &[&'a str],
) -> Result<(Vec<String>, Option<&'a str>), Fault> {
    let mut files = Vec::new(rt.alloc());
    for word in words {
        let Ok(mut own) = files_of(rt, *word) else {
            return Ok((files, Some(*word)));
        };
        files.append(&mut own)?;
    }
    Ok((files, None))
}

/// The sentence of the first of the files of these words that the fault is of, or of the first word whose folder or list can't be read.
fn words_again<R: Files + AllocGlobal + Clone + Drop>(
    rt: &R,
    topology: Suspect<'_>,
    words: &[&str],
    share: &Share,
    topo: Topo,
) -> Result<Option<String>, Fault> {
    let (files, lost) = files_before(rt, words)?;
    match (fragments_again(rt, topology, &files, share, topo)?, lost) {
        (None, Some(word)) => word_again(rt, topology, word),
        (sentence, _) => Ok(sentence),
    }
}

/// The same of those that are checked where these managers are named.
fn share_again<R: Files + AllocGlobal + Clone + Drop>(
    rt: &R,
    topology: Suspect<'_>,
    words: &[&str],
    managers: &[&str],
    topo: Topo,
) -> Result<Option<String>, Fault> {
    match share_of(rt.alloc(), &topo, managers) {
        Ok(share) => words_again(rt, topology, words, &share, topo),
        Err(_) => Ok(None),
    }
}

/// The sentence of a fault of `once`, whose files are read again: that of the first that it is of, of those that are checked where these
/// managers are named. None where it is of none.
pub fn once_sentence<R: Files + AllocGlobal + Clone + Drop>(
    rt: &R,
    topology: Suspect<'_>,
    words: &[&str],
    managers: &[&str],
) -> Result<Option<String>, Fault> {
    match topology_again(rt, topology)? {
        Again::Told(sentence) => Ok(Some(sentence)),
        Again::Sound(topo) => share_again(rt, topology, words, managers, topo),
        Again::Unknown => Ok(None),
    }
}

/// The sentence of a fault of `stream`: that of its topology, of its setup, or of the first word whose files can't be opened. None where
/// it is of none.
pub fn stream_sentence<R: Files + AllocGlobal + Clone + Drop>(
    rt: &R,
    topology: Suspect<'_>,
    options: &StreamOptions<'_>,
) -> Result<Option<String>, Fault> {
    match options.setup {
        Some(script) if topology.fault.code != Fault::FILE.code => {
            script_sentence(rt, topology, script)
        }
        _ => once_sentence(rt, topology, &options.inputs, &options.managers),
    }
}

/// The code of a script that stops at a bad line.
const BAD_COMMAND: u8 = 41;

/// The code of a script that ends inside a command.
const TRUNCATED: u8 = 42;

/// The code of an edit that a script has not.
const NO_SUCH_EDIT: u8 = 43;

/// How many edits of a script are accepted.
fn accepted_in(alloc: Global, topo: &Topo, bytes: &[u8]) -> Result<u64, Fault> {
    let log = log_of(alloc, topo, bytes)?;
    Ok(log.len())
}

/// What a script refused and where it stopped, in sentences.
fn script_text(
    alloc: Global,
    topo: &Topo,
    bytes: &[u8],
    script: Script<'_>,
) -> Result<Option<String>, Fault> {
    Ok(Some(script_sentences(alloc, topo, bytes, script)?))
}

/// The sentence of an audit's fault that its script has.
fn audited_sentence(
    alloc: Global,
    suspect: Suspect<'_>,
    topo: &Topo,
    bytes: &[u8],
) -> Result<Option<String>, Fault> {
    match (suspect.fault.code, suspect.fault.number) {
        (BAD_COMMAND | TRUNCATED, _) => {
            let script = Script {
                path: suspect.path,
                first: 1,
                most: 0,
                look: suspect.look,
            };
            script_text(alloc, topo, bytes, script)
        }
        (NO_SUCH_EDIT, Some(asked)) => {
            let accepted = accepted_in(alloc, topo, bytes)?;
            let cause = Cause::Edits { asked, accepted };
            Ok(Some(suspect.sentence(alloc, Place::File, cause)?))
        }
        _ => Ok(None),
    }
}

/// The sentence of a fault of a script's file, which is read again. None where it is none of it.
fn script_again<R: Files + AllocGlobal>(
    rt: &R,
    suspect: Suspect<'_>,
    topo: &Topo,
) -> Result<Option<String>, Fault> {
    match &seen_at(rt, suspect.path, Role::Script)? {
        Seen::Text(bytes) => audited_sentence(rt.alloc(), suspect, topo, bytes),
        seen => seen_sentence(rt.alloc(), suspect, seen, Role::Script),
    }
}

/// The sentence of a fault of `run` or of `audit`, whose files are read again. None where it is of none of them.
pub fn script_sentence<R: Files + AllocGlobal>(
    rt: &R,
    topology: Suspect<'_>,
    script: &str,
) -> Result<Option<String>, Fault> {
    match topology_again(rt, topology)? {
        Again::Told(sentence) => Ok(Some(sentence)),
        Again::Sound(topo) => {
            script_again(
                rt,
                Suspect::new(script, topology.fault, topology.look),
                &topo,
            )
        }
        Again::Unknown => Ok(None),
    }
}

/// What the run of a script's file refused and where it stopped, in sentences; the file is read again. None where it can't be.
fn refusals_on<R: Files + AllocGlobal>(
    rt: &R,
    topo: &Topo,
    script: Script<'_>,
) -> Result<Option<String>, Fault> {
    match &seen_at(rt, script.path, Role::Script)? {
        Seen::Text(bytes) => script_text(rt.alloc(), topo, bytes, script),
        _ => Ok(None),
    }
}

/// What the run of a script's file refused and where it stopped, in sentences, on the topology that a text is.
fn refusals_after<R: Files + AllocGlobal>(
    rt: &R,
    text: &[u8],
    script: Script<'_>,
) -> Result<Option<String>, Fault> {
    let topo = whole_topology(rt.alloc(), text)?;
    refusals_on(rt, &topo, script)
}

/// What the run of a file's script refused and where it stopped, in sentences; the files are read again. None where they can't be.
pub fn run_sentences<R: Files + AllocGlobal>(
    rt: &R,
    topology: &str,
    script: &str,
    look: Look,
) -> Result<Option<String>, Fault> {
    let script = Script {
        path: script,
        first: 1,
        most: MOST_TOLD,
        look,
    };
    match &seen_at(rt, topology, Role::Topology)? {
        Seen::Text(text) => refusals_after(rt, text, script),
        _ => Ok(None),
    }
}

/// What standard input is called.
const INPUT: &str = "standard input";

/// The sentence of a fault of standard input, which has a topology in front. None where it is none of the topology's.
pub fn input_sentence(
    alloc: Global,
    text: &[u8],
    fault: Fault,
    look: Look,
) -> Result<Option<String>, Fault> {
    let suspect = Suspect::new(INPUT, fault, look);
    match read_topo(alloc, text) {
        Ok(_) => Ok(None),
        Err(TopoFault::Memory) => Err(Fault::MEMORY),
        Err(own) => Ok(Some(topology_fault(alloc, suspect, text, own)?)),
    }
}

/// What the run of the script on standard input refused and where it stopped, in sentences.
pub fn input_sentences(alloc: Global, text: &[u8], look: Look) -> Result<Option<String>, Fault> {
    let (topo, used) = read_topo(alloc, text)?;
    let script = Script {
        path: INPUT,
        first: line_after(&text[..used]),
        most: MOST_TOLD,
        look,
    };
    script_text(alloc, &topo, &text[used..], script)
}
