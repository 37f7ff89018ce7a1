//! The files that the words name.

ghost use Rattle.std.specs.Prelude.{◌≤◌, ◌^◌};

use crate::fault::Fault;
use crate::page::Page;
use crate::paths::files_of;
use crate::progress::{FilesRead, Gauge};
use std::alloc::{AllocError, Global};
use std::rt::Files;
use std::sync::Arc;
use std::thread::Threads;
use std::{fs, io};
use tl_beats::{Fragment, FragmentFault, parse_whole_fragment};
use tl_script::{Role, read_script};
use tl_stream::{Parsers, Share, Sieve};
use tl_text::{CountedReader, TextFault, read_text};
use tl_topology::{Topo, TopoFault, read_topo};

/// How many bytes of fragments are read before they are parsed, where several threads do that.
const MOST_HELD: usize = 16_777_216;

/// The topology that a file's whole text is; bytes after its last line are BadLine of the next. FILE where it can't be opened or read.
pub fn topology_of<R: Files + AllocGlobal>(rt: &R, path: &str) -> Result<Topo, Fault> {
    let Ok(file) = fs::open(rt, path) else {
        return Err(Fault::FILE);
    };
    let most = Role::Topology.most();
    let text = read_text(rt.alloc(), &mut CountedReader::new(file), most)?;
    let topo = whole_topology(rt.alloc(), &text)?;
    Ok(topo)
}

/// How many lines end in a text.
pub fn line_ends(text: &[u8]) -> u64 {
    text.iter().filter(|byte| **byte == b'\n').count() as u64
}

/// The number of the line that begins after these lines.
pub fn line_after(lines: &[u8]) -> u64 {
    line_ends(lines).saturating_add(1)
}

/// The topology that a whole text is; bytes after its last line are BadLine of the next.
pub fn whole_topology(alloc: Global, text: &[u8]) -> Result<Topo, TopoFault> {
    let (topo, used) = read_topo(alloc, text)?;
    if used == text.len() {
        Ok(topo)
    } else {
        Err(TopoFault::BadLine(line_after(&text[..used])))
    }
}

/// The text of a fragment's file.
fn fragment_text<R: Files + AllocGlobal>(rt: &R, path: &str) -> Result<Vec<u8>, Fault> {
    let Ok(file) = fs::open(rt, path) else {
        return Err(Fault::FILE);
    };
    let most = Role::Fragment.most();
    match read_text(rt.alloc(), &mut CountedReader::new(file), most) {
        Ok(text) => Ok(text),
        Err(fault) => Err(FragmentFault::from(fault).into()),
    }
}

/// Whether a whole text is that of a fragment that is not checked.
pub fn is_passed(alloc: Global, sieve: Sieve<'_>, text: &[u8]) -> Result<bool, AllocError> {
    match sieve.share.passed(alloc, sieve.topo, text)? {
        Some(passed) => Ok(passed.bytes == text.len()),
        None => Ok(false),
    }
}

/// The fragment that a whole text is, if it is checked.
fn fragment_in(
    alloc: Global,
    sieve: Sieve<'_>,
    text: &[u8],
) -> Result<Option<Arc<Fragment>>, Fault> {
    if is_passed(alloc, sieve, text)? {
        return Ok(None);
    }
    let fragment = parse_whole_fragment(alloc, text)?;
    Ok(Some(Arc::new(alloc, fragment)?))
}

/// Reads a fragment's file into a page.
pub fn fill_page<R: Files + AllocGlobal, G: Gauge>(
    rt: &R,
    path: &str,
    page: &mut Page,
    read: &mut FilesRead<'_, G>,
) -> Result<(), Fault> {
    let Ok(file) = fs::open(rt, path) else {
        return Err(Fault::FILE);
    };
    let (expected, most) = (bytes_of(rt, path), Role::Fragment.most());
    if let Err(fault) = page.fill(&mut CountedReader::new(file), expected, most) {
        return Err(FragmentFault::from(fault).into());
    }
    read.count(page.text().len() as u64);
    Ok(())
}

/// The fragment of a file, if it is checked.
pub fn fragment_at<R: Files + AllocGlobal, G: Gauge>(
    rt: &R,
    path: &str,
    sieve: Sieve<'_>,
    page: &mut Page,
    read: &mut FilesRead<'_, G>,
) -> Result<Option<Arc<Fragment>>, Fault> {
    fill_page(rt, path, page, read)?;
    fragment_in(rt.alloc(), sieve, page.text())
}

/// The fragments of files that are checked, each read and parsed before the next is opened.
fn fragments_in<R: Files + AllocGlobal, G: Gauge>(
    rt: &R,
    files: &[String],
    sieve: Sieve<'_>,
    read: &mut FilesRead<'_, G>,
) -> Result<Vec<Arc<Fragment>>, Fault> {
    let mut page = Page::new(rt.alloc());
    let mut fragments = Vec::new(rt.alloc());
    for path in files {
        if let Some(fragment) = fragment_at(rt, path.as_str(), sieve, &mut page, read)? {
            fragments.push(fragment)?;
        }
    }
    Ok(fragments)
}

/// The texts of some files, up to one that can't be read, and why it can't.
#[derive(Drop)]
struct Round {
    texts: Vec<Vec<u8>>,
    fault: Option<Fault>,
}

/// The texts of the first of these files, of one at least, until they have as many bytes as are read before any is parsed.
fn next_round<R: Files + AllocGlobal, G: Gauge>(
    rt: &R,
    files: &[String],
    read: &mut FilesRead<'_, G>,
) -> Result<Round, Fault> {
    let mut texts: Vec<Vec<u8>> = Vec::new(rt.alloc());
    let mut held: usize = 0;
    for path in files {
        if held >= MOST_HELD {
            break;
        }
        match fragment_text(rt, path.as_str()) {
            Ok(text) => {
                held = held.saturating_add(text.len());
                read.count(text.len() as u64);
                texts.push(text)?;
            }
            Err(fault) => {
                return Ok(Round {
                    texts,
                    fault: Some(fault),
                });
            }
        }
    }
    Ok(Round { texts, fault: None })
}

/// The texts of the fragments that are checked.
fn checked(
    alloc: Global,
    sieve: Sieve<'_>,
    texts: Vec<Vec<u8>>,
) -> Result<Vec<Vec<u8>>, AllocError> {
    let mut kept = Vec::new(alloc);
    for text in texts {
        if !is_passed(alloc, sieve, &text)? {
            kept.push(text)?;
        }
    }
    Ok(kept)
}

/// The fragments that texts are, parsed by several threads. The fault is that of the first that is none.
fn parsed_beside<R: Threads + Sync + AllocGlobal>(
    parsers: &Parsers<'_, R>,
    texts: &[Vec<u8>],
) -> Result<Vec<Arc<Fragment>>, Fault> {
    let parsed = parsers.parse(texts)?;
    if let Some(fault) = parsed.fault {
        return Err(fault.into());
    }
    let mut fragments = Vec::new(parsers.alloc());
    for fragment in parsed.fragments {
        fragments.push(Arc::new(parsers.alloc(), fragment)?)?;
    }
    Ok(fragments)
}

/// The fragments of files, parsed by so many threads beside this one, which reads them. The fault is that of the first file that has
/// one.
fn fragments_beside<R: Files + Threads + Sync + AllocGlobal, G: Gauge>(
    rt: &R,
    files: &[String],
    sieve: Sieve<'_>,
    workers: u8,
    read: &mut FilesRead<'_, G>,
) -> Result<Vec<Arc<Fragment>>, Fault> {
    let parsers = Parsers::new(rt, workers);
    let mut all = Vec::new(rt.alloc());
    let mut rest = files;
    for _ in 0..files.len() {
        let round = next_round(rt, rest, read)?;
        rest = rest.get(round.texts.len()..).unwrap_or(&[]);
        let texts = checked(rt.alloc(), sieve, round.texts)?;
        all.append(&mut parsed_beside(&parsers, &texts)?)?;
        if let Some(fault) = round.fault {
            return Err(fault);
        }
        if rest.is_empty() {
            break;
        }
    }
    Ok(all)
}

/// How many bytes a file has; none where it can't be asked.
pub fn bytes_of<R: Files>(rt: &R, path: &str) -> u64 {
    match fs::metadata(rt, path) {
        Ok(found) => found.len(),
        Err(_) => 0,
    }
}

/// Whether all of these are files of their own. What a pipe gives can't be had again, and may never come.
pub fn are_files<R: Files + AllocGlobal>(rt: &R, paths: &[String]) -> bool {
    for path in paths {
        match fs::metadata(rt, path.as_str()) {
            Ok(found) if found.is_file() => {}
            _ => return false,
        }
    }
    true
}

/// The files that words stand for, up to the first word whose files can't be had, and why they can't.
pub fn listed<R: Files + AllocGlobal + Clone + Drop>(
    rt: &R,
    words: &[&str],
) -> Result<(Vec<String>, Option<Fault>), Fault> {
    let mut all = Vec::new(rt.alloc());
    for word in words {
        match files_of(rt, *word) {
            Ok(mut files) => all.append(&mut files)?,
            Err(fault) => return Ok((all, Some(fault))),
        }
    }
    Ok((all, None))
}

/// The fragments of the files that words stand for, of those that are checked, read by so many threads beside this one, where none is a
/// pipe. The gauge is told of each file that was read. The fault is that of the first file or word that has one.
pub fn fragments_of<R: Files + Threads + Sync + AllocGlobal + Clone + Drop, G: Gauge>(
    rt: &R,
    words: &[&str],
    sieve: Sieve<'_>,
    workers: u8,
    gauge: &mut G,
) -> Result<Vec<Arc<Fragment>>, Fault> {
    let (files, fault) = listed(rt, words)?;
    let mut read = FilesRead::none_of(files.len(), gauge);
    let fragments = if workers == 0 || !are_files(rt, &files) {
        fragments_in(rt, &files, sieve, &mut read)?
    } else {
        fragments_beside(rt, &files, sieve, workers, &mut read)?
    };
    match fault {
        Some(fault) => Err(fault),
        None => Ok(fragments),
    }
}

/// The fragments of the files that words stand for, whatever their managers are, read by this thread alone.
pub fn all_fragments_of<R: Files + Threads + Sync + AllocGlobal + Clone + Drop, G: Gauge>(
    rt: &R,
    topo: &Topo,
    words: &[&str],
    gauge: &mut G,
) -> Result<Vec<Arc<Fragment>>, Fault> {
    let share = Share::all();
    let sieve = Sieve {
        topo,
        share: &share,
    };
    fragments_of(rt, words, sieve, 0, gauge)
}

/// The script that a file is; its commands are not looked at. FILE where it can't be opened or read.
pub fn script_of<R: Files + AllocGlobal>(rt: &R, path: &str) -> Result<Vec<u8>, Fault> {
    let Ok(file) = fs::open(rt, path) else {
        return Err(Fault::FILE);
    };
    let script = read_script(rt.alloc(), &mut CountedReader::new(file))?;
    Ok(script)
}

/// What stands at a path.
#[derive(Drop)]
pub enum Seen {
    /// There is nothing.
    Nothing,
    /// A folder.
    Folder,
    /// A pipe or a device, which can't be read again.
    Stream,
    /// A file that can't be opened or read.
    Closed,
    /// A file with more bytes than one of its role has.
    TooLong,
    /// A file with this text.
    Text(Vec<u8>),
}

/// What stands at a path that can't be asked for.
fn unseen(error: &io::Error) -> Seen {
    match error.kind() {
        io::ErrorKind::NotFound => Seen::Nothing,
        _ => Seen::Closed,
    }
}

/// What a file of this role holds, which is read again.
fn seen_in<R: Files + AllocGlobal>(rt: &R, path: &str, role: Role) -> Result<Seen, Fault> {
    let Ok(file) = fs::open(rt, path) else {
        return Ok(Seen::Closed);
    };
    match read_text(rt.alloc(), &mut CountedReader::new(file), role.most()) {
        Ok(text) => Ok(Seen::Text(text)),
        Err(TextFault::ReadFault) => Ok(Seen::Closed),
        Err(TextFault::TooLong) => Ok(Seen::TooLong),
        Err(TextFault::Memory) => Err(Fault::MEMORY),
    }
}

/// What is found at the path of a file of this role, which is read again.
fn seen_there<R: Files + AllocGlobal>(
    rt: &R,
    path: &str,
    role: Role,
    found: &fs::Metadata,
) -> Result<Seen, Fault> {
    if found.is_dir() {
        Ok(Seen::Folder)
    } else if found.is_file() {
        seen_in(rt, path, role)
    } else {
        Ok(Seen::Stream)
    }
}

/// What stands at the path of a file of this role, which is read again.
pub fn seen_at<R: Files + AllocGlobal>(rt: &R, path: &str, role: Role) -> Result<Seen, Fault> {
    match fs::metadata(rt, path) {
        Ok(found) => seen_there(rt, path, role, &found),
        Err(error) => Ok(unseen(&error)),
    }
}
