//! Reports of files that are merged.

ghost use Rattle.std.specs.Prelude.{◌<◌, ◌^◌};

use crate::picking::{Trouble, file_text, text_trouble};
use crate::reports::{Ending, ending_without, report_of};
use std::alloc::{AllocError, Global};
use std::rt::Files;
use tl_files::{Fault, files_of, topology_of};
use tl_formats::{MergeFault, MergedText, ReportFault, TextsFault, merge_texts};
use tl_text::{ByteOut, write_all};
use tl_topology::Topo;

/// The most bytes of a report.
const MOST_REPORT: u64 = 4_294_967_296;

/// The files of reports that words stand for.
fn listed<R: Files + AllocGlobal + Clone + Drop>(
    rt: &R,
    words: &[&str],
) -> Result<Vec<String>, Fault> {
    let mut all = Vec::new(rt.alloc());
    for word in words {
        all.append(&mut files_of(rt, *word)?)?;
    }
    Ok(all)
}

/// The text of a report's file.
fn text_at<R: Files + AllocGlobal>(rt: &R, path: &str) -> Result<Vec<u8>, Trouble> {
    match file_text(rt, path, MOST_REPORT) {
        Ok(text) => Ok(text),
        Err(fault) => Err(text_trouble(rt.alloc(), path, "4,294,967,296", fault)?),
    }
}

/// The texts of files of reports.
fn texts_at<R: Files + AllocGlobal>(rt: &R, paths: &[String]) -> Result<Vec<Vec<u8>>, Trouble> {
    let mut texts = Vec::new(rt.alloc());
    for path in paths {
        texts.push(text_at(rt, path.as_str())?)?;
    }
    Ok(texts)
}

/// The path at a place.
fn path_at(paths: &[String], place: usize) -> &str {
    match paths.get(place) {
        Some(path) => path.as_str(),
        None => "",
    }
}

/// What a link is called.
pub(crate) fn link_name(topo: &Topo, link: u16) -> &str {
    match topo.link(link) {
        Some(decl) => decl.name.as_str(),
        None => "",
    }
}

/// Why reports of files can't be merged.
fn merge_trouble(
    alloc: Global,
    topo: &Topo,
    paths: &[String],
    fault: MergeFault,
) -> Result<Trouble, AllocError> {
    let text = match fault {
        MergeFault::Memory => return Ok(Trouble::Fault(Fault::MEMORY)),
        MergeFault::ManyEdits => {
            format!(in alloc; "tlcheck: the reports count more edits than a number holds\n")?
        }
        MergeFault::ManagerTwice {
            link,
            first,
            second,
        } => {
            let first = path_at(paths, first);
            let second = path_at(paths, second);
            let link = link_name(topo, link);
            format!(in alloc;
                "tlcheck: {second} has rows of the manager of link {link}, and so has {first}\n"
            )?
        }
    };
    Ok(Trouble::Objection(text))
}

/// Why files are no reports of one kind: the first in JSON, and the first that is text.
fn mixed_trouble(
    alloc: Global,
    paths: &[String],
    json: usize,
    plain: usize,
) -> Result<Trouble, AllocError> {
    let json = path_at(paths, json);
    let plain = path_at(paths, plain);
    let text = format!(in alloc;
        "tlcheck: {json} is JSON, or empty, and {plain} is text: the reports of a merge are of one kind\n"
    )?;
    Ok(Trouble::Objection(text))
}

/// Why the texts of files can't be merged.
fn texts_trouble(
    alloc: Global,
    topo: &Topo,
    paths: &[String],
    fault: TextsFault,
) -> Result<Trouble, AllocError> {
    match fault {
        TextsFault::Merge(fault) => merge_trouble(alloc, topo, paths, fault),
        TextsFault::Mixed { json, plain } => mixed_trouble(alloc, paths, json, plain),
        TextsFault::Report {
            fault: ReportFault::Memory,
            ..
        } => Ok(Trouble::Fault(Fault::MEMORY)),
        TextsFault::Report { place, fault } => {
            let path = path_at(paths, place);
            let text = format!(in alloc; "tlcheck: {path}: {fault}\n")?;
            Ok(Trouble::Objection(text))
        }
    }
}

/// The merge of the reports of files, as it is written.
fn merged_at<R: Files + AllocGlobal>(
    rt: &R,
    topo: &Topo,
    paths: &[String],
) -> Result<MergedText, Trouble> {
    let texts = texts_at(rt, paths)?;
    match merge_texts(rt.alloc(), topo, &texts) {
        Ok(merged) => Ok(merged),
        Err(fault) => Err(texts_trouble(rt.alloc(), topo, paths, fault)?),
    }
}

/// Writes a merge.
fn write_merged<O: ByteOut>(merged: &MergedText, out: &mut O) -> Result<Ending, Fault>
    requires { O.failure_count out.old < 2 ^ 63 }
{
    write_all(out, &merged.text)?;
    Ok(Ending::Came(report_of(merged.rows)))
}

/// Writes the merge of the reports of files on a topology.
fn merge_on<R: Files + AllocGlobal, O: ByteOut>(
    rt: &R,
    topo: &Topo,
    paths: &[String],
    out: &mut O,
) -> Result<Ending, Fault>
    requires { O.failure_count out.old < 2 ^ 63 }
{
    match merged_at(rt, topo, paths) {
        Ok(merged) => write_merged(&merged, out),
        Err(trouble) => ending_without(trouble),
    }
}

/// Writes one report of the reports of different managers, which words name as they name files for `once_of_files`, on a file's topology.
/// What is wrong in one of them, or in two together, ends it as a sentence. The fault of the topology, or of a word whose folder or list
/// can't be read; want of memory, or a write that fails.
pub fn merge_of_files<R: Files + AllocGlobal + Clone + Drop, O: ByteOut>(
    rt: &R,
    topology: &str,
    words: &[&str],
    out: &mut O,
) -> Result<Ending, Fault>
    requires { O.failure_count out.old < 2 ^ 63 }
{
    let topo = topology_of(rt, topology)?;
    let paths = listed(rt, words)?;
    merge_on(rt, &topo, &paths, out)
}
