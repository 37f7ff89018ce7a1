//! A row of files as a picture.

ghost use Rattle.std.specs.Prelude.{◌<◌, ◌^◌};

use crate::picking::{Trouble, link_of};
use crate::reports::{Ending, ending_without, report_of};
use std::alloc::{AllocError, Global};
use std::fs;
use std::rt::Files;
use std::sync::Arc;
use std::thread::Threads;
use tl_beats::{Fragment, Row};
use tl_check::{all_added, scratch};
use tl_edits::Inputs;
use tl_files::{Fault, Gauge, all_fragments_of, topology_of};
use tl_options::Picture;
use tl_rows::{Drawing, row_named};
use tl_tables::rule_text;
use tl_text::{ByteOut, write_all};
use tl_topology::Topo;
use tl_view::{Scene, dump_text, image_text, ladder_text, savefile_text, scene_of};

/// Puts the name of a rule after others.
fn push_rule(row: &Row, rules: &mut String) -> Result<(), AllocError> {
    if !rules.is_empty() {
        rules.push_str(", ")?;
    }
    rules.push_str(rule_text(row.rule))
}

/// The rules that the beat of a row's name breaks.
fn rules_there(
    alloc: Global,
    rows: &[Row],
    link: u16,
    picture: &Picture<'_>,
) -> Result<String, AllocError> {
    let mut rules = String::new(alloc);
    for row in rows {
        if row.link == link
            && row.fragment == picture.row.fragment
            && row.line == picture.row.line
        {
            push_rule(row, &mut rules)?;
        }
    }
    Ok(rules)
}

/// That the report has no such row, and which rules the beat breaks, if it breaks some.
fn missing_row(
    alloc: Global,
    rows: &[Row],
    link: u16,
    picture: &Picture<'_>,
) -> Result<String, AllocError> {
    let name = picture.link;
    let fragment = picture.row.fragment;
    let line = picture.row.line;
    let rule = rule_text(picture.row.rule);
    let rules = rules_there(alloc, rows, link, picture)?;
    if rules.is_empty() {
        return format!(in alloc;
            "tlcheck: the report has no row {name} {fragment} {line} {rule}\n"
        );
    }
    format!(in alloc;
        "tlcheck: the report has no row {name} {fragment} {line} {rule}; that line breaks {rules}\n"
    )
}

/// What is shown of the row with the name, if it is one of these.
fn scene_among(
    alloc: Global,
    inputs: &Inputs,
    rows: &[Row],
    link: u16,
    picture: &Picture<'_>,
) -> Result<Option<Scene>, AllocError> {
    match row_named(rows, link, &picture.row) {
        Some(row) => scene_of(alloc, inputs.topo(), inputs.present(), &row),
        None => Ok(None),
    }
}

/// What is shown of the row that the words name, which the report of what stands has.
fn scene_in(alloc: Global, inputs: &Inputs, picture: &Picture<'_>) -> Result<Scene, Trouble> {
    let link = link_of(alloc, inputs.topo(), picture.link)?;
    let rows = scratch(alloc, inputs)?;
    match scene_among(alloc, inputs, &rows, link, picture)? {
        Some(scene) => Ok(scene),
        None => Err(Trouble::Objection(missing_row(alloc, &rows, link, picture)?)),
    }
}

/// What is drawn.
fn drawing_text(alloc: Global, scene: &Scene, drawing: Drawing) -> Result<String, AllocError> {
    match drawing {
        Drawing::Ladder => ladder_text(alloc, scene),
        Drawing::Image => image_text(alloc, scene),
        Drawing::Waveform => dump_text(alloc, scene),
    }
}

/// Writes a text into a file, and says in a sentence where that can't be done.
fn save<R: Files + AllocGlobal>(rt: &R, path: &str, text: &str) -> Result<(), Trouble> {
    match fs::write(rt, path, text) {
        Ok(()) => Ok(()),
        Err(_) => Err(Trouble::Objection(format!(in rt.alloc();
            "tlcheck: {path} can't be written\n"
        )?)),
    }
}

/// The path of the savefile of a waveform.
fn savefile_path(alloc: Global, path: &str) -> Result<String, AllocError> {
    let stem = path.strip_suffix(".vcd").unwrap_or(path);
    format!(in alloc; "{stem}.gtkw")
}

/// Writes the savefile of a waveform that stands at a path.
fn save_layout<R: Files + AllocGlobal>(rt: &R, scene: &Scene, path: &str) -> Result<(), Trouble> {
    let beside = savefile_path(rt.alloc(), path)?;
    let layout = savefile_text(rt.alloc(), scene, path, beside.as_str())?;
    save(rt, beside.as_str(), layout.as_str())
}

/// Writes a picture into its file, and what stands beside that.
fn save_all<R: Files + AllocGlobal>(
    rt: &R,
    scene: &Scene,
    drawing: Drawing,
    path: &str,
    text: &str,
) -> Result<(), Trouble> {
    save(rt, path, text)?;
    match drawing {
        Drawing::Waveform => save_layout(rt, scene, path),
        Drawing::Ladder | Drawing::Image => Ok(()),
    }
}

/// How a command ends whose picture was written, or could not be.
fn ending_of_save(saved: Result<(), Trouble>) -> Result<Ending, Fault> {
    match saved {
        Ok(()) => Ok(Ending::Came(report_of(0))),
        Err(trouble) => ending_without(trouble),
    }
}

/// Draws a scene.
fn draw<R: Files + AllocGlobal, O: ByteOut>(
    rt: &R,
    scene: &Scene,
    picture: &Picture<'_>,
    out: &mut O,
) -> Result<Ending, Fault>
    requires { O.failure_count out.old < 2 ^ 63 }
{
    let text = drawing_text(rt.alloc(), scene, picture.drawing)?;
    let Some(path) = picture.out else {
        write_all(out, text.as_bytes())?;
        return Ok(Ending::Came(report_of(0)));
    };
    ending_of_save(save_all(rt, scene, picture.drawing, path, text.as_str()))
}

/// Draws a row of the report of what stands.
fn view_in<R: Files + AllocGlobal, O: ByteOut>(
    rt: &R,
    inputs: &Inputs,
    picture: &Picture<'_>,
    out: &mut O,
) -> Result<Ending, Fault>
    requires { O.failure_count out.old < 2 ^ 63 }
{
    match scene_in(rt.alloc(), inputs, picture) {
        Ok(scene) => draw(rt, &scene, picture, out),
        Err(trouble) => ending_without(trouble),
    }
}

/// Draws a row of the report of fragments.
fn view_of<R: Files + AllocGlobal, O: ByteOut>(
    rt: &R,
    topo: &Topo,
    fragments: &[Arc<Fragment>],
    picture: &Picture<'_>,
    out: &mut O,
) -> Result<Ending, Fault>
    requires { O.failure_count out.old < 2 ^ 63 }
{
    let log = all_added(rt.alloc(), topo, fragments)?;
    view_in(rt, log.inputs(), picture, out)
}

/// Draws a row of the report of the fragments of files on a topology.
fn view_on<R: Files + Threads + Sync + AllocGlobal + Clone + Drop, G: Gauge, O: ByteOut>(
    rt: &R,
    topo: &Topo,
    words: &[&str],
    picture: &Picture<'_>,
    gauge: &mut G,
    out: &mut O,
) -> Result<Ending, Fault>
    requires { O.failure_count out.old < 2 ^ 63 }
{
    let fragments = all_fragments_of(rt, topo, words, gauge)?;
    view_of(rt, topo, &fragments, picture, out)
}

/// Draws a row of the report of the fragments of files on a file's topology, and writes it into a file or to `out`. Words stand for
/// files as for `once_of_files`, and the faults and what the gauge is told are the same; that the report has no such row, or that the
/// file can't be written, is an objection.
pub fn view_of_files<R: Files + Threads + Sync + AllocGlobal + Clone + Drop, G: Gauge, O: ByteOut>(
    rt: &R,
    topology: &str,
    words: &[&str],
    picture: &Picture<'_>,
    gauge: &mut G,
    out: &mut O,
) -> Result<Ending, Fault>
    requires { O.failure_count out.old < 2 ^ 63 }
{
    let topo = topology_of(rt, topology)?;
    view_on(rt, &topo, words, picture, gauge, out)
}
