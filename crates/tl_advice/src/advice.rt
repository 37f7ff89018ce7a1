//! What is said of files, of lines and of edits, whatever the text is.

use crate::causes::{Advice, Cause};
use crate::kinds::Kind;
use tl_edits::EditFault;
use tl_script::Role;
use tl_topology::Topo;

/// What is said of a text of another role than its place among the words.
fn swapped_advice(is: Role, wanted: Role) -> Option<Advice> {
    let advice = match (wanted, is) {
        (Role::Topology, Role::Fragment) => Advice::new(
            "a fragment, where the topology belongs",
            "the topology as the first path, fragments after it",
        ),
        (Role::Topology, Role::Script) => Advice::new(
            "a script, where the topology belongs",
            "the topology as the first path, the script after it",
        ),
        (Role::Fragment, Role::Topology) => Advice::new(
            "a second topology, where a fragment belongs",
            "one topology as the first path, fragments after it",
        ),
        (Role::Fragment, Role::Script) => Advice::new(
            "a script, where a fragment belongs",
            "a fragment; tlcheck run TOPO SCRIPT runs a script",
        ),
        (Role::Script, Role::Topology) => Advice::new(
            "a second topology, where the script belongs",
            "one topology as the first path, the script after it",
        ),
        (Role::Script, Role::Fragment) => Advice::new(
            "a fragment, where the script belongs",
            "a script; tlcheck once TOPO FRAGMENT.. checks fragments",
        ),
        _ => return None,
    };
    Some(advice)
}

/// What is said of an empty text.
fn empty_advice(role: Role) -> Advice {
    let wanted = match role {
        Role::Topology => "topo 1, then managers and links, then end",
        Role::Fragment => "fragment LINK NUMBER FIRST LAST, then beats, then end",
        Role::Script => "commands, such as add and publish",
    };
    Advice::new("nothing: the text is empty", wanted)
}

/// What is said of a file by its kind, where that is wrong in this place.
pub fn kind_advice(kind: Kind, role: Role) -> Option<Advice> {
    let advice = match kind {
        Kind::Empty => empty_advice(role),
        Kind::Gzip => Advice::new("a gzip file", "the text in it: gunzip unpacks it"),
        Kind::Zstd => Advice::new("a zstd file", "the text in it: unzstd unpacks it"),
        Kind::Xz => Advice::new("an xz file", "the text in it: unxz unpacks it"),
        Kind::Bzip2 => Advice::new("a bzip2 file", "the text in it: bunzip2 unpacks it"),
        Kind::Utf16 => Advice::new(
            "UTF-16, which has two bytes a character",
            "ASCII: iconv -f UTF-16 -t ASCII converts it",
        ),
        Kind::Marked => Advice::new(
            "a byte order mark in front of the first word",
            "the text without it: save the file as ASCII",
        ),
        Kind::Waveform => Advice::new(
            "a waveform file (VCD)",
            "beats, as recorder/README.md says how to record them",
        ),
        Kind::Text(is) => return swapped_advice(is, role),
        Kind::Other => return None,
    };
    Some(advice)
}

/// Whether a line has two spaces in a row.
fn has_double_space(line: &[u8]) -> bool {
    let mut is_space = false;
    for byte in line {
        if is_space && *byte == b' ' {
            return true;
        }
        is_space = *byte == b' ';
    }
    false
}

/// What is said of the bytes of a line that no line may have.
fn byte_advice(line: &[u8]) -> Option<Advice> {
    if line.contains(&b'\r') {
        Some(Advice::new(
            "a carriage return: this line ends in CR LF",
            "lines that end in LF alone: dos2unix converts the file",
        ))
    } else if line.contains(&b'\t') {
        Some(Advice::new("a tab", "one space between two fields"))
    } else if line.starts_with(b"#".as_slice()) || line.starts_with(b"//".as_slice()) {
        Some(Advice::new("a comment", "no comments"))
    } else if line.iter().any(|byte| *byte < b' ' || b'~' < *byte) {
        Some(Advice::new("a character that is not ASCII", "ASCII alone"))
    } else {
        None
    }
}

/// What is said of the spaces of a line, where it has one too many.
fn space_advice(line: &[u8]) -> Option<Advice> {
    if line.is_empty() {
        Some(Advice::new("an empty line", "no empty lines"))
    } else if line.starts_with(b" ".as_slice()) {
        Some(Advice::new("a space before the first field", "no space there"))
    } else if line.ends_with(b" ".as_slice()) {
        Some(Advice::new("a space after the last field", "no space there"))
    } else if has_double_space(line) {
        Some(Advice::new("two spaces in a row", "one space between two fields"))
    } else {
        None
    }
}

/// What is said of a line, whatever text it is of.
pub fn line_advice(line: &[u8]) -> Option<Advice> {
    match byte_advice(line) {
        Some(advice) => Some(advice),
        None => space_advice(line),
    }
}

/// What is said of an edit that is refused.
fn edit_advice(fault: EditFault) -> Advice {
    match fault {
        EditFault::UnknownManager => Advice::new(
            "a manager that the topology does not have",
            "the NAME of one of its managers",
        ),
        EditFault::FragmentExists => Advice::new(
            "a second fragment of this LINK and NUMBER",
            "each fragment once, each of a link with a NUMBER of its own",
        ),
        EditFault::NoFragment => Advice::new(
            "a LINK and NUMBER that no fragment has",
            "those of a fragment that was added, and not taken away since",
        ),
        EditFault::NoRegion => Advice::new(
            "a NUMBER that no region of this manager has",
            "that of a region that was set, and not taken away since",
        ),
        EditFault::MonitorExists => Advice::new(
            "a NUMBER that an earlier attach has used",
            "a NUMBER that no attach has used",
        ),
        EditFault::NoMonitor => Advice::new(
            "a NUMBER that no monitor has",
            "that of a monitor that was attached, and not detached since",
        ),
        EditFault::WrongKind => Advice::new(
            "a monitor of kind after, which has no LIMIT",
            "the NUMBER of a monitor of kind budget",
        ),
        EditFault::LogFull => Advice::new("the 65537th edit", "at most 65536 edits"),
        _ => Advice::new(
            "an edit that finds no memory",
            "more memory, or a shorter capture",
        ),
    }
}

/// Why an edit is refused.
pub fn edit_cause(fault: EditFault, topo: &Topo) -> Cause<'_> {
    match fault {
        EditFault::UnknownLink => Cause::Link(topo),
        EditFault::RangeOverlap(number) => Cause::Overlap(number),
        EditFault::RegionOverlap(number) => Cause::Region(number),
        _ => Cause::Plain(edit_advice(fault)),
    }
}
