//! Faults of texts: which line is at fault, and why.

use crate::advice::{kind_advice, line_advice};
use crate::causes::{Advice, Cause};
use crate::fields::{Form, field_at, slip_in};
use crate::forms::{HEADER, LINK_LINE, MANAGER_LINE, STRICT_LINE, form_of_beat, form_of_command};
use crate::kinds::kind_of;
use tl_beats::FragmentFault;
use tl_script::{Role, ScriptFault};
use tl_show::{first_line, line_at, lines_from};
use tl_text::line;
use tl_topology::TopoFault;

/// Whether the line before the one with this number is the last that a text may have.
fn is_behind_end(text: &[u8], number: u64) -> bool {
    number > 1 && line_at(text, number - 1) == b"end".as_slice()
}

/// Where a fragment's text stands.
#[derive(Clone, Copy, Debug, PartialEq, Eq)]
pub enum Home {
    /// In a file of its own.
    File,
    /// After the line of a command.
    Script,
}

fn plain<'a>(found: &'static str, wanted: &'static str) -> Cause<'a> {
    Cause::Plain(Advice::new(found, wanted))
}

/// Why the last line of a file is cut off.
fn cut_cause<'a>(own: &[u8]) -> Cause<'a> {
    if own.is_empty() {
        plain(
            "the end of the file without a line 'end'",
            "'end' and a newline as the last line",
        )
    } else if own == b"end".as_slice() {
        plain("no newline after the last line", "a newline there")
    } else {
        plain(
            "the end of the file within this line",
            "whole lines, with 'end' as the last one",
        )
    }
}

/// Why a fragment is cut off.
fn cut_fragment_cause<'a>(own: &[u8], home: Home) -> Cause<'a> {
    match home {
        Home::File => cut_cause(own),
        Home::Script => plain(
            "BYTES that stop short of the fragment's line 'end'",
            "as BYTES the size of the fragment (wc -c tells it)",
        ),
    }
}

/// Why a text goes on after its line end.
fn surplus_cause<'a>(home: Home) -> Cause<'a> {
    match home {
        Home::File => plain("more text after the line 'end'", "nothing after it"),
        Home::Script => plain(
            "BYTES that go past the fragment's line 'end'",
            "as BYTES the size of the fragment (wc -c tells it)",
        ),
    }
}

/// Why a line is not one of its form, or this where it is.
fn form_cause<'a>(form: Form, own: &'a [u8], otherwise: Cause<'a>) -> Cause<'a> {
    match slip_in(form, own) {
        Some(slip) => Cause::Slip(slip),
        None => otherwise,
    }
}

/// Why a line is no header.
fn header_cause(own: &[u8]) -> Cause<'_> {
    if field_at(own, 0) == b"fragment".as_slice() {
        form_cause(
            HEADER,
            own,
            plain("a FIRST that is above LAST", "a FIRST of at most LAST"),
        )
    } else {
        plain(
            "a first line that is no header",
            "fragment LINK NUMBER FIRST LAST",
        )
    }
}

/// Why a line is no beat.
fn beat_cause(own: &[u8]) -> Cause<'_> {
    let no_beat = plain(
        "a line that is no beat, and not 'end'",
        "CYCLE, a channel from A to E, and the fields of that channel",
    );
    match form_of_beat(own) {
        Some(form) => form_cause(form, own, no_beat),
        None => no_beat,
    }
}

/// The number of the line of a fragment that is at fault, from 1.
pub fn line_of(fault: FragmentFault) -> u64 {
    u64::from(fault.number().unwrap_or(1))
}

/// Why a line of a fragment is refused that is spelled wrong.
fn spelling_cause(text: &[u8], number: u64, home: Home) -> Cause<'_> {
    let own = line_at(text, number);
    if is_behind_end(text, number) {
        return surplus_cause(home);
    }
    if let Some(advice) = line_advice(own) {
        return Cause::Plain(advice);
    }
    if number == 1 {
        header_cause(own)
    } else {
        beat_cause(own)
    }
}

/// Why a fragment's text is refused.
pub fn fragment_cause(text: &[u8], fault: FragmentFault, home: Home) -> Cause<'_> {
    let number = line_of(fault);
    if number == 1
        && let Some(advice) = kind_advice(kind_of(text), Role::Fragment)
    {
        return Cause::Plain(advice);
    }
    match fault {
        FragmentFault::BadHeader | FragmentFault::BadField(_) => {
            spelling_cause(text, number, home)
        }
        FragmentFault::Truncated(_) => cut_fragment_cause(line_at(text, number), home),
        FragmentFault::NotRising(_) => plain(
            "a cycle and channel that do not come after those of the line before",
            "cycles that rise, and within a cycle channels that rise from A to E",
        ),
        FragmentFault::OutOfRange(_) => Cause::Range(first_line(text)),
        FragmentFault::TooManyBeats => plain(
            "more than 65536 beats",
            "several fragments, whose ranges follow one another",
        ),
        FragmentFault::TooLong => length_cause(Role::Fragment),
        _ => plain("a text that can't be read", "a text that can be read"),
    }
}

/// Why a file is too long.
pub fn length_cause<'a>(role: Role) -> Cause<'a> {
    match role {
        Role::Topology => plain(
            "more than 1048576 bytes",
            "a topology of at most 1048576 bytes, as the first path",
        ),
        Role::Fragment => plain(
            "more than 8388608 bytes",
            "several fragments, whose ranges follow one another",
        ),
        Role::Script => plain(
            "more than 67108864 bytes",
            "a shorter script, or fragments in files of their own for tlcheck once",
        ),
    }
}

/// Whether the line of a link has the word strict in its place.
fn is_strict(own: &[u8]) -> bool {
    field_at(own, 7) == b"strict".as_slice()
}

/// The form of a link's line.
fn link_form(own: &[u8]) -> Form {
    if is_strict(own) {
        STRICT_LINE
    } else {
        LINK_LINE
    }
}

/// Why a line is none of a link's.
fn link_cause<'a>(text: &[u8], own: &'a [u8]) -> Cause<'a> {
    if is_strict(own) && first_line(text) == b"topo 1".as_slice() {
        return plain(
            "strict, in a topology of version 1",
            "topo 2 as the first line",
        );
    }
    form_cause(
        link_form(own),
        own,
        plain("a line that is no link's", LINK_LINE.text),
    )
}

/// Whether a line begins as that of a manager.
fn is_manager(own: &[u8]) -> bool {
    field_at(own, 0) == b"manager".as_slice()
}

/// Whether a line begins as that of a link.
fn is_link(own: &[u8]) -> bool {
    field_at(own, 0) == b"link".as_slice()
}

/// Why a line of a topology that is no link's is no manager's.
fn manager_cause(own: &[u8]) -> Cause<'_> {
    let no_line = plain(
        "a line that is no manager's, no link's, and not 'end'",
        "manager NAME BLOCK, link NAME MANAGER LEVEL WIDTH MAXSIZE SOURCES, or end",
    );
    if is_manager(own) {
        form_cause(MANAGER_LINE, own, no_line)
    } else {
        no_line
    }
}

/// Why a line is none of a topology.
fn declaration_cause<'a>(text: &[u8], number: u64, own: &'a [u8]) -> Cause<'a> {
    if is_behind_end(text, number) {
        return surplus_cause(Home::File);
    }
    if let Some(advice) = line_advice(own) {
        return Cause::Plain(advice);
    }
    if number == 1 {
        return plain("a first line that is no topology's", "topo 1 or topo 2");
    }
    if is_link(own) {
        return link_cause(text, own);
    }
    manager_cause(own)
}

/// Why a line of a topology is refused that is spelled wrong, or that the text ends in.
fn bad_line_cause(text: &[u8], number: u64) -> Cause<'_> {
    if number == 1
        && let Some(advice) = kind_advice(kind_of(text), Role::Topology)
    {
        return Cause::Plain(advice);
    }
    let rest = lines_from(text, number);
    match line(rest) {
        Some((own, _)) => declaration_cause(text, number, own),
        None if is_behind_end(text, number) => surplus_cause(Home::File),
        None => cut_cause(rest),
    }
}

/// Why a topology's text is refused.
pub fn topology_cause(text: &[u8], fault: TopoFault) -> Cause<'_> {
    let own = line_at(text, fault.number().unwrap_or(1));
    match fault {
        TopoFault::BadLine(number) => bad_line_cause(text, number),
        TopoFault::NameTwice(_) => plain(
            "a NAME that an earlier link or manager has",
            "a NAME of its own for each link and manager",
        ),
        TopoFault::BadWidth(_) => form_cause(
            link_form(own),
            own,
            plain("a WIDTH that does not fit", "a power of two from 1 to 64"),
        ),
        TopoFault::BadBlock(_) => form_cause(
            MANAGER_LINE,
            own,
            plain("a BLOCK that does not fit", "a power of two from 8 to 4096"),
        ),
        TopoFault::BadSize(_) => form_cause(
            link_form(own),
            own,
            plain(
                "a MAXSIZE that does not fit this link",
                "on ul 2^MAXSIZE of at most WIDTH, on c of at least BLOCK",
            ),
        ),
        TopoFault::StrictLevel(_) => plain(
            "strict on a link of level ul or uh",
            "strict on links of level c alone",
        ),
        TopoFault::NoManager(_) => Cause::Manager(field_at(own, 2)),
        TopoFault::TooManyLinks(_) => plain("the 257th link", "at most 256 links"),
        TopoFault::TooManyManagers(_) => plain("the 65th manager", "at most 64 managers"),
        TopoFault::Memory => plain("a text that finds no memory", "more memory"),
    }
}

/// Why a line is no command.
fn command_cause(own: &[u8], is_behind_fragment: bool) -> Cause<'_> {
    let form = form_of_command(own);
    if is_behind_fragment && form.is_none() {
        return plain(
            "no command, right after a fragment",
            "a command; check BYTES of the one before (wc -c tells it)",
        );
    }
    if let Some(advice) = line_advice(own) {
        return Cause::Plain(advice);
    }
    match form {
        Some(form) => form_cause(form, own, order_cause(own)),
        None => plain(
            "a first word that is no command",
            "add, replace, withdraw, clear, region, unregion, attach, retune, detach or publish",
        ),
    }
}

/// Why a line is no command whose fields are spelled as they should be.
fn order_cause<'a>(own: &[u8]) -> Cause<'a> {
    match field_at(own, 0) {
        b"attach" => plain(
            "a monitor that is neither budget nor after",
            "budget or after, after NUMBER",
        ),
        _ => plain("a FIRST that is above LAST", "a FIRST of at most LAST"),
    }
}

/// Why a script ends inside a command.
fn cut_command_cause(rest: &[u8]) -> Cause<'_> {
    match line(rest) {
        Some((own, behind)) => Cause::Short {
            announced: field_at(own, 1),
            behind: behind.len(),
        },
        None => plain(
            "no newline after the last line",
            "a newline after each command",
        ),
    }
}

/// What stands before the place where a script stops.
#[derive(Clone, Copy, Debug, PartialEq, Eq)]
pub enum Before {
    Nothing,
    /// A command without a fragment.
    Command,
    /// A command with the bytes of its fragment.
    Fragment,
}

/// Why a script stops before the rest of it.
pub fn stop_cause(rest: &[u8], before: Before, fault: ScriptFault) -> Cause<'_> {
    if before == Before::Nothing
        && let Some(advice) = kind_advice(kind_of(rest), Role::Script)
    {
        return Cause::Plain(advice);
    }
    match fault {
        ScriptFault::BadCommand => command_cause(first_line(rest), before == Before::Fragment),
        ScriptFault::Truncated => cut_command_cause(rest),
    }
}
