//! The entries of the refusals.

pub(crate) const BAD_LINE: &str = "\
1: BadLine

A line of the topology is none; the number is the line. The first line is `topo 1` or `topo 2`,
the last is `end`, and each other is one of

    manager NAME BLOCK
    link NAME MANAGER LEVEL WIDTH MAXSIZE SOURCES
    link NAME MANAGER LEVEL WIDTH MAXSIZE SOURCES strict

The last form is one after `topo 2` alone.

- Causes: two spaces, a space at an end, a tab, a carriage return, an empty line, a comment; a
  name that is not a lower-case letter and up to 15 lower-case letters, digits or _; a number in
  hexadecimal, with leading zeros or above 65536; SOURCES 0; another LEVEL than ul, uh or c; no
  line `end`, no newline after it, or bytes after that.
- Do: write the line again by the form; cat -A shows tabs and carriage returns.
";

pub(crate) const NAME_TWICE: &str = "\
2: NameTwice

A line of the topology declares a name that an earlier line declares; the number is the line.
Links and managers share one space of names. In a line it is told after 1.

- Do: rename one of the two.
";

pub(crate) const BAD_WIDTH: &str = "\
3: BadWidth

The width of a link is no power of two from 1 to 64; the number is the line. In a line it is
told after 1, 2 and 5.

- Do: give the width of the data bus in bytes: a bus of 64 bits is 8.
";

pub(crate) const BAD_BLOCK: &str = "\
4: BadBlock

The block of a manager is no power of two from 8 to 4096; the number is the line. In a line it
is told after 1 and 2.

- Do: give the block in bytes, not as an exponent: 64, not 6.
";

pub(crate) const NO_MANAGER: &str = "\
5: NoManager

No earlier line declares the manager of a link; the number is the line. In a line it is told
after 1 and 2.

- Do: put the manager's line before its links, and compare the spelling.
";

pub(crate) const TOO_MANY_LINKS: &str = "\
6: TooManyLinks

A line declares the 257th link; the number is the line. In a line it is told after all others.

- Do: check in parts. Links of different managers never meet in a rule, so give each manager a
  topology of its own.
";

pub(crate) const REGION_OVERLAP: &str = "\
7: RegionOverlap

A region shares an address with one of another number; the number is the lowest such region. It
is the answer of RegionMap in the crate tl_topology.

- Do: take the other region away first, or move one of the two.
- Today: no command answers it.
";

pub(crate) const NO_REGION: &str = "\
8: NoRegion

There is no region of this number to take away. It is the answer of RegionMap in the crate
tl_topology.

- Do: compare the number with those that were set.
- Today: no command answers it.
";

pub(crate) const TOO_MANY_MANAGERS: &str = "\
9: TooManyManagers

A line declares the 65th manager; the number is the line. In a line it is told after 1, 2 and 4.

- Do: check in parts. Managers never meet in a rule, so give some of them a topology of their
  own.
";

pub(crate) const BAD_SIZE: &str = "\
10: BadSize

MAXSIZE of a link does not fit; the number is the line. It is above 15, on ul above one beat
(2^MAXSIZE above WIDTH), or on c below a block (2^MAXSIZE below BLOCK). In a line it is told
after 1, 2, 5 and 3.

- Do: give the exponent of the largest message: 3 is 8 bytes, 6 is 64 bytes.
";

pub(crate) const BAD_HEADER: &str = "\
11: BadHeader

FIRST is above LAST in the first line of a fragment, or the line is not

    fragment LINK NUMBER FIRST LAST

- Causes: as at 12; a NUMBER of 4294967296 or more; the topology in the place of the fragment.
- Do: write the header again; FIRST and LAST are cycles, and beats on both are inside.
";

pub(crate) const BAD_FIELD: &str = "\
12: BadField

A line of a fragment is no beat; the number is the line, the header being 1. A beat is one of

    CYCLE A OPCODE PARAM SIZE SOURCE ADDRESS MASK CORRUPT
    CYCLE B OPCODE PARAM SIZE SOURCE ADDRESS MASK CORRUPT
    CYCLE C OPCODE PARAM SIZE SOURCE ADDRESS CORRUPT
    CYCLE D OPCODE PARAM SIZE SOURCE SINK DENIED CORRUPT
    CYCLE E SINK

- Causes: an address or a mask in upper case (FF), with 0x, or with leading zeros; another
  number in hexadecimal; an opcode or a param above 7, a size above 15, a source or a sink above
  65535; denied or corrupt that is not 0 or 1; a field too many or too few; two spaces, a space
  at an end, a tab, a carriage return, an empty line, a comment; anything after the line
  `end`, as where an add has too many bytes.
- Do: compare the line with the form of its channel, field by field; cat -A shows tabs and
  carriage returns.
";

pub(crate) const NOT_RISING: &str = "\
13: NotRising

A beat does not come after the beat of the line before; the number is the line. Cycles rise, and
in one cycle the channels, A to E. In a line it is told last.

- Causes: two beats of one channel in one cycle; the reply of a cycle before its request; two
  captures joined.
- Do: sort by cycle, then channel. A link accepts one beat of a channel in a cycle: two say that
  valid or ready was sampled wrong, or that two links are in one file.
";

pub(crate) const OUT_OF_RANGE: &str = "\
14: OutOfRange

The cycle of a beat is below FIRST or above LAST of the header; the number is the line. In a
line it is told after 15, 12 and 16.

- Do: widen the range in the header, or move the beat into the fragment of its range.
";

pub(crate) const TRUNCATED: &str = "\
15: Truncated

The text of a fragment ends before the newline of this line; the number is the line. It goes
before every other fault of the line, but for what stands after the line `end`, which is 12.

- Causes: the recorder was stopped before it wrote `end`; the last newline is missing; the file is
  empty (15 1); an add of a script has too few bytes.
- Do: end the text with the line `end` and its newline. To check what there is of a capture that
  was cut, drop the line that was cut and add `end`.
";

pub(crate) const TOO_MANY_BEATS: &str = "\
16: TooManyBeats

A fragment has more than 65536 beats. In a line it is told after 15 and 12.

- Do: give the beats in several fragments, of ranges that follow one another.
";

pub(crate) const READ_FAULT: &str = "\
17: ReadFault

A read of a fragment failed. It is the answer of read_fragment in the crate tl_beats; a command
tells it as 45.

- Do: as at 45.
- Today: no command answers it.
";

pub(crate) const TOO_LONG: &str = "\
18: TooLong

A fragment is longer than 8388608 bytes. It is told before anything of its text. In a script an
add or a replace of more bytes is 41.

- Do: give the beats in several fragments, of ranges that follow one another.
";

pub(crate) const WRITE_FAULT: &str = "\
19: WriteFault

A write failed, and the run ended with it. What was written is a front: of a report, which it then
is not, or of the lines of a script.

- Causes: the device is full; the reader of the pipe ended.
- Do: run it again with room for the report.
";

pub(crate) const MEMORY: &str = "\
20: Memory

Memory was refused. Nothing of a report was written. A script stops with it at the command that
had no room; the lines of the commands before it stand.

- Do: run it again with more memory, or on a shorter capture.
";

pub(crate) const UNKNOWN_LINK: &str = "\
21: UnknownLink

The header of a fragment, or a withdraw, a clear or an attach, names a link that the topology does
not declare.

- Do: compare the spelling; see that the fragment or the script goes with this topology.
";

pub(crate) const FRAGMENT_EXISTS: &str = "\
22: FragmentExists

A fragment is added under a number that its link has already.

- Do: give it another number, or replace the one that is there.
";

pub(crate) const NO_FRAGMENT: &str = "\
23: NoFragment

A fragment that is to be replaced or withdrawn is not there.

- Do: compare link and number with those that were added, and not withdrawn or cleared since.
";

pub(crate) const RANGE_OVERLAP: &str = "\
24: RangeOverlap

The range of a fragment shares a cycle with another fragment of its link; the number is the
lowest such fragment.

- Do: let ranges follow one another; a range that ends at 99 is followed by one that begins at
  100.
";

pub(crate) const REGION_OVERLAP_OF_EDIT: &str = "\
25: RegionOverlap

A region shares an address with another region of its manager; the number is the lowest such
region. A region of the same number is replaced, and not compared.

- Do: as at 7.
";

pub(crate) const NO_REGION_OF_EDIT: &str = "\
26: NoRegion

A region that is to be taken away is not there.

- Do: as at 8.
";

pub(crate) const MONITOR_EXISTS: &str = "\
27: MonitorExists

A monitor is attached under a number that was attached before, also where it was detached since.

- Do: give it another number; a retune gives a budget another limit.
";

pub(crate) const NO_MONITOR: &str = "\
28: NoMonitor

A monitor that is to be retuned or detached is not attached.

- Do: compare the number with those that were attached, and not detached since.
";

pub(crate) const WRONG_KIND: &str = "\
29: WrongKind

A monitor that has no limit, which is an after, is to be retuned.

- Do: detach it and attach another, under another number.
";

pub(crate) const LOG_FULL: &str = "\
30: LogFull

65536 edits were accepted, and there is room for no more. Of one edit it is told after all other
causes.

- Do: begin anew with what is present now.
";

pub(crate) const NOT_READY: &str = "\
31: NotReady

A report is asked for before everything that an edit touched was checked again. The publish of a
script checks it first.

- Do: recheck first.
- Today: no command answers it.
";

pub(crate) const VERSION_FULL: &str = "\
32: VersionFull

65536 reports were published, and there is room for no more. The edits of a script still count.

- Do: begin anew with what is present now.
";

pub(crate) const BOX_OUT: &str = "\
33: BoxOut

A monitor is out with a job; the number is the lowest such monitor.

- Do: hand its job in, or abandon it.
- Today: no command answers it.
";

pub(crate) const TICKETS_SPENT: &str = "\
34: TicketsSpent

There is no further number for a job.

- Do: begin anew with what is present now.
- Today: no command answers it.
";

pub(crate) const UNKNOWN_MANAGER: &str = "\
35: UnknownManager

A region that is to be set or taken away is of a manager that the topology does not declare.

- Do: compare the spelling.
";

pub(crate) const WRONG_BOX: &str = "\
36: WrongBox

A monitor is attached with a box of another watch, or with none.

- Do: hand over the boxes in the order of the lines that attach them.
- Today: no command answers it.
";

pub(crate) const STRICT_LEVEL: &str = "\
37: StrictLevel

A link of another level than `c` is declared strict; the number is the line. In a line it is told
after 1, 2, 5, 3 and 10, and before 6.

- Do: leave the word out. Strict is for a client that never drops a block in silence, and only a
  link of level `c` has blocks.
";

pub(crate) const BAD_COMMAND: &str = "\
41: BadCommand

A line of a script is no command; the script stops at it. The commands are

    add BYTES
    replace BYTES
    withdraw LINK NUMBER
    clear LINK
    region MANAGER NUMBER FIRST LAST PERMITS
    unregion MANAGER NUMBER
    attach NUMBER budget LINK CHAN OPCODE LIMIT
    attach NUMBER after LINK CHAN OPCODE CHAN OPCODE
    retune NUMBER LIMIT
    detach NUMBER
    publish

Behind the line of add and replace stand BYTES bytes, a fragment; they are at most 8388608. The
NUMBER of a region is at most 255, every other and LIMIT at most 4294967295. FIRST and LAST are
addresses, LAST not the lower. PERMITS has five places, gpahc (get, put, atomic, hint, cache), each
its letter or -. CHAN is A to E, OPCODE 0 to 7; a beat of E has opcode 0.

- Causes: two spaces, a space at an end, a tab, a carriage return, an empty line, a comment; an
  address in upper case or with 0x; leading zeros; another number in hexadecimal; an add or a
  replace of too few or too many bytes, so that the next command begins elsewhere.
- Do: compare the line with the form of its command; wc -c counts the bytes of a fragment's file.
";

pub(crate) const SCRIPT_TRUNCATED: &str = "\
42: ScriptTruncated

A script ends inside a line, or inside the bytes of a command; the script stops at it. A last line
without its newline is 42 whatever it says; an add of more than 8388608 bytes is 41 whatever
follows its line.

- Do: end the last line with a newline; compare the number of bytes with the text that follows.
";

pub(crate) const NO_SUCH_EDIT: &str = "\
43: NoSuchEdit

An audit is asked for after more edits than were accepted; the number is the one that was asked
for. A script that stops is told in its place.

- Do: ask for a number up to that of the last accepted edit; refused ones have none.
";

pub(crate) const FILE_TOO_LONG: &str = "\
44: FileTooLong

The topology file is longer than 1048576 bytes, or a script or standard input is longer than
67108864 bytes. It is told before anything of the text.

- Do: see that the words name the files in their order: the topology first. Fragments of a longer
  script may be given to once.
";

pub(crate) const FILE_FAULT: &str = "\
45: FileFault

A file cannot be opened or read: the topology, a fragment, a script, or standard input.

- Causes: the path is wrong from where the program runs; no leave to read it; a folder in the
  place of a file.
- Do: ls -l the paths. The topology is opened first, so a fault of its text goes before a
  missing fragment or script.
";
