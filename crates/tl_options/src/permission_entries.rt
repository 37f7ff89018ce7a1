//! The entries of the permission rules, the manager rules and that of monitors.

pub(crate) const P1: &str = "\
P1: an Acquire grows from more than is held

An Acquire grows from more than its client can hold: BtoT where that is N. On a strict link it
must grow from just what its client holds, so NtoB or NtoT of a block that is held has it too.

    fragment cpu0 1 0 99999
    10 A 7 2 6 0 1000 ff 0
    end

Rows: cpu0 1 2 P1. Run: rows/cases/growing_from_what_is_not_held.

- Topic: permission transitions.
- Designs: a Probe took the block away while the upgrade was waiting, and it still goes out as
  BtoT; a denied Grant is taken for one that gives.
- Look at: what last set what the client can hold of this block: its Acquire, its Grant that was
  not denied, its ProbeAck or its Release.
- Echoes: what the client can hold is then what it claimed, so another client's Grant may have
  M1.
";

pub(crate) const P2: &str = "\
P2: a ProbeAck or Release of more than is held

A ProbeAck or a Release says that its client held more of the block than it can: T where that is
B or N, or B where it is N. On a strict link it must say just what its client held.

    fragment cpu0 1 0 99999
    10 C 6 1 6 0 1000 0
    end

Rows: cpu0 1 2 P2. Run: rows/cases/release_of_what_was_never_held.

A lawful design may have this row too. An Acquire lowers what its client can hold to what it
grows from, as soon as it is accepted, and in one cycle the order is A to E. So a ProbeAck that
waits on C has the row where an Acquire of what it keeps is accepted before it, or in its cycle:

    14 A 7 2 6 0 1000 ff 0
    16 C 4 0 6 0 1000 0

This is AcquirePerm BtoT, and the ProbeAck TtoB that waited. Nothing follows from it; on a
strict link the Acquire has P1. Run: rows/cases/acquire_before_the_probe_ack_that_waits.

- Topic: permission transitions.
- Designs: a block is written back after a Probe has taken it; a block is released twice; the
  param comes from the Probe and not from the state of the line.
- Look at: what last set what the client can hold of this block, as at P1.
- Echoes: what the client can hold is then what this message keeps, so a ProbeAck TtoT or BtoB
  makes way for M1. In a capture that does not begin at reset, every block that was held has it.
";

pub(crate) const P3: &str = "\
P3: a ProbeAck without a Probe

A ProbeAck has no open Probe on its block.

    fragment cpu0 1 0 99999
    10 C 4 5 6 0 1000 0
    end

Rows: cpu0 1 2 P3. Run: rows/cases/answer_to_no_probe.

- Topic: Probe.
- Designs: a Probe is answered twice, from the cache and from its write-back queue; the address
  is not kept.
- Look at: the last Probe of this block on this link, and the last ProbeAck.
- Echoes: where the address is wrong, the true Probe stays open: P5 at the next Probe of its
  block, M2 at the next Grant of it.
";

pub(crate) const P4: &str = "\
P4: a ProbeAck keeps more than the cap

A ProbeAck keeps more of the block than the cap of the open Probe allows.

    fragment cpu0 1 0 99999
    10 A 7 1 6 0 1000 ff 0
    11 D 4 0 6 0 1 0 0
    12 E 1
    13 B 6 2 6 0 1000 ff 0
    14 C 4 0 6 0 1000 0
    end

Rows: cpu0 1 6 P4. Run: rows/cases/block_kept_in_spite_of_a_probe.

- Topic: Probe, cap.
- Designs: a cache reads toN as toB; it answers with the state before the Probe.
- Look at: the param of the open Probe, and the second half of this message's param.
- Echoes: the client can still hold the block, so the Grant that the Probe was for has M1.
";

pub(crate) const P5: &str = "\
P5: a second Probe of a block

A Probe comes while one is open on its block at this client.

    fragment cpu0 1 0 99999
    10 B 6 2 6 0 1000 ff 0
    11 B 6 2 6 0 1000 ff 0
    end

Rows: cpu0 1 3 P5. Run: rows/cases/second_probe_of_a_block.

- Topic: own profile, after the concurrency rules.
- Designs: a manager serves two Acquires of one block at once; a Probe is sent again after a
  timeout.
- Look at: the Probe before, and whether its ProbeAck was recorded or has another address.
- Echoes: the second Probe replaces the first, so the second of two ProbeAcks has P3.
";

pub(crate) const P6: &str = "\
P6: a second Acquire of a block

An Acquire comes while an Acquire of this client is open on the block.

    fragment cpu0 1 0 99999
    10 A 6 1 6 0 1000 ff 0
    11 A 6 1 6 1 1000 ff 0
    end

Rows: cpu0 1 3 P6. Run: rows/cases/two_acquires_of_one_block.

- Topic: own profile, after the concurrency rules.
- Designs: two misses of one block are not merged, a load and a prefetch often; an upgrade is
  sent while the first Acquire waits.
- Look at: the Acquire before, and whether its Grant came back on its source.
- Echoes: none, where both are granted.
";

pub(crate) const P7: &str = "\
P7: a Release of a block that is being acquired

A Release comes while an Acquire of this client is open on the block.

    fragment cpu0 1 0 99999
    10 A 6 1 6 0 1000 ff 0
    11 C 6 5 6 0 1000 0
    end

Rows: cpu0 1 3 P7. Run: rows/cases/release_of_a_block_being_acquired.

- Topic: own profile, after the concurrency rules.
- Designs: a line that waits for an upgrade is chosen as a victim.
- Look at: the open Acquire, and whether its Grant came back on its source.
- Echoes: none.
";

pub(crate) const P8: &str = "\
P8: a Release of the block is open

An Acquire, a Release or a ProbeAck comes while this client has a Release without its ReleaseAck
on the block.

    fragment cpu0 1 0 99999
    10 C 6 5 6 0 1000 0
    11 A 6 1 6 0 1000 ff 0
    end

Rows: cpu0 1 3 P8. Run: rows/cases/acquire_before_the_release_ack.

A lawful design may have this row too. In one cycle the order is A to E, so a Release is still
open for the beats on A, B and C in the cycle of its ReleaseAck. A cache that takes the
ReleaseAck and sends an Acquire or a ProbeAck of the block in the same cycle has the row:

    12 A 6 1 6 0 1000 ff 0
    12 D 6 0 6 0 0 0 0

This is AcquireBlock NtoT, and the ReleaseAck. Nothing follows from it. Run:
rows/cases/acquire_in_the_cycle_of_the_release_ack.

- Topic: own profile, after the concurrency rules.
- Designs: a miss does not look into the write-back queue; a Probe of a block in that queue is
  answered at once and not after the ReleaseAck.
- Look at: the last Release of the block on C, and whether its ReleaseAck came back on its
  source.
- Echoes: it is often one itself: of a U1 that took the ReleaseAck, or of an S5 on another
  source.
";

pub(crate) const M1: &str = "\
M1: a Grant beside another holder

A Grant that is not denied gives T where another client of the manager can hold B or T, or gives
B where another can hold T. Two clients may then hold a block of which one writes.

It is about two clients, so no fragment shows it by itself. The smallest capture has two:

    fragment cpu0 1 0 99999
    10 A 7 1 6 0 1000 ff 0
    20 D 4 0 6 0 1 0 0
    end
    fragment cpu1 1 0 99999
    11 A 7 1 6 0 1000 ff 0
    30 D 4 0 6 0 2 0 0
    end

With both fragments in one call of once its row is cpu1 1 3 M1. Run:
rows/cases/grants_to_two_writers. More captures of two clients are tested in the crates.

- Topic: coherence; over all clients of the manager, and a denied Grant: own profile.
- Designs: a directory forgets a sharer; a Grant goes out before the ProbeAck is in; a manager
  takes a client that may drop blocks in silence for one that has dropped this block, without a
  Probe.
- Look at: at each other client, what last set what it can hold of the block (as at P1), and
  whether it was probed since.
- Echoes: each further Grant of the block, until the other client has given it up.
";

pub(crate) const M2: &str = "\
M2: a Grant while a Probe is open

A Grant, denied or not, comes while any client of the manager has an open Probe on its block.

    fragment cpu0 1 0 99999
    10 A 7 1 6 0 1000 ff 0
    11 B 6 2 6 0 1000 ff 0
    12 D 4 0 6 0 1 0 0
    end

Rows: cpu0 1 4 M2. Run: rows/cases/grant_before_the_probe_ack.

- Topic: own profile, after the concurrency rules.
- Designs: a manager does not wait for the last of several ProbeAcks, or counts one twice.
- Look at: the Probes of the block at all clients, and which has no ProbeAck yet.
- Echoes: M1 on the same beat, where the client that is probed can still hold the block.
";

pub(crate) const M3: &str = "\
M3: a Probe while a Grant is open

A Probe comes while any client of the manager has a Grant without its GrantAck on the block.

    fragment cpu0 1 0 99999
    10 A 7 1 6 0 1000 ff 0
    11 D 4 0 6 0 1 0 0
    12 B 6 2 6 0 1000 ff 0
    end

Rows: cpu0 1 4 M3. Run: rows/cases/probe_before_the_grant_ack.

A lawful design may have this row too. In one cycle the order is A to E over all clients, so a
Grant is still open for the beats on B in the cycle of its GrantAck. A manager that takes the
GrantAck and sends a Probe of the block in the same cycle has the row:

    12 B 6 2 6 0 1000 ff 0
    12 E 1

This is ProbeBlock toN, and the GrantAck. Nothing follows from it. Run:
rows/cases/probe_in_the_cycle_of_the_grant_ack.

- Topic: own profile, after the concurrency rules.
- Designs: a manager begins the next transfer of a block when the Grant is sent, and not at its
  GrantAck.
- Look at: the Grants of the block at all clients, and which has no GrantAck yet.
- Echoes: it is often one itself: of an S9 on another sink, or of a GrantAck that was not
  recorded.
";

pub(crate) const X1: &str = "\
X1: a monitor flags the beat

A watch that the user attached flags the beat. The row has the monitor's number as a fifth word.
A budget flags each beat of its class after the first LIMIT of them; an after each beat of its
second class after one of its first. Later beats of a burst count too.

No fragment shows it by itself, since monitors are attached by scripts. The smallest script is

    add 51
    fragment dma0 1 0 99999
    10 A 4 0 3 0 1000 ff 0
    end
    attach 5 budget dma0 A 4 0
    publish

By run its row is dma0 1 2 X1 5. Run:
rows/cases/get_past_its_budget.

- Topic: own profile.
- Designs: what the watch was made for.
- Look at: the watch.
- Echoes: none.
";
