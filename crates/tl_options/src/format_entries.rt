//! The entries of the format rules and of the rule of later beats.

pub(crate) const F1: &str = "\
F1: the opcode is no message here

The opcode of a head is no message of its channel at the link's level; on a ul or uh link, any
beat on B, C or E. Such a beat breaks no other rule and is a message of one beat. It opens and
closes nothing.

    fragment dma0 1 0 99999
    10 A 6 0 6 0 1000 ff 0
    end

Rows: dma0 1 2 F1. Run: rows/cases/acquire_on_ul.

- Topic: message opcodes; which level has which: own profile.
- Designs: a cache sits on a port that speaks TL-UL; a field is not driven and reads as a
  reserved code.
- Look at: the level of the link in the topology, then the table of opcodes.
- Echoes: each beat of a burst is a row. A reply that is not read leaves its request open (S1 at
  the next use of the source), and a request that is not read leaves its reply alone (S2, S5).
";

pub(crate) const F2: &str = "\
F2: the param is not lawful

The param of a message is none of those in the table of params; for a message without params,
not 0.

    fragment dma0 1 0 99999
    10 A 4 1 3 0 1000 ff 0
    end

Rows: dma0 1 2 F2. Run: rows/cases/get_with_a_param.

- Topic: param fields; which are lawful: own profile.
- Designs: the param of the message before is left on the wires; a ReleaseAck copies the param
  of its Release; an encoding of a Grow is used for a Shrink.
- Look at: the param of this beat; whether the recorder writes 0 for a field that the message
  lacks.
- Echoes: such a param names no permission. The beat has no P1, P2, P4 or M1, a Probe with it
  limits no ProbeAck, and a Grant with it gives nothing, so that what the client does next with
  the block has P1 or P2.
";

pub(crate) const F3: &str = "\
F3: the address is not aligned

The address of a message on A, B or C is not a multiple of 2^size.

    fragment dma0 1 0 99999
    10 A 4 0 3 0 4 ff 0
    end

Rows: dma0 1 2 F3. Run: rows/cases/misaligned_get.

- Topic: address alignment.
- Designs: a DMA rounds the size up and leaves the address as it is; a cache sends the address
  of the word that missed in place of the block's; a burst that wraps, which TileLink does not
  have.
- Look at: address and size of this beat.
- Echoes: none of its own. The address is rounded down for lanes, regions and blocks.
";

pub(crate) const F4: &str = "\
F4: the size is above the link's largest

The size of a message on A, B, C or D is above MAXSIZE of the link.

    fragment dma0 1 0 99999
    10 A 4 0 4 0 1000 ff 0
    end

Rows: dma0 1 2 F4. Run: rows/cases/get_above_the_largest_size.

- Topic: size field; the limit: own profile.
- Designs: a fragmenter is missing between a wide client and a narrow manager.
- Look at: MAXSIZE in the topology, which is an exponent: 3 is 8 bytes.
- Echoes: the reply of the same size is a row too. A data message has as many beats as its size
  asks, so a shorter one takes the beats after it: U1.
";

pub(crate) const F5: &str = "\
F5: the mask is not that of the active lanes

On A and B the mask is not exactly the active lanes; of a PutPartialData it has a lane that is
not active. Active are all lanes where 2^size is the link's width or more, else the 2^size lanes
from the address modulo the width on, rounded down to 2^size. Bit i is lane i. Each beat of a
burst is judged, by its head's fields.

    fragment dma0 1 0 99999
    10 A 4 0 2 0 1000 ff 0
    end

Rows: dma0 1 2 F5. Run: rows/cases/mask_wider_than_the_size.

- Topic: byte lanes; rounding a misaligned address: own profile.
- Designs: the mask of a narrow access is not moved to the address's lanes; byte enables are
  sent with a PutFullData; a Get, an Acquire or a Probe has a mask of 0, as if masks were for
  data alone.
- Look at: size, address and mask of this beat, and WIDTH in the topology.
- Echoes: none.
";

pub(crate) const F6: &str = "\
F6: corrupt on a message without data

The corrupt bit is high on a message of A, B, C or D that carries no data.

    fragment dma0 1 0 99999
    10 A 4 0 3 0 1000 ff 1
    end

Rows: dma0 1 2 F6. Run: rows/cases/corrupt_get.

- Topic: corrupt field.
- Designs: corrupt is tied to an error of the data path whatever the message is, or stays from a
  burst before.
- Look at: the opcode. A Grant, a Release and a ProbeAck are without data, GrantData,
  ReleaseData and ProbeAckData with it.
- Echoes: none.
";

pub(crate) const F7: &str = "\
F7: denied data that is not corrupt

A beat of D with data (AccessAckData, GrantData) has denied high and corrupt low. Each beat of a
burst is judged by its own two bits.

    fragment dma0 1 0 99999
    5 A 4 0 3 0 1000 ff 0
    10 D 1 0 3 0 0 1 0
    end

Rows: dma0 1 3 F7. Run: rows/cases/denied_data_that_is_sound.

- Topic: denied and corrupt fields; for a denied Grant: own profile.
- Designs: an error device sets denied alone; corrupt is set on the last beat of a burst alone.
- Look at: both bits on every beat of the reply.
- Echoes: one row for each such beat.
";

pub(crate) const F8: &str = "\
F8: the size is not the block

An Acquire, Probe, ProbeAck, Release, Grant or ReleaseAck has a size other than the manager's
block.

    fragment cpu0 1 0 99999
    10 A 7 0 5 0 1000 ff 0
    end

Rows: cpu0 1 2 F8. Run: rows/cases/acquire_of_half_a_block.

- Topic: transfer operations; one block size: own profile.
- Designs: a cache with other lines than its outer cache's; the size of a ReleaseAck or a Grant
  is not driven.
- Look at: BLOCK of the manager in the topology. Where every Acquire is a row, that is what is
  wrong.
- Echoes: each message of the same transfer is a row.
";

pub(crate) const F9: &str = "\
F9: the source is not one of the link's

The source of a message on A, B, C or D is not below SOURCES of the link.

    fragment dma0 1 0 99999
    10 A 4 0 3 2 1000 ff 0
    end

Rows: dma0 1 2 F9. Run: rows/cases/source_past_the_last.

- Topic: source field.
- Designs: an identifier has a bit too many behind an arbiter; a Probe carries another client's
  source.
- Look at: SOURCES in the topology, which is a number and not the highest source: 2 allows 0 and
  1.
- Echoes: the reply on the same source is a row too.
";

pub(crate) const F10: &str = "\
F10: no region permits the access

On A, where the manager has regions: no one region that permits the kind of access has all
2^size bytes from the address, rounded down to its size, on. Get is get; PutFullData and
PutPartialData are put; ArithmeticData and LogicalData are atomic; Intent is hint; an Acquire is
cache. A manager without regions has no such row.

No fragment shows it by itself, since regions are set by scripts. The smallest script is

    add 51
    fragment dma0 1 0 99999
    10 A 4 0 3 0 1000 ff 0
    end
    region m0 0 0 fff g----
    publish

By run its row is dma0 1 2 F10. Run:
rows/cases/get_outside_every_region. More captures under regions are tested in the crates.

- Topic: own profile.
- Designs: an access goes to an address that nothing answers; a cache acquires from a device; an
  access crosses from one region into the next.
- Look at: the regions, then address, size and kind.
- Echoes: none.
";

pub(crate) const U1: &str = "\
U1: a later beat differs from its head

A later beat of a burst has another opcode, param, size, source or address than its head (on A,
B, C), or another opcode, param, size, source, sink or denied (on D).

    fragment cpu0 1 0 99999
    10 A 0 0 4 0 1000 ff 0
    11 A 0 0 4 0 1008 ff 0
    end

Rows: cpu0 1 3 U1. Run: rows/cases/address_that_counts_in_a_burst.

- Topic: serialization.
- Designs: the address counts up through a burst; an arbiter changes its client inside a burst;
  a beat was lost or doubled, by the design or by the recorder.
- Look at: the head of this burst, 2^size / WIDTH beats in all, and WIDTH in the topology. Count
  them.
- Echoes: a lost beat makes the burst take the first beat after it. This one is the U1, and it
  is not read as what it is: a Grant gives nothing (P1, P2 later, S9 at its GrantAck), a reply
  leaves its request open (S1), a ReleaseAck its Release (P8, S6). If that was a burst, it is
  short of a beat in turn, and each burst after it.
";
