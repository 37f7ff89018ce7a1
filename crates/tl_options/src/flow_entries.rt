//! The entries of the flow rules.

pub(crate) const S1: &str = "\
S1: the source is in flight

A request on A uses a source whose request has no reply yet. It is free from the head of its
reply on.

    fragment dma0 1 0 99999
    10 A 4 0 3 0 1000 ff 0
    11 A 4 0 3 0 2000 ff 0
    end

Rows: dma0 1 3 S1. Run: rows/cases/source_used_again.

- Topic: source identifiers.
- Designs: an identifier is handed out again too early, by a timeout or a retry; it is taken in
  the very cycle of the reply (A stands before D in a cycle).
- Look at: the request before on this source, and whether its reply was recorded or went to
  another source.
- Echoes: the new request replaces the old one, so the second of two replies has S2.
";

pub(crate) const S2: &str = "\
S2: a reply without a request

A reply on D, other than ReleaseAck, has no open request on its source.

    fragment dma0 1 0 99999
    10 D 1 0 3 0 0 0 0
    end

Rows: dma0 1 2 S2. Run: rows/cases/reply_without_a_request.

- Topic: responses.
- Designs: a reply is sent twice; its source is not mapped back behind an arbiter; a burst is
  sent as several replies. A capture that does not begin at reset has it for all that was in
  flight.
- Look at: the last request and the last reply on this source.
- Echoes: a Grant with S2 is of no block and gives nothing: P1, P2 later. Where the source is
  wrong, the true request stays open: S1, and for an Acquire P6 and P7 on its block.
";

pub(crate) const S3: &str = "\
S3: a reply of another kind

A reply on D is of a kind that its request does not have: see the table of replies.

    fragment dma0 1 0 99999
    10 A 4 0 3 0 1000 ff 0
    11 D 0 0 3 0 0 0 0
    end

Rows: dma0 1 3 S3. Run: rows/cases/get_answered_without_data.

- Topic: operations and their responses.
- Designs: an error is answered by an AccessAck whatever was asked; a Put is answered with data;
  an AcquirePerm is answered with GrantData.
- Look at: the request, which is the last on A with this source.
- Echoes: the request is closed all the same. A Grant that answers no Acquire is of no block:
  P1, P2 later.
";

pub(crate) const S4: &str = "\
S4: a reply of another size

A reply on D, other than ReleaseAck, has another size than its request.

    fragment dma0 1 0 99999
    10 A 4 0 3 0 1000 ff 0
    11 D 1 0 2 0 0 0 0
    end

Rows: dma0 1 3 S4. Run: rows/cases/reply_of_half_the_size.

- Topic: size of responses.
- Designs: a fragmenter answers with the size of its pieces; the size is not kept with the
  request.
- Look at: the request, and how many beats came back.
- Echoes: the reply's own size says how many beats it has. A burst sent with a smaller size is
  several replies, each but the first an S2; with a larger size it takes the beats after it,
  U1.
";

pub(crate) const S5: &str = "\
S5: a ReleaseAck without a Release

A ReleaseAck has no open Release on its source.

    fragment cpu0 1 0 99999
    10 D 6 0 6 0 0 0 0
    end

Rows: cpu0 1 2 S5. Run: rows/cases/release_ack_without_a_release.

- Topic: Release.
- Designs: a ProbeAckData is answered, which it must not be; a ReleaseAck is sent twice, or with
  the source of a request on A. Sources of Releases are a space of their own.
- Look at: the last Release on this source, on C.
- Echoes: where the source is wrong, the true Release stays open: P8 on its block, S6 on its
  source.
";

pub(crate) const S6: &str = "\
S6: the source of a Release is in flight

A Release uses a source on which a Release has no ReleaseAck yet.

    fragment cpu0 1 0 99999
    10 C 6 5 6 0 1000 0
    11 C 6 5 6 0 1040 0
    end

Rows: cpu0 1 3 S6. Run: rows/cases/source_of_a_release_used_again.

- Topic: source identifiers.
- Designs: a write-back queue has one identifier for all its entries.
- Look at: the Release before on this source, and whether its ReleaseAck was recorded.
- Echoes: the new Release replaces the old one, so the second ReleaseAck has S5.
";

pub(crate) const S7: &str = "\
S7: a ReleaseAck of another size

A ReleaseAck has another size than its Release.

    fragment cpu0 1 0 99999
    10 C 6 5 6 0 1000 0
    11 D 6 0 5 0 0 0 0
    end

Rows: cpu0 1 3 F8, cpu0 1 3 S7. Run: rows/cases/release_ack_of_half_a_block.

- Topic: size of responses.
- Designs: the size of a ReleaseAck is not driven.
- Look at: the Release, which is the last on C with this source.
- Echoes: never alone. Both sizes are to be the block, so one of the two has F8.
";

pub(crate) const S8: &str = "\
S8: the sink is in use

A Grant uses a sink whose Grant has no GrantAck yet.

    fragment cpu0 1 0 99999
    10 A 7 0 6 0 1000 ff 0
    11 A 7 0 6 1 1040 ff 0
    20 D 4 1 6 0 1 0 0
    21 D 4 1 6 1 1 0 0
    end

Rows: cpu0 1 5 S8. Run: rows/cases/sink_used_again.

- Topic: sink identifiers.
- Designs: a manager frees the sink when the Grant is sent; two banks behind one link share
  their sinks.
- Look at: the Grant before with this sink on this link, and whether its GrantAck was recorded.
- Echoes: the new Grant replaces the old one: the second GrantAck has S9, and a Probe of the old
  Grant's block has no M3.
";

pub(crate) const S9: &str = "\
S9: a GrantAck without a Grant

A GrantAck has no open Grant on its sink. It may come in the cycle of the Grant's first beat.

    fragment cpu0 1 0 99999
    10 E 1
    end

Rows: cpu0 1 2 S9. Run: rows/cases/grant_ack_without_a_grant.

- Topic: Grant and GrantAck.
- Designs: a client answers each beat of a GrantData, or a ReleaseAck; the sink is not kept from
  the Grant.
- Look at: the last Grant with this sink, on D of this link.
- Echoes: where the sink is wrong, the true Grant stays open: M3 at the next Probe of its block,
  S8 at the next Grant on its sink.
";
