//! Captures without an end, from standard input or from files.

ghost use Rattle.std.specs.Prelude.{◌≡◌, ◌<◌, ◌^◌, OnOk};

use crate::midway::law_line;
use crate::reports::{Ending, ending_without, report_of};
use crate::setup::{Setup, setup_of};
use crate::share::share_of;
use std::alloc::{AllocError, Global};
use std::rt::Files;
use std::sync::Arc;
use std::thread::Threads;
use tl_beats::Watch;
use tl_check::{PlainRows, RowForm};
use tl_files::{Chain, Fault, files_of, topology_of};
use tl_options::StreamOptions;
use tl_show::ShownStream;
use tl_stream::{
    Listener, Parsers, Share, Source, Stream, StreamStop, TellFault, Teller, stream_end,
    stream_input, stream_sources, tell_line,
};
use tl_text::{ByteIn, ByteOut, CountedReader, write_all};

/// An input of files.
type FilesIn<'a, R> = Source<CountedReader<Chain<'a, R>>>;

/// The files that a word stands for as one input, of which the first is opened.
fn source_of<'a, R: Files + Threads + Sync + AllocGlobal + Clone + Drop>(
    rt: &'a R,
    word: &str,
    workers: u8,
) -> Result<FilesIn<'a, R>, Fault> {
    let chain = Chain::new(rt, files_of(rt, word)?)?;
    Ok(Source::new(&Parsers::new(rt, workers), CountedReader::new(chain)))
}

/// An input for each word, of which the first files are opened before one is read.
fn sources_of<'a, R: Files + Threads + Sync + AllocGlobal + Clone + Drop>(
    rt: &'a R,
    words: &[&str],
    workers: u8,
) -> Result<Vec<FilesIn<'a, R>>, Fault> {
    let mut sources = Vec::new(rt.alloc());
    for word in words {
        sources.push(source_of(rt, *word, workers)?)?;
    }
    Ok(sources)
}

/// What is told of a stream of which no fragment has come, in a form, with the watches of monitors, of a share of managers.
fn teller_of<'f, F: RowForm>(
    alloc: Global,
    stream: Stream,
    share: Share,
    watches: &[(u32, Watch)],
    form: &'f mut F,
) -> Result<Teller<'f, F>, AllocError> {
    let mut teller = Teller::new(alloc, stream, form)?;
    teller.check_only(share);
    for (number, watch) in watches {
        teller.watch(*number, *watch)?;
    }
    Ok(teller)
}

/// Streams the inputs of words, or standard input where there is none or `-` alone.
fn read_all<
    R: Files + Threads + Sync + AllocGlobal + Clone + Drop,
    F: RowForm,
    I: ByteIn,
    O: ByteOut,
    E: Listener,
>(
    rt: &R,
    teller: &mut Teller<'_, F>,
    streams: Streams<'_>,
    input: &mut I,
    out: &mut O,
    err: &mut E,
) -> Result<Option<StreamStop>, Fault>
    requires out { O.failure_count out.old < 2 ^ 63 }
    requires err { E.failure_count err.old < 2 ^ 63 }
    ensures quiet { OnOk result (O.failure_count out.new ≡ O.failure_count out.old) }
    ensures err { E.failure_count err.new < 2 ^ 63 }
{
    let parsers = Parsers::new(rt, streams.workers);
    match streams.words {
        [] | ["-"] => Ok(stream_input(&parsers, teller, input, out, err)?),
        words => {
            let mut sources = sources_of(rt, words, streams.workers)?;
            Ok(stream_sources(&parsers, teller, &mut sources, out, err)?)
        }
    }
}

/// Ends a stream, with these last lines before its own.
fn ended<R: Files + AllocGlobal, F: RowForm, O: ByteOut>(
    rt: &R,
    teller: Teller<'_, F>,
    stop: Option<StreamStop>,
    told: &str,
    out: &mut O,
) -> Result<Ending, TellFault>
    requires { O.failure_count out.old < 2 ^ 63 }
{
    match stream_end(rt.alloc(), teller, stop, told, out)? {
        Some(rows) => Ok(Ending::Came(report_of(rows))),
        None => Ok(Ending::Stopped),
    }
}

/// The streams of a command in a form, after its setup.
fn stream_in_form<
    R: Files + Threads + Sync + AllocGlobal + Clone + Drop,
    F: RowForm,
    I: ByteIn,
    O: ByteOut,
    E: Listener,
>(
    rt: &R,
    mut teller: Teller<'_, F>,
    streams: Streams<'_>,
    input: &mut I,
    out: &mut O,
    err: &mut E,
) -> Result<Ending, Fault>
    requires out { O.failure_count out.old < 2 ^ 63 }
    requires err { E.failure_count err.old < 2 ^ 63 }
    ensures { E.failure_count err.new < 2 ^ 63 }
{
    write_all(out, streams.refused.as_bytes())?;
    let stop = read_all(rt, &mut teller, streams, input, out, err)?;
    Ok(ended(rt, teller, stop, streams.told, out)?)
}

/// What is streamed, and what is written before and after it.
#[derive(Clone, Copy)]
struct Streams<'a> {
    /// The words that name the inputs.
    words: &'a [&'a str],
    /// How many threads parse fragments beside the first.
    workers: u8,
    /// The lines of the refused commands of the setup.
    refused: &'a str,
    /// The lines before the last one.
    told: &'a str,
}

/// Streams the fragments of files, or of standard input where none is named or `-` alone, and writes each row once it is certain. A
/// word is one input: its file, or the files of a folder or of a list one after another. Where managers are named, the fragments of
/// other known links are passed over. With workers, so many threads parse fragments beside this one. `err` hears of each fragment, and
/// first of the law by which rows stand, where the capture begins in the middle of a run. The fault of the topology, of the setup, or of the first file of an input that can't be opened; want of memory, or a write that fails.
pub fn stream_of_files<
    R: Files + Threads + Sync + AllocGlobal + Clone + Drop,
    I: ByteIn,
    O: ByteOut,
    E: Listener,
>(
    rt: &R,
    topology: &str,
    options: &StreamOptions<'_>,
    input: &mut I,
    out: &mut O,
    err: &mut E,
) -> Result<Ending, Fault>
    requires out { O.failure_count out.old < 2 ^ 63 }
    requires err { E.failure_count err.old < 2 ^ 63 }
    ensures { E.failure_count err.new < 2 ^ 63 }
{
    let alloc = rt.alloc();
    let topo = Arc::new(alloc, topology_of(rt, topology)?)?;
    let share = match share_of(alloc, &topo, &options.managers) {
        Ok(share) => share,
        Err(trouble) => return ending_without(trouble),
    };
    let Setup {
        regions,
        watches,
        refused,
        settlements,
    } = setup_of(rt, &topo, options.setup)?;
    let streams = Streams {
        words: &options.inputs,
        workers: options.workers,
        refused: refused.as_str(),
        told: settlements.as_str(),
    };
    if let Some(law) = options.midway {
        tell_line(law_line(law), err);
    }
    if options.show {
        let mut form = ShownStream::new(alloc, &topo)?;
        let stream = Stream::new(alloc, topo, regions, options.midway)?;
        let teller = teller_of(alloc, stream, share, &watches, &mut form)?;
        stream_in_form(rt, teller, streams, input, out, err)
    } else {
        let stream = Stream::new(alloc, topo, regions, options.midway)?;
        let mut form = PlainRows;
        let teller = teller_of(alloc, stream, share, &watches, &mut form)?;
        stream_in_form(rt, teller, streams, input, out, err)
    }
}
