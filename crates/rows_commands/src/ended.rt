//! How a line ends on a text in memory.
use crate::counting::Counting;
use crate::fakes::{FakeSink, FakeSource};
use crate::halting::Halting;
use crate::settings::Settings;
use row_files::{Ended, head_of, words_of};
use sk_app::{Ending, StdSink, StdSource, message, run, status};
use sk_base::{List, MemSink, MemSource};
use sk_explain::{KeptSink, KeptSource, explain};
use sk_watch::Silent;
use std::alloc::{AllocError, Global};

/// Runs a line on a text.
pub fn run_line(
    alloc: Global,
    line: &[u8],
    text: Vec<u8>,
    settings: Settings,
) -> Result<Ended, AllocError> {
    let words = words_of(alloc, line)?;
    if settings.counted {
        run_counted(alloc, words.as_slice(), text, settings)
    } else if settings.explained {
        run_explained(alloc, words.as_slice(), text, settings)
    } else if settings.adapted {
        run_adapted(alloc, words.as_slice(), text, settings)
    } else {
        run_in_memory(alloc, words.as_slice(), text, settings)
    }
}

// The streams are those in memory.
fn run_in_memory(
    alloc: Global,
    words: &[String],
    text: Vec<u8>,
    settings: Settings,
) -> Result<Ended, AllocError> {
    let (mut source, mut sink) = streams_of(alloc, text, settings);
    let ending = run(alloc, words, &mut source, &mut sink, &mut Silent);
    let output = Vec::from_slice(alloc, sink.sink().bytes())?;
    told(alloc, &ending, output)
}

// The streams in memory, as they are set.
fn streams_of(
    alloc: Global,
    text: Vec<u8>,
    settings: Settings,
) -> (FakeSource<MemSource>, FakeSink<MemSink>) {
    let Settings {
        source,
        sink,
        blanks,
        gives_zero,
        is_full,
        ..
    } = settings;
    let source = MemSource::new(List::from_vec(text), source.fails, source.step);
    let sink = MemSink::new(alloc, sink.fails, sink.step);
    (
        FakeSource::new(source, blanks, gives_zero),
        FakeSink::new(sink, is_full),
    )
}

// The streams are a reader and a writer, behind the adapters of standard input and output.
fn run_adapted(
    alloc: Global,
    words: &[String],
    text: Vec<u8>,
    settings: Settings,
) -> Result<Ended, AllocError> {
    let Settings {
        source,
        sink,
        blanks,
        gives_zero,
        is_full,
        ..
    } = settings;
    let reader = StdSource::new(Halting::reader(text, source));
    let mut source = FakeSource::new(reader, blanks, gives_zero);
    let mut writer = Halting::writer(alloc, sink);
    let mut sink = FakeSink::new(StdSink::new(&mut writer), is_full);
    let ending = run(alloc, words, &mut source, &mut sink, &mut Silent);
    told(alloc, &ending, writer.into_bytes())
}

// The streams are those in memory, and what comes is what is told to people of the ending.
fn run_explained(
    alloc: Global,
    words: &[String],
    text: Vec<u8>,
    settings: Settings,
) -> Result<Ended, AllocError> {
    let (source, sink) = streams_of(alloc, text, settings);
    let mut source = KeptSource::new(alloc, source);
    let mut sink = KeptSink::new(alloc, sink);
    let ending = run(alloc, words, &mut source, &mut sink, &mut Silent);
    let (Some(text), Some(answer)) = (source.kept(), sink.kept()) else {
        return Err(AllocError);
    };
    let told_of = explain(alloc, words, text, answer, &ending)?;
    let body = Vec::from_slice(alloc, told_of.as_bytes())?;
    told(alloc, &ending, body)
}

// The streams are those in memory, and what comes is what a watcher was told.
fn run_counted(
    alloc: Global,
    words: &[String],
    text: Vec<u8>,
    settings: Settings,
) -> Result<Ended, AllocError> {
    let (mut source, mut sink) = streams_of(alloc, text, settings);
    let mut watcher = Counting::new(alloc);
    let ending = run(alloc, words, &mut source, &mut sink, &mut watcher);
    let body = watcher.told()?;
    told(alloc, &ending, body)
}

// How a line ended, with what came.
fn told(alloc: Global, ending: &Ending, body: Vec<u8>) -> Result<Ended, AllocError> {
    let message = message(alloc, ending)?;
    let head = head_of(alloc, status(ending), message.as_bytes())?;
    Ok(Ended { head, body })
}
