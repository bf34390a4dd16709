//! How a line ends on a text in memory.
use row_files::{Ended, head_of, words_of};
use sk_app::{message, run, status};
use sk_base::{List, MemSink, MemSource};
use sk_watch::Silent;
use std::alloc::{AllocError, Global};

/// Runs a line on a text.
pub fn run_line(alloc: Global, line: &[u8], text: Vec<u8>) -> Result<Ended, AllocError> {
    let words = words_of(alloc, line)?;
    let mut source = MemSource::new(List::from_vec(text), List::new(alloc), u32::MAX);
    let mut sink = MemSink::new(alloc, List::new(alloc), u32::MAX);
    let ending = run(alloc, words.as_slice(), &mut source, &mut sink, &mut Silent);
    let message = message(alloc, &ending)?;
    let head = head_of(alloc, status(&ending), message.as_bytes())?;
    let body = Vec::from_slice(alloc, sink.bytes())?;
    Ok(Ended { head, body })
}
