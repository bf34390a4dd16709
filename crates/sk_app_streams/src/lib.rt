//! Standard input as a source of bytes, and standard output as a sink.
#![tactic(auto)]

mod read_once;
mod std_sink;
mod std_source;
#[cfg(test)]
mod tests;
mod write_once;

pub use read_once::ReadOnce;
pub use std_sink::StdSink;
pub use std_source::StdSource;
pub use write_once::WriteOnce;
