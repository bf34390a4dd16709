//! Traces of functions: what a line `trace` does for a text.
#![tactic(auto)]

mod fault;
pub mod laws;
mod shown;
mod tracing;

pub use fault::TraceFault;
pub use tracing::{Traced, trace_text};
