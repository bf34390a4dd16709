//! Reading a source up to a limit, and writing a text to a sink.
#![tactic(auto)]

mod output;
mod text;

pub use output::{Delivery, deliver};
pub use text::{Reading, read_text};
