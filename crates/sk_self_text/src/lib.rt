//! The sketch of a line `self`, and the summary of its completion.
#![tactic(auto)]

mod sketch;
mod summary;

pub use sketch::self_sketch;
pub use summary::self_text;
