//! What the lines `all` and `why` do for a text: its completions, or why it has none.
#![tactic(auto)]

pub mod laws;
mod lines;
mod listings;
mod reasons;

pub use listings::all_text;
pub use reasons::{Reasons, why_text};
