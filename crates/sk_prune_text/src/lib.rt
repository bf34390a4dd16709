//! What a line `prune` does for a text: the text of its program without what no run can reach.
#![tactic(auto)]

pub mod laws;
mod pruning;

pub use pruning::{Pruning, pruned_text};
