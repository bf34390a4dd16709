//! Simplifies a graph, and sums modulo 2 in it whose terms cancel.
#![tactic(auto)]

mod choice;
mod simpler;
mod spread;
mod write;

pub use simpler::simplify_sums;
