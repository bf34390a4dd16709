//! Programs without what no run of them can reach.
#![tactic(auto)]

mod called;
mod constant;
mod held;
mod program;
mod reached;
mod renamer;
mod trimmer;

pub use program::prune;
