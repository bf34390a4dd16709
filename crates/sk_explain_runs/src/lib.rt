//! What runs of a completion come to, and what of it plays no part.
#![tactic(auto)]

mod answer;
mod inputs;
mod reached;
mod runs;
mod told;
mod unused;

pub use told::push_runs;
