//! Runs the functions of an expanded program over the nodes of a graph.
#![tactic(auto)]

mod begin;
mod call;
mod entry;
mod outcome;
mod payment;

pub use entry::execute;
pub use outcome::SymOutcome;
