//! Formulas put to a solver of their own, which hands out the log by which one is refuted.
#![tactic(auto)]

mod solving;

pub use solving::refuted;
