//! The checker of logs: whether each clause of a log follows by reverse unit propagation from the clauses that are
//! given and the log before it. It shares no code with the solver whose logs it checks.
#![tactic(auto)]

mod checker;
mod codes;
mod lists;
mod log;
mod look;
mod packed;
mod store;
mod trail;
mod values;
mod watches;

pub use log::{each_follows, refutes};
