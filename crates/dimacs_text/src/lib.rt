//! Texts in the DIMACS format: formulas, logs of refutations, and values.
#![tactic(auto)]

mod fault;
mod law;
mod read;
mod rows;
mod show;
mod words;

pub use fault::{Fault, Flaw};
pub use law::readings_are_unique;
pub use read::{read_clauses, read_log};
pub use show::{log_text, value_text};
