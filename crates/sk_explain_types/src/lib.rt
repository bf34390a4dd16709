//! What is wanted where a type cannot stand, and what stands there.
#![tactic(auto)]

mod advice;
mod finding;
mod own;
mod pieces;
mod search;
mod statements;
mod table;
mod tell;
mod top;
mod types;

pub use tell::tell_finding;
