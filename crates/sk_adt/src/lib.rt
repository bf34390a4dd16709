//! Algebraic types: which tokens are their forms, and the plain tokens that take their place.
#![tactic(auto)]

mod algebraic;
mod branch;
mod build;
mod faults;
mod form;
mod piece;
mod plain;
mod push;
mod token;
mod types;
mod words;

pub use algebraic::{AdtFault, Algebraic, Lowered, Variant};
pub use plain::lower;
