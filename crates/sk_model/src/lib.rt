//! What a typed program means: its expansion, its sites, its fillings, its runs, and when it meets
//! its harnesses.
#![tactic(auto)]

mod expanded;
pub mod filling_examples;
pub mod filling_laws;
mod outcome;
pub mod running_examples;
pub mod running_laws;

pub use expanded::{Choice, Expanded, Input, Obligation, Pair, Site};
pub use outcome::Outcome;
