//! Simplifies a graph by rules, until none fits.
#![tactic(auto)]

mod place;
mod reading;
mod rebuild;
mod reduced;
mod rules;

pub use rebuild::{Simplified, simplify};
