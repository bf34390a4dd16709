//! Which sites of an expanded program stand under a choice.
#![tactic(auto)]

mod marks;
mod walk;
mod zeroes;

pub use marks::marks_of;
pub use zeroes::canonical;
