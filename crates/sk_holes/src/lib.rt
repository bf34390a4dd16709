//! Fills the sites of expanded programs.
#![tactic(auto)]

mod fault;
mod filler;
mod program;
mod range;
mod statement;

pub use fault::FillFault;
pub use program::fill;
