//! The front of the program: from a text and the options of a line to the bounds, the typed program and its expansion.
#![tactic(auto)]

mod expansion;
mod fault;
mod program;
mod tree;

pub use expansion::{Expansion, expansion_of, sized_expansion_of};
pub use fault::{SketchFault, TextFault};
pub use program::{Typed, program_of};
