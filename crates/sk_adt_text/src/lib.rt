//! What a line `lower` does for a text: the plain form of its algebraic types, read, typed and written.
#![tactic(auto)]

mod form;
pub mod laws;
mod lowering;
mod meaning;

pub use lowering::{Lowering, lowered_text};
