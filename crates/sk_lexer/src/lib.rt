//! The tokens of a text.
#![tactic(auto)]

mod fault;
mod lexer;
mod piece;
mod spelling;

pub use fault::LexFault;
pub use lexer::tokens;
