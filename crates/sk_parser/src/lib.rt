//! The tree of a text, read from its tokens.
#![tactic(auto)]

mod fault;
mod item;
mod reader;
mod walk;

pub use fault::ParseFault;
pub use reader::parse;
