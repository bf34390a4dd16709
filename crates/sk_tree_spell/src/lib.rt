//! The kinds of the tokens that spell a tree, and the strings of a pattern.
#![tactic(auto)]

mod copy;
mod count;
mod expr;
mod fault;
mod item;
pub mod laws;
mod pattern;
mod push;
mod stmt;
mod string;

pub use copy::{copy_kind, copy_token};
pub use fault::PatternFault;
pub use item::spell;
pub use string::strings;
