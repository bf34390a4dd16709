//! Expressions read from tokens, and the readers of one token on which the readers of statements and items
//! stand too.
#![tactic(auto)]

mod expr;
mod operator;
mod part;
mod pattern;
pub mod token;

pub use expr::{ANY_LEVEL, expr_at, strings_at};
pub use part::ends_row;
