//! Typing of expressions: what an expression becomes where a type is wanted.
#![tactic(auto)]

mod constant;
mod elaborate;
mod parts;

pub use constant::constant_fault;
pub use elaborate::{at, called, meant_at, own_fault};
pub use parts::variable;
