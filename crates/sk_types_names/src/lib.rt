//! Tables of names, constants, the own types of expressions, and what forms want of their parts.
#![tactic(auto)]

mod env;
mod listed;
mod named;
mod number;
mod numbers;
mod own;
mod rules;
mod scope;

pub use env::{Env, Names};
pub use listed::{Listed, Named, are_distinct};
pub use named::StructTable;
pub use numbers::Numbers;
pub use own::{is_harness, reference_meant, reference_to, struct_meant};
pub use rules::{
    BIT, INT, binary_wants, boxed, copied, cut, element_wanted, fault, field_found, firm, hole_at,
    indexed, is_type, may_keep, may_pass, named_at, null_at, number_at, numbered, pattern_at,
    typed, unary_wants,
};
pub use scope::Scope;
