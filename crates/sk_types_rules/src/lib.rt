//! Which typed program a tree means: the rules of types, names and scopes.
#![tactic(auto)]

pub mod examples;
mod rules;
mod scope;

pub use rules::{
    Class, Fit, Own, choice, class_of, element_of, fit_of, fits, flipped, hole_takes, in_range,
    loose_takes, number_fits, number_own, number_takes, operand, operation_own, operator_of,
    result_of, result_own, ty_eq, unary_of, unary_own,
};
pub use scope::{Place, Variable, is_taken, lookup};
