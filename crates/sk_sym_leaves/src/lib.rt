//! Expressions over the nodes of a graph whose parts are shapes that are given: variables, operators and elements.
#![tactic(auto)]

mod elements;
mod operators;
mod variables;

pub use elements::{element, slice};
pub use operators::{convert, operate, operate_one, width_is};
pub use variables::variable;
