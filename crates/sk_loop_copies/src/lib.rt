//! Copies of choices, of inputs and of formulas.
#![tactic(auto)]

mod formulas;
mod inputs;

pub use formulas::{copy_clauses, copy_encoded};
pub use inputs::{copy_choice, copy_input, copy_value};
