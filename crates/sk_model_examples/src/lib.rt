//! Small programs, and what must hold of them: inputs, obligations, what breaks them, what they cost. The checker computes
//! each fact. There is nothing to run.
#![tactic(auto)]

mod deciding;

pub use deciding::{breaking, choices, costs, inputs, obligations, tables};
