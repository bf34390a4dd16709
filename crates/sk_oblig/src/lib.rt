//! The queries of the search as formulas.
#![tactic(auto)]

mod asked;
mod formulas;
mod inputs;
mod judging;
mod plain;
mod range;
mod wanted;

pub use formulas::{formula, watched_formula};
pub use inputs::{bad_said, input_of};
pub use judging::cost_of;
pub use range::in_range;
pub use wanted::is_fine;
