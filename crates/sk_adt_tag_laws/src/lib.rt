//! Laws of programs that use algebraic types as `switch` does: laws alone, with nothing to run.
#![tactic(auto)]

mod laws;

pub use laws::{expansions_stay_tagged, filled_stay_tagged, fillings_stay_tagged, tag_examples};
