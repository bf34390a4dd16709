//! That what a function does under a choice is what it does in the filling: laws alone, with nothing to run.
#![tactic(auto)]

mod laws;

pub use laws::{choices_meet_as_fillings, ordinary_runs_under_choices, runs_under_choices};
