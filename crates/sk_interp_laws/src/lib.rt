//! The steps of a run: what a run stores, decides, pays and calls, statement by statement, and how many of these a log keeps.
#![tactic(auto)]

pub mod examples;
mod laws;
mod log;
mod step;

pub use laws::{logs_keep_the_first_steps, runs_without_steps_are_runs};
pub use log::Log;
pub use step::{Step, What};
