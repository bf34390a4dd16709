//! Programs without costs: a search for a choice in one of them need not go on to a cheaper one.
#![tactic(auto)]

mod free;
mod laws;

pub use free::is_free;
pub use laws::{free_costs_nothing, free_is_best};
