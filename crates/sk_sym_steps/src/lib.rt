//! Steps of a run over the nodes of a graph: conditions, what is paid, and what is done with records.
#![tactic(auto)]

mod condition;
mod cost;
mod failure;
mod record;

pub use condition::{assert_that, assume_that};
pub use cost::pay;
pub use failure::fail_now;
pub use record::{allocate, are_kind, read_field};
