//! What certificates say, and laws of it, with nothing to run.
#![tactic(auto)]

mod law;
mod reason;

pub use law::{certificates_are_right, parts_exclude};
pub use reason::Reason;
