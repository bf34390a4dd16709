//! What of an expanded program stands under a choice.
#![tactic(auto)]

mod functions;
mod hole;
mod met;
mod walker;

pub use functions::{Stood, what_stands};
pub use met::{Met, Paid};
pub use walker::Walker;
