//! What a line `check` says of its input: whether a certificate is right of the sketch before it.
#![tactic(auto)]

mod checking;
pub mod examples;
mod fault;
pub mod laws;
mod splitting;

pub use checking::{Checked, checked_text};
pub use fault::CheckFault;
