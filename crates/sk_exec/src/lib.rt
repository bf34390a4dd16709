//! Direct runs: what a line `exec` does for a text.
#![tactic(auto)]

mod executing;
mod fault;
pub mod laws;
mod names;

pub use executing::{Executed, execute};
pub use fault::ExecFault;
pub use names::{Callee, callee_of, is_ordinary};
