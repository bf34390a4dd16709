//! The values of a call: reads them from words, and writes what a run gives.
#![tactic(auto)]

mod arguments;
mod fault;
mod number;
mod scalar;
mod value;
mod writer;

pub use arguments::read_arguments;
pub use fault::ArgumentFault;
pub use value::read_value;
pub use writer::{push_run, push_value, run_text};
