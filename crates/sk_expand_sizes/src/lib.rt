//! How many steps and records the runs of an expanded program may take.
//!
//! A function's own statements and expressions are counted once for each place that calls it, by how often that place
//! is run. Each of them takes a step at least, and counting ends where there are more steps than may be: so no more
//! than that many are looked at, however often functions call each other.
#![tactic(auto)]

mod answer;
mod caller;
mod count;
mod entry;
mod fault;
mod tally;
mod walk;

pub use answer::Sizes;
pub use entry::sizes;
pub use fault::SizeFault;
