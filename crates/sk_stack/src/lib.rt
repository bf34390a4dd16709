//! How much stack a process may take, and the word for a process that may take less than a run needs.
#![tactic(auto)]

mod limit;
mod process;
#[cfg(test)]
mod tests;

pub use limit::{least_message, short_limit, stack_limit};
pub use process::short_of_process;
