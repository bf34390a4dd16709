//! Runs typed programs as their meaning says.
#![tactic(auto)]

mod activation;
mod bits;
mod call;
mod entry;
mod location;
mod machine;
mod memory;
mod number;
mod operator;
mod part;
mod record;
mod row;
mod stop;
mod value;

pub use entry::{Logged, exec, run_with_log};
