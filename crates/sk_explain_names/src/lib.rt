//! Where the names stand that break a rule at the top, as fields, parameters or results.
#![tactic(auto)]

mod asked;
mod blocks;
mod constants;
mod declared;
mod dropped;
mod implements;
mod pieces;
mod signatures;
mod tell;
mod twice;
mod types;

pub use asked::push_unasked;
pub use constants::{push_not_constant, push_not_length};
pub use dropped::push_dropped;
pub use tell::{tell_nowhere, tell_twice_at, tell_type_at};
