//! A call's own variables, and what it gives.
#![tactic(auto)]

mod ended;
mod frame;

pub use frame::{Caller, enter, give, leave};
