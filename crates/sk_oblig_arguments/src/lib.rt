//! The arguments of an obligation as shapes over nodes: given values, and the scalars of an input.
#![tactic(auto)]

mod argument;
mod constant;

pub use argument::arguments;
pub use constant::constants;
