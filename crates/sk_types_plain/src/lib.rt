//! The plain form of trees, in which fewer forms say the same; and the test that the targets of steps hold nothing
//! that is evaluated twice.
#![tactic(auto)]

mod copy;
mod expr;
mod item;
mod pattern;
mod single;
mod steady;
mod step;
mod stmt;

pub use expr::copy_name;
pub use item::plain;
pub use steady::unsteady_step;
