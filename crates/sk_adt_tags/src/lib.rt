//! Whether a program uses the tags of algebraic types as `switch` and `new V` do.
#![tactic(auto)]

mod expr;
mod fault;
mod ground;
mod role;
mod stmt;
mod test;

pub use fault::TagFault;
pub use test::tagged;
