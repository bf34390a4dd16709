//! The encoding of a graph as clauses: a formula over named bits that can be met exactly where the graph's roots are true.
#![tactic(auto)]

mod code;
mod encoder;
mod growing;
mod leaf;
mod leaves;
mod nodes;
mod signed;

pub use growing::{Encoded, Growing, encode};
pub use leaf::Leaf;
pub use leaves::are_distinct;
