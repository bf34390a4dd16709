//! A graph of expressions over holes and inputs, in which equal nodes are one.
#![tactic(auto)]

mod below;
mod blank;
mod env;
mod eval;
mod graph;
mod node;
mod reach;
mod shape;
mod table;
mod value;
mod values;
pub mod word;

pub use env::Env;
pub use graph::Dag;
pub use node::{BoolId, CostId, Node, WordId};
pub use shape::{Seen, Shape, Targets};
pub use value::Value;
