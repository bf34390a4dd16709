//! Runs the expressions and statements of a program over the nodes of a graph.
#![tactic(auto)]

mod activation;
mod calling;
mod failing;
mod leaf;
mod pattern;
mod step;

pub use activation::Activation;
pub use sk_sym_forms::{frames, steps};
