//! The heap of a program that is run over the nodes of a graph.
#![tactic(auto)]

mod fields;
mod front;
mod heap;
mod read;
mod retaken;
mod slot;
mod write;
mod zero;

pub use heap::SymHeap;
