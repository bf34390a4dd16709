//! Reading, apart from any code that reads: the readers of tokens as functions on lists, and the laws that
//! join them to what it is that tokens read as a tree.
#![tactic(auto)]

pub mod laws;
mod pieces;
mod stop;

pub use pieces::{Deep, DeepPattern, Fields, Parts, Row};
pub use stop::Stop;
