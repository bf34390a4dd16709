//! What is stored in a run over the nodes of a graph: assignments to variables, fields and elements, and new records.
#![tactic(auto)]

mod creation;
mod form;
mod kind;
mod location;
mod part;
mod replacement;
mod storing;

pub use creation::{Init, make};
pub use location::{Location, Root};
pub use storing::store;
