//! Whether an input of an obligation speaks against a choice, as a node of a graph.
#![tactic(auto)]

mod agree;
mod checking;
mod ending;

pub use checking::check;
pub use sk_oblig_arguments as arguments;
pub use sk_sym as sym;
