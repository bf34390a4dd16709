//! Places that the targets of assignments may name over nodes, and what is stored at them.
#![tactic(auto)]

mod place;

pub use place::{Place, assign};
pub use sk_sym_stores as stores;
