//! The expansion of a typed program: each call of a generator is a call of a copy of its own, and each repeat holds its
//! copies.
#![tactic(auto)]

mod building;
mod copies;
mod counting;
mod program;
mod repeats;
mod stop;
mod walker;

pub use program::expand;
pub use sk_expand_sizes::SizeFault;
