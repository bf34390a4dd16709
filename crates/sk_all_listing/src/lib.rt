//! The completions of an expanded program, of which no two agree where their sites stand.
#![tactic(auto)]

mod answer;
mod order;
mod proposing;
mod rounds;

pub use answer::Listing;
pub use rounds::all;
pub use sk_all as causes;
