//! The completion that costs least.
#![tactic(auto)]

mod answer;
mod descent;
mod raise;
mod search;

pub use answer::Least;
pub use descent::least;
