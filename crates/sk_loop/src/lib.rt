//! The search for a choice: choices are proposed that pass the inputs found so far, and an input is looked for that speaks
//! against each.
#![tactic(auto)]

mod asks;
mod countered;
mod found;
mod pairs;
mod session;
mod solving;
mod turn;

pub use countered::{Countered, counter};
pub use found::Found;
pub use session::{Session, synthesise};
pub use sk_loop_guesses::asking::oblig;
