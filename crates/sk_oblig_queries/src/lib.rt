//! What the search asks of the solver: an input that speaks against a choice, or a choice that no listed input speaks
//! against; by which bits each is said, and what is read off an answer.
#![tactic(auto)]

mod inputs;
pub mod laws;
mod leaves;
mod listing;
mod numbers;
mod query;
mod reading;
mod slices;
mod widths;

pub use inputs::input_of_bits;
pub use leaves::leaves_of;
pub use listing::obligations;
pub use query::Query;
pub use reading::{bits_of_names, choice_of};
