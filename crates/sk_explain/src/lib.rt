//! What there is to tell people of how the program ended: lines for standard error, behind the message.
#![tactic(auto)]

mod certificates;
mod explanation;
mod kept;

pub use explanation::{Explanation, explain, explanation_of, written};
pub use kept::{KeptSink, KeptSource};
