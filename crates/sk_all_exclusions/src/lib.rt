//! Clauses that exclude listed choices from a formula, and all that agree with one of them where its sites stand.
#![tactic(auto)]

mod excluding;
pub mod laws;
mod listed;

pub use excluding::exclude;
pub use listed::Listed;
