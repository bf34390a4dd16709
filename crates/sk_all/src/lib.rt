//! Why an expanded program has no completion.
#![tactic(auto)]

mod answer;
mod reasons;

pub use answer::Why;
pub use reasons::why;
pub use sk_loop as session;
