//! Tables of rows over the graph, which programs of tests try one after another: what they tell of them, and tests at run
//! time of what calls of the graph ask.
#![tactic(auto)]

mod fault;
mod nodes;
mod report;

pub use fault::{Fault, expect};
pub use nodes::{has_bool, has_cost, has_word, is_word};
pub use report::Report;
