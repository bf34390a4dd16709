//! How a function departs from the one that it implements.
#![tactic(auto)]

mod differences;
mod headings;
mod tell;
mod types;

pub use tell::push_implemented;
