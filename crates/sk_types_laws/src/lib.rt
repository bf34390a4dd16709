//! Typing: what a tree becomes, as a function of it, and the laws that this is what it means.
#![tactic(auto)]

mod env;
mod fault;
mod found;
pub mod laws;

pub use env::{Constant, Env, Heading, Meant};
pub use fault::{Rule, TypeFault, Typing};
pub use found::{Called, Found, View, Wants};
