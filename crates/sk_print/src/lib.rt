//! The layout of a typed program, and when a text shows a program.
#![tactic(auto)]

pub mod examples;
mod expr;
mod item;
pub mod laws;
mod name;
mod stmt;

pub use item::print;
