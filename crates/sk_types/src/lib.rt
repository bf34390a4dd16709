//! The program that a tree means: names at the top, items, bodies, and `check`.
#![tactic(auto)]

mod bodies;
mod items;
mod meant;
mod names;
mod place;
mod signature;
mod steps;

pub use meant::check;
