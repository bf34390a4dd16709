//! What the layout of a program shows when it is read again.
#![tactic(auto)]

pub mod laws;
