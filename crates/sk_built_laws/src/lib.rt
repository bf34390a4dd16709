//! Laws of the texts that the program takes: what their expansions are asked for holds of them. Nothing is to run.
#![tactic(auto)]

pub mod laws;
