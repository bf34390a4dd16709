//! Inputs that are guessed before a formula asks for one.
#![tactic(auto)]

mod guessing;
mod pattern;

pub use guessing::guess;
pub use sk_oblig_asking as asking;
