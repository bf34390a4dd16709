//! Proofs that a completion is right, and that none costs less, each a formula with the log that refutes it.
#![tactic(auto)]

mod certified;
mod certifying;
mod lower;
mod proving;
mod stop;
mod upper;

pub use certified::Certified;
pub use certifying::certify;
