//! A formula that asks for a choice and grows by one input after another.
#![tactic(auto)]

mod asking;
mod moving;

pub use asking::Asking;
pub use sk_oblig as oblig;
