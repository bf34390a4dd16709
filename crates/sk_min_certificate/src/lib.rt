//! The text of the certificate of what the search for a least completion answers.
#![tactic(auto)]

mod certification;
mod certifying;
mod claims;
mod listing;
mod numbers;

pub use certification::Certification;
pub use certifying::{best_certification, none_certification};
pub use sk_min as min;
