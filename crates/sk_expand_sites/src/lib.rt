//! The sites of an expanded program.
#![tactic(auto)]

mod fault;
mod listed;
mod lister;
mod listing;
mod sizes;

pub use fault::SitesFault;
pub use listing::sites_of;
pub use sizes::hole_bits;
