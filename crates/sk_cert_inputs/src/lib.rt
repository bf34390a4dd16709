//! Inputs as certificates list them: the number of an obligation, and the scalars of each argument.
#![tactic(auto)]

mod apart;
mod law;
mod listing;
mod reading;

pub use apart::are_apart;
pub use law::listed_again;
pub use listing::listed;
pub use reading::inputs_listed;
