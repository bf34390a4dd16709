//! Whether a certificate is right: each of its parts is looked at, with neither the solver nor the search below.
#![tactic(auto)]

mod accepting;
mod formulas;
mod parts;
mod queries;
mod refuting;
mod same;
mod stop;
mod verdict;

pub use accepting::accepts;
pub use sk_check_laws::Reason;
pub use verdict::Verdict;
