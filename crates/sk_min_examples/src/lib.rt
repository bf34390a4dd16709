//! Computed examples of what is asked, of pairs, of costs and of the least completion. The checker computes each fact. There is
//! nothing to run.
#![tactic(auto)]

mod costing;
mod pairing;
mod querying;

pub use costing::{answers, best, free, greatest, limits, short};
pub use pairing::{budgets, completions, counts, honest, queries, rounds};
pub use querying::{bad, clauses, holding, leaves, said, wanted, widths};
