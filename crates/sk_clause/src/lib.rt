//! Literals, clauses and what follows from clauses by propagation.
#![tactic(auto)]

mod clauses;
mod law;
mod list;
mod lit;

pub use clauses::Clauses;
pub use law::refutation_is_sound;
pub use list::ClauseList;
pub use lit::Lit;
use sk_base::List;

/// Literals of which at least one is to be true. It is read as a set: order and repeats do not matter.
pub type Clause = List<Lit>;

/// Clauses in the order in which they were derived, each from clauses that are given and from those before it.
pub type Log = ClauseList;

/// A value for each variable, by its number. Variables past the end are false.
pub type Assignment = List<bool>;
