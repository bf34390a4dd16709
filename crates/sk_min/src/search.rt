//! Where a search for a least completion stands.

use crate::answer::Least;
use sk_base::List;
use sk_clause::Log;
use sk_cnf::Encoded;
use sk_loop::Session;
use sk_model::{Choice, Pair};
use sk_oblig_queries::Query;

/// The session of a search, the pairs so far, and the last choice that is known to meet every obligation.
#[derive(Drop)]
pub(crate) struct State {
    pub(crate) session: Session,
    pub(crate) pairs: List<Pair>,
    pub(crate) best: Choice,
}

/// What one turn of a search leads to.
#[derive(Drop)]
pub(crate) enum Turn {
    /// A choice that costs less.
    Lower(State),
    /// The search has ended.
    Ended(Least),
}

/// What the search for the greatest cost of a choice found.
#[derive(Drop)]
pub(crate) enum Raised {
    /// The greatest cost.
    Top {
        pairs: List<Pair>,
        best: Choice,
        value: u64,
    },
    /// A budget is spent.
    Ended(Least),
}

/// What one search for an input that costs more found.
#[derive(Drop)]
pub(crate) enum Costlier {
    /// The cost of such an input, which stands behind the pairs.
    Cost(u64),
    /// There is none.
    None,
    /// There is one, and with it as many pairs as the budget of rounds says.
    Rounds,
    /// The budget of conflicts is spent.
    Conflicts {
        query: Query,
        formula: Encoded,
        log: Log,
    },
}
