//! What the search for a least completion answers.

use sk_base::List;
use sk_clause::Log;
use sk_cnf::Encoded;
use sk_model::{Choice, Pair};
use sk_oblig_queries::Query;

/// What the search for a least completion found, with the pairs of a choice and an input that speaks against it.
#[derive(Debug, Drop)]
pub enum Least {
    /// A choice that meets every obligation, its greatest cost, and none goes below that.
    Best {
        choice: Choice,
        value: u64,
        pairs: List<Pair>,
    },
    /// No choice meets every obligation.
    Nothing {
        pairs: List<Pair>,
    },
    /// As many pairs as the budget of rounds says, and the last choice that is known to meet every obligation.
    Rounds {
        pairs: List<Pair>,
        best: Option<Choice>,
    },
    /// One call of the solver has learnt as many clauses as the budget says: the query, its formula and the clauses.
    Conflicts {
        pairs: List<Pair>,
        query: Query,
        formula: Encoded,
        log: Log,
        best: Option<Choice>,
    },
}
