//! What a search answers.

use sk_clause::Log;
use sk_cnf::Encoded;
use sk_model::Choice as ChoiceOf;
use sk_oblig_queries::Query;

/// What a search for a choice found.
#[derive(Debug, Drop)]
pub enum Found {
    /// A choice that meets every obligation, and costs at most the limit on every input.
    Choice(ChoiceOf),
    /// No choice passes the listed inputs within the limit.
    Nothing,
    /// As many pairs were found as the budget of rounds says.
    Rounds,
    /// One call of the solver has learnt as many clauses as the budget says: the query, its formula, to which belongs what was
    /// learnt before, and the clauses.
    Conflicts {
        query: Query,
        formula: Encoded,
        log: Log,
    },
}
