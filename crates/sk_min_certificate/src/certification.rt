//! What certifying an answer answers.

use sk_clause::Log;
use sk_cnf::Encoded;
use sk_oblig_queries::Query;

/// The text of a certificate, or what a spent budget leaves.
#[derive(Debug, Drop)]
pub enum Certification {
    /// The completed program, the lines of the completion, and its certificate; where there is no completion, the line that
    /// says so and its certificate.
    Text {
        out: Vec<u8>,
    },
    /// One call of the solver has learnt as many clauses as the budget says: the query, its formula and the clauses.
    Spent {
        query: Query,
        formula: Encoded,
        log: Log,
    },
}
