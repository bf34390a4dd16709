//! What certifying answers.

use sk_base::List;
use sk_cert::Proof;
use sk_clause::Log;
use sk_cnf::Encoded;
use sk_oblig_queries::Query;

/// The proofs of a certificate, or what a spent budget leaves.
#[derive(Debug, Drop)]
pub enum Certified {
    /// Every proof.
    Proofs {
        /// With a choice one for each obligation, in order: no input of it speaks against the choice within the value.
        upper: List<Proof>,
        /// No choice passes the inputs within less than the value; none where the value is 0. Without a choice: no choice
        /// passes them.
        lower: Option<Proof>,
    },
    /// One call of the solver has learnt as many clauses as the budget says: the query, its formula and the clauses.
    Spent {
        query: Query,
        formula: Encoded,
        log: Log,
    },
}
