//! Whether two formulas are the same.

ghost use Rattle.std.specs.Prelude.{◌≡◌, ◌↔◌, IsTrue};

use sk_clause::{ClauseList, Lit};
use sk_cnf::Encoded;

// Whether two clauses have the same literals in the same order.
fn is_same_clause(one: &[Lit], other: &[Lit]) -> bool
    ensures { IsTrue result ↔ (one.now ≡ other.now) }
{
    one == other
}

// Whether two lists have the same clauses in the same order.
fn is_same_list(one: &ClauseList, other: &ClauseList) -> bool
    ensures { IsTrue result ↔ (one.now ≡ other.now) }
{
    if one.len() != other.len() {
        return false;
    }
    for i in 0..one.len() {
        let first = one.get(i);
        let second = other.get(i);
        if !is_same_clause(first, second) {
            return false;
        }
    }
    true
}

/// Whether two formulas have as many variables, the same names and the same clauses.
pub(crate) fn is_same(one: &Encoded, other: &Encoded) -> bool
    ensures { IsTrue result ↔ (one.now ≡ other.now) }
{
    one.clauses.vars() == other.clauses.vars()
        && one.names.as_slice() == other.names.as_slice()
        && is_same_list(one.clauses.list(), other.clauses.list())
}
