//! Laws of queries: bits say each choice in range and each input, so where the clauses of a formula cannot be met, nothing
//! is what its query asks for.
ghost use Rattle.sk_oblig_queries.specs.Laws.{NothingIsBad, NothingIsBadAt, NothingIsWanted};

/// Where the clauses of a formula for `Wanted` cannot be met, no choice in range passes the listed inputs within the limit.
pub fn nothing_is_wanted()
    ensures { NothingIsWanted }
{}

/// Where the clauses of a formula for `Bad` cannot be met, no input of any obligation breaks the filling by the choice, and
/// none of a harness costs more than the limit.
pub fn nothing_is_bad()
    ensures { NothingIsBad }
{}

/// The same of `BadAt` and the inputs of its obligation.
pub fn nothing_is_bad_at()
    ensures { NothingIsBadAt }
{}
