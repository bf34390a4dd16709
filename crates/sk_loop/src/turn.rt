//! The steps of a round.

use crate::found::Found;
use sk_model::Choice as ChoiceOf;

/// What the solver proposes.
#[derive(Debug, Drop)]
pub enum Proposed {
    /// A choice that passes the inputs found so far.
    Choice(ChoiceOf),
    /// Nothing: the search ends.
    Ended(Found),
}

/// What follows on a round.
#[derive(Debug, Drop)]
pub enum Turn {
    /// The search ends.
    Ended(Found),
    /// A further round.
    Again,
}
