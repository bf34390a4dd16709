//! What a completion that costs least is, and laws of it, with nothing to run.
#![tactic(auto)]

ghost use Rattle.sk_min_laws.specs.Laws.{BestWhereNonePasses, GreatestIsReached, GreatestIsWithin};

/// The greatest cost of inputs is at most a number exactly where none costs more, and it is the cost of one of them, unless
/// it is 0.
pub fn greatest_is_reached()
    ensures within { GreatestIsWithin }
    ensures reached { GreatestIsReached }
{}

/// A choice is the best one where none passes some inputs within its greatest cost less 1.
pub fn best_where_none_passes()
    ensures { BestWhereNonePasses }
{}
