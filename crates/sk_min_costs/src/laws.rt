//! Laws of programs without costs.
ghost use Rattle.sk_min_costs.specs.Laws.{FreeCostsNothing, FreeIsBest};

/// A filling of a program without costs costs nothing on any input.
pub fn free_costs_nothing()
    ensures { FreeCostsNothing }
{}

/// And so its greatest cost is 0.
pub fn free_is_best()
    ensures { FreeIsBest }
{}
