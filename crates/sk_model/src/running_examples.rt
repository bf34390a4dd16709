//! What small programs do when they are run. Each fact is computed by the checker.

ghost use Rattle.sk_model.specs.RunningExamples.{NumberExamples, ArrayExamples, BoundExamples, RefExamples, TargetExamples, EndExamples, UnfilledExamples, ChoiceExamples};

/// Sums wrap, quotients truncate toward zero, and what is not needed is not evaluated.
pub fn numbers()
    ensures { NumberExamples }
{}

/// Sums and shifts of bits, literals at arrays, indexes and slices.
pub fn arrays()
    ensures { ArrayExamples }
{}

/// A run fails where a bound on turns or on calls is passed.
pub fn bounds()
    ensures { BoundExamples }
{}

/// `ref` parameters are copied back in order.
pub fn refs()
    ensures { RefExamples }
{}

/// The order in which an assignment is run.
pub fn targets()
    ensures { TargetExamples }
{}

/// A run is done, failed or skipped.
pub fn ends()
    ensures { EndExamples }
{}

/// A repeat by a constant does all its copies, and a `reorder` of one statement that; by a hole, or of two, they fail.
pub fn unfilled()
    ensures { UnfilledExamples }
{}

/// What open programs do under a choice.
pub fn choices()
    ensures { ChoiceExamples }
{}
