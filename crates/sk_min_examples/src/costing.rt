//! What choices cost, and which one costs least. Each fact is computed by the checker.

ghost use Rattle.sk_min_examples.specs.Cheapest.{FreeExamples, GreatestExamples, BestExamples, ShortExamples, LimitExamples, AnswerExamples};

/// Which programs have no costs.
pub fn free()
    ensures { FreeExamples }
{}

/// The greatest cost on listed inputs.
pub fn greatest()
    ensures { GreatestExamples }
{}

/// Which completion costs least, and within which limit none passes.
pub fn best()
    ensures { BestExamples }
{}

/// What is known of the best choice where a budget of rounds is spent.
pub fn short()
    ensures { ShortExamples }
{}

/// Which limit a query has while a best choice is known.
pub fn limits()
    ensures { LimitExamples }
{}

/// What the answers of a search tell.
pub fn answers()
    ensures { AnswerExamples }
{}
