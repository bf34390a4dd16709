//! Pairs of a choice and an input, and the inputs that there are. Each fact is computed by the checker.

ghost use Rattle.sk_min_examples.specs.Paired.{CountExamples, HonestExamples, RoundExamples, CompletionExamples, QueryExamples, BudgetExamples};

/// How many inputs programs have, and which list is of all of them.
pub fn counts()
    ensures { CountExamples }
{}

/// Which pairs are honest: the input speaks against the choice, and none before it does.
pub fn honest()
    ensures { HonestExamples }
{}

/// Which pair is of a round with a limit.
pub fn rounds()
    ensures { RoundExamples }
{}

/// Which choices complete, and when none passes.
pub fn completions()
    ensures { CompletionExamples }
{}

/// Which queries pairs lead to.
pub fn queries()
    ensures { QueryExamples }
{}

/// When a budget is spent, and when there is room for a further pair.
pub fn budgets()
    ensures { BudgetExamples }
{}
