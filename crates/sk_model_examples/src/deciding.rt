//! What must hold of small programs. Each fact is computed by the checker.

ghost use Rattle.sk_model_examples.specs.Holding.{ChoiceExamples, ObligationExamples, InputExamples, BreakExamples, CostExamples, TableExamples};

/// A choice has one value for each site, below its size.
pub fn choices()
    ensures { ChoiceExamples }
{}

/// A program must hold its harnesses and its references, in the order of its functions.
pub fn obligations()
    ensures { ObligationExamples }
{}

/// An input has the number of an obligation, and an argument in range for each parameter.
pub fn inputs()
    ensures { InputExamples }
{}

/// A harness that fails breaks a program, and so does a function that answers what its reference does not, unless the
/// reference is skipped.
pub fn breaking()
    ensures { BreakExamples }
{}

/// What inputs cost, and the greatest cost over all of them.
pub fn costs()
    ensures { CostExamples }
{}

/// Which tables of inputs a program passes.
pub fn tables()
    ensures { TableExamples }
{}
