//! What queries ask for. Each fact is computed by the checker.

ghost use Rattle.sk_min_examples.specs.Asked.{WidthExamples, LeafExamples, SaidExamples, BadExamples, WantedExamples, HoldExamples, ClauseExamples};

/// How many bits the numbers have by which a query is said.
pub fn widths()
    ensures { WidthExamples }
{}

/// Each bit has its leaf.
pub fn leaves()
    ensures { LeafExamples }
{}

/// Which input and which choice bits say.
pub fn said()
    ensures { SaidExamples }
{}

/// Which input speaks against a choice, within a limit.
pub fn bad()
    ensures { BadExamples }
{}

/// Which choice passes listed inputs, within a limit.
pub fn wanted()
    ensures { WantedExamples }
{}

/// Which bits say what a query asks for.
pub fn holding()
    ensures { HoldExamples }
{}

/// Which clauses ask for it, and in one way alone.
pub fn clauses()
    ensures { ClauseExamples }
{}
