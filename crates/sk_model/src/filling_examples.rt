//! What expansion, sites, filling and sizes make of small programs. Each fact is computed by the checker.
ghost use Rattle.sk_model.specs.FillingExamples.{CopiesAndNumbers, PastTheBound, CopiesOfRepeats, SitesOfReorder, FillsReorder, FillsPattern, FillsBits, FillsRepeats, StandsInRepeats, DropsCopies, StepsOfLoops, NodesOfLoops, NewsOfLoop, StepsOfCalls};

/// The copies and their numbers, where a generator calls another and ordinary functions stand between.
#[tactic(auto, using(crate::proofs::FillingExamples::copies_and_numbers))]
pub fn copies_and_numbers()
    ensures { CopiesAndNumbers }
{}

/// A copy past the inlining bound fails with the span of its call.
#[tactic(auto, using(crate::proofs::FillingExamples::past_the_bound))]
pub fn past_the_bound()
    ensures { PastTheBound }
{}

/// How many copies repeats hold.
#[tactic(auto, using(crate::proofs::FillingExamples::copies_of_repeats))]
pub fn copies_of_repeats()
    ensures { CopiesOfRepeats }
{}

/// The sites of a `reorder` with a pattern in it, and of a hole of two bits.
#[tactic(auto, using(crate::proofs::FillingExamples::sites_of_reorder))]
pub fn sites_of_reorder()
    ensures { SitesOfReorder }
{}

/// A filling of a `reorder` of three statements.
#[tactic(auto, using(crate::proofs::FillingExamples::fills_reorder))]
pub fn fills_reorder()
    ensures { FillsReorder }
{}

/// The string of a pattern stands in parentheses where it is a sum.
#[tactic(auto, using(crate::proofs::FillingExamples::fills_pattern))]
pub fn fills_pattern()
    ensures { FillsPattern }
{}

/// A hole of two bits becomes braces.
#[tactic(auto, using(crate::proofs::FillingExamples::fills_bits))]
pub fn fills_bits()
    ensures { FillsBits }
{}

/// Repeats keep their first copies, and a `minrepeat` that stands pays at the start of the harness.
#[tactic(auto, using(crate::proofs::FillingExamples::fills_repeats))]
pub fn fills_repeats()
    ensures { FillsRepeats }
{}

/// Which sites stand in repeats.
#[tactic(auto, using(crate::proofs::FillingExamples::stands_in_repeats))]
pub fn stands_in_repeats()
    ensures { StandsInRepeats }
{}

/// A copy of a generator that does not stand is left out.
#[tactic(auto, using(crate::proofs::FillingExamples::drops_copies))]
pub fn drops_copies()
    ensures { DropsCopies }
{}

/// The steps of a loop in a loop.
#[tactic(auto, using(crate::proofs::FillingExamples::steps_of_loops))]
pub fn steps_of_loops()
    ensures { StepsOfLoops }
{}

/// The nodes of a loop in a loop.
#[tactic(auto, using(crate::proofs::FillingExamples::nodes_of_loops))]
pub fn nodes_of_loops()
    ensures { NodesOfLoops }
{}

/// The records that a loop may make.
#[tactic(auto, using(crate::proofs::FillingExamples::news_of_loop))]
pub fn news_of_loop()
    ensures { NewsOfLoop }
{}

/// The steps of a function that calls itself.
#[tactic(auto, using(crate::proofs::FillingExamples::steps_of_calls))]
pub fn steps_of_calls()
    ensures { StepsOfCalls }
{}
