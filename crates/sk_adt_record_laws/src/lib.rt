//! Laws of runs with records by their variants, with nothing to run.
#![tactic(auto)]

ghost use Rattle.sk_adt_record_laws.specs.Laws.{TaggedRunsKeepVariants};
ghost use Rattle.sk_adt_record_laws.specs.Examples.{RecordExamples};

/// The run of a tagged program never strays, and is the same with records by their variants: where the program is typed, each struct that its algebraic
/// types name is one that the lowering makes, and the function's parameters and result hold no references.
#[tactic(auto, using(crate::proofs::Calling::tagged_runs))]
pub fn tagged_runs_keep_variants()
    ensures { TaggedRunsKeepVariants }
{}

/// Runs of small programs with records by their variants: what strays, what fails, and what gives a value.
#[tactic(auto, using(crate::proofs::Computed::examples))]
pub fn record_examples()
    ensures { RecordExamples }
{}
