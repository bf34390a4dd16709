//! That a pruned program runs as the program does, and keeps the rules of types: laws alone, with nothing to run.
#![tactic(auto)]

ghost use Rattle.sk_prune_laws.specs.Laws.{PrunedRuns, FunctionsStay};
ghost use Rattle.sk_prune_laws.specs.Typed.{PrunedKeepRules};

/// Each function that stays in a pruned program runs on all arguments as before.
#[tactic(auto, using(crate::proofs::Runs::pruned_runs))]
pub fn pruned_runs()
    ensures { PrunedRuns }
{}

/// A function that stays is there under its new number, with its name, its kind, its parameters and its result.
pub fn functions_stay()
    ensures { FunctionsStay }
{}

/// What is pruned of an expansion without sites keeps the rules of types, and is well-formed.
pub fn pruned_programs_keep_rules()
    ensures { PrunedKeepRules }
{}
