//! The law of the clauses that exclude a choice, with nothing to run.
ghost use Rattle.sk_all_exclusions.specs.Laws.{ExclusionIsExact};

/// The clause that excludes a choice is false exactly where the names say a choice that agrees with it where its sites stand.
#[tactic(auto, using(crate::proofs::Excluded::exact))]
pub fn exclusion_is_exact()
    ensures { ExclusionIsExact }
{}
