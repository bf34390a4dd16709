//! Laws of expansion.
ghost use Rattle.sk_expand_laws.specs.Copies.{CopiesAreNumbered};
ghost use Rattle.sk_expand_laws.specs.Expansion.{ExpansionsAre};
ghost use Rattle.sk_expand_laws.specs.Few.{CopiesAreFew};
ghost use Rattle.sk_expand_laws.specs.Fillings.{FillingsKeepRules};
ghost use Rattle.sk_expand_laws.specs.Names.{NamesStayDistinct};

/// The copies of an expansion are copies of generators, numbered from 1 in the order in which they stand, each
/// with what a walk of its generator's body makes, or with a body that fails.
#[tactic(auto, using(crate::proofs::Copied::copies_are_numbered))]
pub fn copies_are_numbered()
    ensures { CopiesAreNumbered }
{}

/// An expansion has no more copies than nodes.
#[tactic(auto, using(crate::proofs::Few::copies_are_few))]
pub fn copies_are_few()
    ensures { CopiesAreFew }
{}

/// All names at the top of an expansion are distinct, where those of the program are, and where no name of a
/// program with a generator ends as those of copies do.
#[tactic(auto, using(crate::proofs::Distinct::names_stay))]
pub fn names_stay_distinct()
    ensures { NamesStayDistinct }
{}

/// The expansion of a program that keeps the rules and is well-formed is what its tree says, with copies.
#[tactic(auto, using(crate::proofs::Whole::expansions_are))]
pub fn expansions_are_expanded()
    ensures { ExpansionsAre }
{}

/// The filling of the expansion of a program that keeps the rules and is well-formed, by a choice in range, keeps
/// the rules and is well-formed.
pub fn fillings_keep_rules()
    ensures { FillingsKeepRules }
{}
