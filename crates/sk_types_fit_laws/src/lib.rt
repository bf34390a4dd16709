//! Laws of what trees mean, with nothing to run: such programs are well-formed.
#![tactic(auto)]

ghost use Rattle.sk_types_fit_laws.specs.LawNames.{WellFormed};

/// Where the names of a tree are words and no keywords, the program that it means is well-formed: its numbers name
/// what is there, and its names are words and no keywords.
pub fn programs_are_well_formed()
    ensures { WellFormed }
{}
