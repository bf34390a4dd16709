//! What stays tagged.
ghost use Rattle.sk_adt_tag_laws.specs.Examples.{TagExamples};
ghost use Rattle.sk_adt_tag_laws.specs.Fillings.{ExpansionsStayTagged, FilledStayTagged, FillingsStayTagged};

/// The expansion of a tagged program that keeps the rules of types and is well-formed is tagged.
#[tactic(auto, using(crate::proofs::Expanded::expansions_stay_tagged))]
pub fn expansions_stay_tagged()
    ensures { ExpansionsStayTagged }
{}

/// What an expansion that is tagged becomes under a choice is tagged, where each call is of an ordinary function or of a
/// copy that stands behind the caller.
pub fn filled_stay_tagged()
    ensures { FilledStayTagged }
{}

/// Each filling of a tagged program that keeps the rules of types and is well-formed is tagged.
#[tactic(auto, using(crate::proofs::Fillings::fillings_stay_tagged))]
pub fn fillings_stay_tagged()
    ensures { FillingsStayTagged }
{}

/// Small programs with an algebraic type: the spans in them that break a rule of tags.
#[tactic(auto, using(crate::proofs::Computed::examples))]
pub fn tag_examples()
    ensures { TagExamples }
{}
