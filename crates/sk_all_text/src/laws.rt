//! What holds of the definitions.
ghost use Rattle.sk_all_text.specs.Laws.{ExplainedOrMet, AllOrMore, OneAll, NoCauseOfReasons, NoCauseOfListing};

/// Of each text, with the options of a line, one thing holds: inputs explain why it has no completion, or it has one; it has at most so many
/// completions, which one text tells, or more; or it is refused for a cause.
pub fn one_end()
    ensures explained_or_met { ExplainedOrMet }
    ensures all_or_more { AllOrMore }
    ensures one_all { OneAll }
    ensures no_cause_of_reasons { NoCauseOfReasons }
    ensures no_cause_of_listing { NoCauseOfListing }
{}
