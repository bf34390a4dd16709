//! What holds of the definitions.
ghost use Rattle.sk_adt_text.specs.Kept.{TextsKeepVariants};
ghost use Rattle.sk_adt_text.specs.Laws.{OneReason, OneSpan, OneText, NoReasonOfSpan, NoReasonOfText, NoSpanOfText, NoCauseOfReason, NoCauseOfSpan, NoCauseOfText};

/// Of each text, with the options of a line, one thing holds: one text is written, or one span of its program is the first that breaks a rule of tags, or one
/// reason why it has no plain form, or it is refused for a cause.
pub fn one_end()
    ensures reason { OneReason }
    ensures span { OneSpan }
    ensures text { OneText }
    ensures no_reason_of_span { NoReasonOfSpan }
    ensures no_reason_of_text { NoReasonOfText }
    ensures no_span_of_text { NoSpanOfText }
    ensures no_cause_of_reason { NoCauseOfReason }
    ensures no_cause_of_span { NoCauseOfSpan }
    ensures no_cause_of_text { NoCauseOfText }
{}

/// Of each text that is written, with options in their ranges, the program has tags that are integers and keeps the rules of types, and its runs with records
/// by their variants never stray, and end as its runs do; and the text shows that program.
pub fn texts_keep_variants()
    ensures { TextsKeepVariants }
{}
