//! What holds of the definitions.
ghost use Rattle.sk_prune_text.specs.Kept.{TextsKeepRuns};
ghost use Rattle.sk_prune_text.specs.Laws.{OneText, OpenOrPruned, NoCauseOfOpen, NoCauseOfPruned};

/// Of each text, with the options of a line, one thing holds: one text is written, or something of its expansion is open, or it is refused for a cause.
pub fn one_end()
    ensures text { OneText }
    ensures apart { OpenOrPruned }
    ensures no_cause_of_open { NoCauseOfOpen }
    ensures no_cause_of_pruned { NoCauseOfPruned }
{}

/// Of each text that is written, with options in their ranges, each function that stays runs on all arguments as before; and the text shows the program that is
/// left.
pub fn texts_keep_runs()
    ensures { TextsKeepRuns }
{}
