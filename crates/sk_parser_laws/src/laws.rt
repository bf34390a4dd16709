//! What holds of reading: laws, with nothing to run.
ghost use Rattle.sk_parser_laws.specs.Laws.{ReadsExactly, ReadsAsOne, TellsFaults};

/// The reader answers a tree exactly where the tokens read as it and it is at most 256 deep.
pub fn reading_is_exact()
    ensures exact { ReadsExactly }
{}

/// Tokens read as one tree of depth at most 256 at most.
pub fn one_tree_reads()
    ensures one { ReadsAsOne }
{}

/// The tally of a tree says whether one of its patterns has too many strings and, where none has, whether
/// one has a string that reads as no expression.
pub fn faults_are_told()
    ensures told { TellsFaults }
{}
