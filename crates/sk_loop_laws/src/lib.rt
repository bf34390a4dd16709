//! Laws of the search for a choice, with nothing to run.
#![tactic(auto)]

ghost use Rattle.sk_loop_laws.specs.Laws.{HonestAreInputs, GrownIsHonest, InputsAreDistinct, RoundsAreFew, InputsAreCounted, NoneBadCompletes, CompletesHasNoneBad, CompletesIsWanted, LearntAsksFor, LearntIsTight};

/// Each input of honest pairs is one of the program.
pub fn honest_are_inputs()
    ensures { HonestAreInputs }
{}

/// Pairs to which those of rounds were added stay honest.
pub fn pairs_stay_honest()
    ensures { GrownIsHonest }
{}

/// The inputs of honest pairs are distinct.
pub fn inputs_are_distinct()
    ensures { InputsAreDistinct }
{}

/// There are at most as many honest pairs as the program has inputs, so a budget of more rounds is never spent.
pub fn rounds_are_few()
    ensures { RoundsAreFew }
{}

/// The inputs of a program can be listed, each once, and are as many as their count says.
pub fn inputs_are_counted()
    ensures { InputsAreCounted }
{}

/// A choice against which no input speaks completes.
pub fn none_bad_completes()
    ensures { NoneBadCompletes }
{}

/// No input speaks against a choice that completes.
pub fn completes_has_none_bad()
    ensures { CompletesHasNoneBad }
{}

/// A choice that completes passes each list of inputs of the program.
pub fn completes_is_wanted()
    ensures { CompletesIsWanted }
{}

/// With clauses behind it that follow, a formula asks for what it asked.
pub fn learnt_asks_for()
    ensures { LearntAsksFor }
{}

/// With clauses behind it, a formula says what it says in at most one way, as before.
pub fn learnt_is_tight()
    ensures { LearntIsTight }
{}
