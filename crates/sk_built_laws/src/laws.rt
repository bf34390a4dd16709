//! What holds of the texts that the program takes.
ghost use Rattle.sk_built_laws.specs.Laws.{ExpansionsAreReady, ReadyAreAskable, ReadyHaveFewSites, BuiltAreOnly, BuiltHaveNoCause};

/// What is answered for a text is ready for a search: it is askable, and has few sites.
pub fn expansions_are_askable()
    ensures ready { ExpansionsAreReady }
    ensures askable { ReadyAreAskable }
    ensures few { ReadyHaveFewSites }
{}

/// A text that is taken has one expansion, and is refused for no cause.
pub fn texts_are_taken_once()
    ensures only { BuiltAreOnly }
    ensures no_cause { BuiltHaveNoCause }
{}
