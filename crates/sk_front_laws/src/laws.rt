//! The laws of what a text means.
ghost use Rattle.sk_front_laws.specs.Meaning.{TextsKeepRules};
ghost use Rattle.sk_front_laws.specs.WellFormed.{TextsAreWellFormed};

/// What a text means keeps the rules.
pub fn texts_keep_rules()
    ensures { TextsKeepRules }
{}

/// What a text means is well-formed.
pub fn texts_are_well_formed()
    ensures { TextsAreWellFormed }
{}
