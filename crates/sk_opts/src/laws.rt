//! What holds of the definitions.
ghost use Rattle.sk_opts.specs.Laws.{OneLine};

/// Words spell at most one line.
pub fn words_spell_one_line()
    ensures { OneLine }
{}
