//! What holds of the program that the plain tokens of a text mean.
ghost use Rattle.sk_adt_text_laws.specs.Lowered.{LoweredTagsAreIntegers, LoweredProgramsKeepRules, LoweredRunsKeepVariants};
ghost use Rattle.sk_adt_text_laws.specs.Shown.{LoweredProgramsFit, LoweredProgramsAreShown};

/// In a program that plain tokens mean, the tag of each struct of an algebraic type is an integer.
pub fn lowered_tags_are_integers()
    ensures { LoweredTagsAreIntegers }
{}

/// A program that plain tokens mean keeps the rules of types.
pub fn lowered_programs_keep_rules()
    ensures { LoweredProgramsKeepRules }
{}

/// Where such a program is tagged, its runs with records by their variants never stray, and end as its runs do.
pub fn lowered_runs_keep_variants()
    ensures { LoweredRunsKeepVariants }
{}

/// A program that the plain tokens of a text mean is well-formed.
pub fn lowered_programs_fit()
    ensures { LoweredProgramsFit }
{}

/// The layout of such a program shows it, where an integer has at most 32 bits.
pub fn lowered_programs_are_shown()
    ensures { LoweredProgramsAreShown }
{}
