//! Laws, with nothing to run.
ghost use Rattle.sk_tree_spell.specs.Counts.{CountsStrings};

/// The count of a pattern is the number of its strings, or 129 where it has more.
pub fn counts_are_exact()
    ensures { CountsStrings }
{}
