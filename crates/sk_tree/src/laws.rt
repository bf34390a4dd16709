//! What holds of all trees: laws, with nothing to run.

ghost use Rattle.std.specs.Prelude.{◌≡◌, List};
ghost use Rattle.sk_tree.specs.Laws.{SpeltAsSpelled};

/// What a tree is spelt by has the kinds that the tree spells.
pub fn spelt_as_spelled()
    ensures kinds { SpeltAsSpelled }
{}
